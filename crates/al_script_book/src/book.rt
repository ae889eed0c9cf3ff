// Channels and the waiting list, as plain lists.

ghost use Rattle.std.specs.Prelude.{◌≡◌, IfOk};
ghost use Rattle.std.specs.Option.{option_copied};
ghost use Rattle.al_world.specs.Channels.{channel, is_bad, has_bad, is_open, is_opposite, is_waited_for, new_channel};

use crate::copies::copy_branch;
use crate::names::TalkName;
use al_base::NoMemory;
use al_event::{Branch, Words};
use al_items::Items;
use std::alloc::Global;
use std::marker::Model;

/// A channel, with its values, the oldest first.
#[derive(Debug, Drop)]
pub struct Channel {
    pub capacity: u32,
    pub words: u32,
    pub held: Items<Words>,
    pub given_up: bool,
}

impl Model for Channel {
    ghost use Rattle.al_world.specs.Channels.{Channel as View};

    ghost Value = { View };

    ghost view = { λ c. record { capacity = c.capacity; words = c.words; held = c.held; given_up = c.given_up } };
}

impl Channel {
    /// A channel that holds nothing.
    pub fn new(alloc: Global, capacity: u32, words: u32) -> Channel
        ensures { result ≡ new_channel capacity words }
    {
        Channel {
            capacity,
            words,
            held: Items::new(alloc),
            given_up: false,
        }
    }

    /// Whether the buffer has room for a send, or a value for a receive.
    pub fn is_open(&self, send: &Option<Words>) -> bool
        ensures { result ≡ is_open self.now send.now }
    {
        match send {
            Some(_) => self.held.len() < self.capacity as usize,
            None => self.held.len() > 0,
        }
    }
}

/// A branch of a blocked talk.
#[derive(Debug, Drop)]
pub struct Offer {
    pub by: TalkName,
    pub number: u32,
    pub branch: Branch,
}

impl Model for Offer {
    ghost use Rattle.al_world.specs.Channels.{Offer as View};
    ghost use Rattle.al_world.specs.World.{TalkName as Name};

    ghost Value = { View Name };

    ghost view = { λ o. record { by = o.by; number = o.number; branch = o.branch } };
}

impl Offer {
    /// The same offer.
    pub fn copy(&self, alloc: Global) -> Result<Offer, NoMemory>
        ensures { IfOk result (λ offer. offer ≡ self.now) }
    {
        let branch = copy_branch(alloc, &self.branch)?;
        Ok(Offer {
            by: self.by,
            number: self.number,
            branch,
        })
    }
}

/// All channels, and the branches of the blocked talks.
#[derive(Debug, Drop)]
pub struct Book {
    pub channels: Items<Channel>,
    pub waiting: Items<Offer>,
}

impl Model for Book {
    ghost use Rattle.al_world.specs.Channels.{Book as View};
    ghost use Rattle.al_world.specs.World.{TalkName as Name};

    ghost Value = { View Name };

    ghost view = { λ b. record { channels = b.channels; waiting = b.waiting } };
}

/// Whether one branch sends and the other receives, on one channel.
pub fn is_opposite(a: &Branch, b: &Branch) -> bool
    ensures { result ≡ is_opposite a.now b.now }
{
    a.chan == b.chan && a.send.is_some() != b.send.is_some()
}

impl Book {
    /// The channel of a number.
    pub fn channel(&self, chan: u32) -> Option<&Channel>
        ensures { option_copied result ≡ channel self.now.channels chan }
    {
        let place = (chan as usize).checked_sub(1)?;
        self.channels.get(place)
    }

    /// Whether a branch traps: on nil, on a channel that was given up, or on one made for other words.
    pub fn is_bad(&self, branch: &Branch) -> bool
        ensures { result ≡ is_bad self.now.channels branch.now }
    {
        match self.channel(branch.chan) {
            Some(channel) => channel.given_up || channel.words != branch.words,
            None => true,
        }
    }

    /// Whether some branch traps.
    pub fn has_bad(&self, branches: &[Branch]) -> bool
        ensures { result ≡ has_bad self.now branches.now }
    {
        branches.iter().any(|branch| self.is_bad(branch))
    }

    /// Whether a blocked talk has a branch on this channel.
    pub fn is_waited_for(&self, chan: u32) -> bool
        ensures { result ≡ is_waited_for self.now chan }
    {
        self.waiting
            .as_slice()
            .iter()
            .any(|offer| offer.branch.chan == chan)
    }
}
