// The values that a channel holds.

ghost use Rattle.std.specs.Prelude.{◌≡◌, ◌++◌, ◌<◌, [], ◌∷◌, drop, length, slice_set, IfOk};
ghost use Rattle.al_world.specs.Channels.{Channel as TheChannel, channel, with_channel, held_of};
ghost use Rattle.al_world.specs.Talks.{with_held};

use crate::book::{Book, Channel};
use crate::copies::copy_values;
use al_base::NoMemory;
use al_event::Words;
use al_items::Items;
use std::alloc::Global;

impl Channel {
    /// The channel with other values.
    fn holding(&self, held: Items<Words>) -> Channel
        ensures { result ≡ record self.now { held = held } }
    {
        Channel {
            capacity: self.capacity,
            words: self.words,
            held,
            given_up: self.given_up,
        }
    }
}

impl Book {
    /// A copy of what the channel of a number holds.
    pub fn held(&self, alloc: Global, chan: u32) -> Result<Items<Words>, NoMemory>
        ensures { IfOk result (λ held. held ≡ held_of (channel self.now.channels chan)) }
    {
        match self.channel(chan) {
            Some(channel) => copy_values(alloc, channel.held.as_slice()),
            None => Ok(Items::new(alloc)),
        }
    }

    /// A copy of what the channel of a number holds but for the oldest value.
    fn held_later(&self, alloc: Global, chan: u32) -> Result<Items<Words>, NoMemory>
        ensures { IfOk result (λ held. held ≡ drop 1 (held_of (channel self.now.channels chan))) }
    {
        let held = self.held(alloc, chan)?;
        match held.as_slice() {
            [] => Ok(Items::new(alloc)),
            [_, later @ ..] => copy_values(alloc, later),
        }
    }
}

/// The channels with another one in the place of one that is there.
fn set_at(channels: Items<Channel>, place: usize, other: Channel) -> Items<Channel>
    requires { place < length channels }
    ensures { result ≡ slice_set channels place other }
{
    let mut channels = channels;
    channels.set(place, other);
    channels
}

/// The channels with other values in one of them, where it is there.
fn set_held(channels: Items<Channel>, chan: u32, held: Items<Words>) -> Items<Channel>
    ensures { result ≡ with_channel chan (λ (ch : TheChannel). record ch { held = held }) channels }
{
    if chan == 0 {
        return channels;
    }
    let place = chan as usize - 1;
    match channels.get(place) {
        None => channels,
        Some(channel) => {
            let channel = channel.holding(held);
            set_at(channels, place, channel)
        }
    }
}

/// Puts another channel in the place of one, where it is there.
pub fn replace(channels: &mut Items<Channel>, chan: u32, other: Channel)
    ensures { channels.new ≡ with_channel chan (λ (ch : TheChannel). other) channels.old }
{
    if chan == 0 {
        return;
    }
    let place = chan as usize - 1;
    if place < channels.len() {
        channels.set(place, other);
    }
}

impl Book {
    /// The book with other values in one channel, where it is there.
    fn with_held(self, chan: u32, held: Items<Words>) -> Book
        ensures { result ≡ record self { channels = with_channel chan (λ (ch : TheChannel). record ch { held = held }) self.channels } }
    {
        let Book { channels, waiting } = self;
        Book {
            channels: set_held(channels, chan, held),
            waiting,
        }
    }

    /// The book with a value behind what a channel holds.
    pub fn with_value(self, alloc: Global, chan: u32, words: Words) -> Result<Book, NoMemory>
        ensures { IfOk result (λ after. after ≡ record self { channels = with_held chan (λ held. held ++ words ∷ []) self.channels }) }
    {
        let mut held = self.held(alloc, chan)?;
        held.push(words)?;
        Ok(self.with_held(chan, held))
    }

    /// The book without the oldest value of a channel.
    pub fn without_oldest(self, alloc: Global, chan: u32) -> Result<Book, NoMemory>
        ensures { IfOk result (λ after. after ≡ record self { channels = with_held chan (λ held. drop 1 held) self.channels }) }
    {
        let held = self.held_later(alloc, chan)?;
        Ok(self.with_held(chan, held))
    }

    /// The book with a value behind what a channel holds in place of the oldest.
    pub fn with_later(self, alloc: Global, chan: u32, words: Words) -> Result<Book, NoMemory>
        ensures { IfOk result (λ after. after ≡ record self { channels = with_held chan (λ held. drop 1 held ++ words ∷ []) self.channels }) }
    {
        let mut held = self.held_later(alloc, chan)?;
        held.push(words)?;
        Ok(self.with_held(chan, held))
    }
}
