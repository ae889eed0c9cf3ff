ghost use Rattle.std.specs.Prelude.{◌≡◌, ◌*◌, ◌+◌, ◌-◌, ◌<◌, ◌≤◌, ◌^◌, ◌++◌, [], ◌∷◌, IfOk, OnOk, OnErr, IfErr, Ok, Err, true, false, length, drop, min, slice_get, slice_index_or, is_some, None, option_map, nat_eq, ℕ, Some};
ghost use Rattle.std.specs.List.{list_any};
ghost use Rattle.al_world.specs.Channels.{Offer, makes, next_number, gives_up, is_waited_for, can_recv, can_send, could_go, pairs_at, opposites, channel, held_of};
ghost use Rattle.std.specs.Option.{option_copied};
ghost use Rattle.al_world.specs.Transfers.{IsIn};

use crate::chan::Chan;
use crate::channels::{channel, give_up, is_open, put, take};
use crate::fault::ChanFault;
use crate::links::Links;
use crate::queues::{count_on, enter, go_along, leave, opposite_queue};
use al_base::NoMemory;
use al_event::{Branch, Branches, Words};
use std::alloc::Global;
use std::marker::Model;

/// A branch of a blocked talk: the slot of its task, and its number among the branches of the talk.
#[derive(Clone, Copy, Debug, PartialEq, Eq)]
pub struct Waiter {
    pub task: u32,
    pub number: u32,
}

/// What is told of a channel: how many values it may hold and holds, and how many blocked tasks have a branch on it.
#[derive(Clone, Copy, Debug, PartialEq, Eq)]
pub struct Shape {
    pub capacity: u32,
    pub held: u32,
    pub waiting: u32,
}

/// All channels, and the waiting list: the branches of the blocked talks, each talk called by the slot of its task.
///
/// A channel's waiting branches stand in two queues, of those that receive and of those that send, so what a talk can go
/// with is found without looking at other channels.
#[derive(Drop)]
pub struct Book {
    alloc: Global,
    channels: Vec<Chan>,
    talks: Vec<Option<Branches>>,
    order: Links,
    queues: Links,
}

impl Model for Book {
    ghost use Rattle.chan_book.specs.Book.{Bounded, IsKept, bounded};
    ghost use Rattle.std.specs.Prelude.{length};

    ghost Value = { Bounded };

    ghost view = { λ b. bounded b.channels.items b.talks.items b.order };

    ghost invariant = { λ b. IsKept (length b.talks.items) b.channels.items b.talks.items b.order b.queues };
}

impl Book {
    ghost use Rattle.chan_book.specs.Book.{Bounded, IsTalk, IsThere, IsOpen, IsHolding, is_blocked, trap_of, tasks_on};
    ghost use Rattle.chan_book.specs.Named.{waiter_of, shape_of};
    ghost use Rattle.al_world.specs.Talks.{blocks, withdraws, with_held};

    /// A book with no channel and no blocked task, with room for the talks of so many tasks, each with 64 branches.
    pub fn new(alloc: Global, tasks: u32) -> Result<Book, NoMemory>
        ensures { IfOk result (λ b. b ≡ record { room = tasks; book = record { channels = []; waiting = [] } }) }
    {
        let room = tasks as usize;
        let mut talks = Vec::with_capacity(alloc, room)?;
        for _ in 0..room {
            talks.push(None)?;
        }
        let order = Links::new(alloc, room)?;
        let queues = Links::new(alloc, 64 * room)?;
        Ok(Book {
            alloc,
            channels: Vec::new(alloc),
            talks,
            order,
            queues,
        })
    }

    /// Makes a channel for at most `capacity` values of `words` words, and gives its number. Its room is taken now.
    pub fn make(&mut self, capacity: u32, words: u32) -> Result<u32, NoMemory>
        requires few { length self.old.book.channels < 2 ^ 32 - 1 }
        ensures made { OnOk result (self.new ≡ record self.old { book = makes self.old.book capacity words }) }
        ensures number { IfOk result (λ c. c ≡ next_number self.old.book) }
        ensures kept { OnErr result (self.new ≡ self.old) }
    {
        let channel = Chan::new(self.alloc, capacity, words)?;
        self.channels.reserve(1)?;
        self.queues.add_two()?;
        if let Err(_) = self.channels.push(channel) {
            unreachable!();
        }
        Ok(self.channels.len() as u32)
    }

    /// Puts the branches of a talk behind all that wait.
    pub fn wait(&mut self, task: u32, branches: Branches)
        requires room { task < self.old.room }
        requires free { is_blocked self.old.book task ≡ false }
        requires talk { IsTalk self.old.book.channels branches }
        ensures { self.new ≡ record self.old { book = blocks self.old.book task branches } }
    {
        let slot = task as usize;
        enter(&mut self.queues, 64 * slot, branches.as_slice());
        let end = self.order.root();
        self.order.insert(slot, end);
        self.talks[slot] = Some(branches);
    }

    /// Takes the talk of a blocked task out of the waiting list, with all its branches.
    pub fn withdraw(&mut self, task: u32) -> Branches
        requires { is_blocked self.old.book task ≡ true }
        ensures withdrawn { self.new ≡ record self.old { book = withdraws nat_eq task self.old.book } }
        ensures talk { (o : Offer ℕ) → IsIn self.old.book.waiting o → o.by ≡ task → slice_get result o.number ≡ Some o.branch }
    {
        let slot = task as usize;
        let Some(branches) = self.talks[slot].take() else {
            unreachable!();
        };
        leave(&mut self.queues, 64 * slot, branches.len());
        self.order.remove(slot);
        branches
    }

    /// How many channels were made so far.
    pub fn made(&self) -> u32
        ensures { result ≡ length self.now.book.channels }
    {
        self.channels.len() as u32
    }

    /// For the talks of how many tasks there is room.
    pub fn room(&self) -> u32
        ensures { result ≡ self.now.room }
    {
        self.talks.len() as u32
    }

    /// Whether a task is blocked.
    pub fn is_blocked(&self, task: u32) -> bool
        ensures { result ≡ is_blocked self.now.book task }
    {
        is_some_at(&self.talks, task as usize)
    }

    /// Capacity, number of values held and number of waiting tasks of a channel; none where it is nil or was given up. It
    /// looks at all blocked talks.
    pub fn shape(&self, chan: u32) -> Option<Shape>
        ensures { result ≡ shape_of self.now.book chan }
    {
        let channel = self.channel(chan)?;
        if channel.is_given_up() {
            return None;
        }
        Some(Shape {
            capacity: channel.capacity(),
            held: channel.held(),
            waiting: self.waiting_for(chan),
        })
    }

    // How many blocked tasks have a branch on a channel.
    fn waiting_for(&self, chan: u32) -> u32
        ensures { result ≡ length (tasks_on chan self.now.book.waiting) }
    {
        count_on(&self.order, &self.talks, chan) as u32
    }

    /// The channel of a number; none where it is nil or was never given.
    pub fn channel(&self, chan: u32) -> Option<&Chan>
        ensures { option_copied result ≡ channel self.now.book.channels chan }
    {
        channel(&self.channels, chan)
    }

    /// No words, without taking memory.
    pub fn no_words(&self) -> Words
        ensures { result ≡ [] }
    {
        Words::new(self.alloc)
    }

    /// Gives a channel up, with what it holds. Nil is given up in vain.
    pub fn give_up(&mut self, chan: u32) -> Result<(), ChanFault>
        ensures ok { OnOk result (gives_up self.old.book chan ≡ Ok self.new.book) }
        ensures err { IfErr result (λ fault. gives_up self.old.book chan ≡ Err (trap_of fault)) }
        ensures kept { OnErr result (self.new ≡ self.old) }
        ensures room { self.new.room ≡ self.old.room }
    {
        let Some(channel) = channel(&self.channels, chan) else {
            return Ok(());
        };
        if channel.is_given_up() {
            return Err(ChanFault::Chan);
        }
        if self.is_waited_for(chan) {
            return Err(ChanFault::Busy);
        }
        give_up(&mut self.channels, self.alloc, chan);
        Ok(())
    }

    // Whether a blocked talk has a branch on a channel.
    fn is_waited_for(&self, chan: u32) -> bool
        requires { IsThere self.now.book.channels chan }
        ensures { result ≡ is_waited_for self.now.book chan }
    {
        let receives = 2 * (chan as usize - 1);
        go_along(&self.queues, receives, 1).0 > 0 || go_along(&self.queues, receives + 1, 1).0 > 0
    }

    /// Whether a receive could go at once.
    pub fn can_recv(&self, chan: u32) -> Result<bool, ChanFault>
        ensures ok { IfOk result (λ answer. can_recv self.now.book chan ≡ Ok answer) }
        ensures err { IfErr result (λ fault. can_recv self.now.book chan ≡ Err (trap_of fault)) }
    {
        self.could_go(&Branch {
            chan,
            words: 0,
            send: None,
        })
    }

    /// Whether a send could go at once.
    pub fn can_send(&self, chan: u32) -> Result<bool, ChanFault>
        ensures ok { IfOk result (λ answer. can_send self.now.book chan ≡ Ok answer) }
        ensures err { IfErr result (λ fault. can_send self.now.book chan ≡ Err (trap_of fault)) }
    {
        self.could_go(&Branch {
            chan,
            words: 0,
            send: Some(self.no_words()),
        })
    }

    // Whether a talk of this one branch could go at once.
    fn could_go(&self, branch: &Branch) -> Result<bool, ChanFault>
        ensures ok { IfOk result (λ answer. could_go self.now.book branch.now ≡ Ok answer) }
        ensures err { IfErr result (λ fault. could_go self.now.book branch.now ≡ Err (trap_of fault)) }
    {
        match self.channel(branch.chan) {
            Some(channel) if !channel.is_given_up() => Ok(self.pairs(branch, 1) > 0),
            _ => Err(ChanFault::Chan),
        }
    }

    /// With how many waiting branches, or with the buffer, a branch can go; `most` where they are more.
    pub fn pairs(&self, branch: &Branch, most: usize) -> usize
        ensures { result ≡ min most (length (pairs_at self.now.book.waiting 0 branch.now (channel self.now.book.channels branch.now.chan))) }
    {
        match self.channel(branch.chan) {
            None => 0,
            Some(channel) if channel.capacity() == 0 => {
                go_along(&self.queues, opposite_queue(branch), most).0
            }
            Some(channel) => most.min(usize::from(is_open(channel, branch))),
        }
    }

    /// The waiting branch at a place, counted from 0, among those that are opposite to a branch.
    pub fn opposite(&self, branch: &Branch, place: usize) -> Option<Waiter>
        requires { IsThere self.now.book.channels branch.now.chan }
        ensures { result ≡ option_map waiter_of (slice_get (opposites self.now.book.waiting branch.now) place) }
    {
        let node = go_along(&self.queues, opposite_queue(branch), place).1;
        if node >= self.queues.root() {
            return None;
        }
        Some(Waiter {
            task: (node / 64) as u32,
            number: (node % 64) as u32,
        })
    }

    /// Puts a value into a channel, behind those that it holds.
    pub fn put(&mut self, chan: u32, words: Words)
        requires { IsOpen self.old.book.channels chan }
        ensures { self.new ≡ record self.old { book = record self.old.book { channels = with_held chan (λ held. held ++ words ∷ []) self.old.book.channels } } }
    {
        put(&mut self.channels, chan, words);
    }

    /// Takes the oldest value out of a channel.
    pub fn take(&mut self, chan: u32) -> Words
        requires { IsHolding self.old.book.channels chan }
        ensures taken { self.new ≡ record self.old { book = record self.old.book { channels = with_held chan (λ held. drop 1 held) self.old.book.channels } } }
        ensures oldest { held_of (channel self.old.book.channels chan) ≡ result ∷ drop 1 (held_of (channel self.old.book.channels chan)) }
    {
        take(&mut self.channels, chan)
    }
}

// Whether there is a talk at a place.
fn is_some_at(talks: &[Option<Branches>], at: usize) -> bool
    ensures { result ≡ is_some (slice_index_or talks.now at None) }
{
    if at < talks.len() {
        talks[at].is_some()
    } else {
        false
    }
}
