// A channel made, given up, and asked.

ghost use Rattle.std.specs.Prelude.{◌≡◌, ◌+◌, ◌<◌, ◌^◌, Ok, Err, length, IfOk, IfErr, OnOk, OnErr};
ghost use Rattle.al_world.specs.Channels.{channel, held_of, ready, is_some_ready, makes, next_number, gives_up, could_go, can_recv, can_send};
ghost use Rattle.al_world.specs.Talks.{Lost};

use crate::book::{Book, Channel};
use crate::copies::list_of_one;
use crate::held::replace;
use crate::pairs::Pair;
use crate::went::{Passage, Went};
use al_base::{NoMemory, Trap};
use al_event::Branch;
use al_items::Items;
use std::alloc::Global;

/// Adds a channel, and gives its number.
pub fn makes(alloc: Global, book: &mut Book, capacity: u32, words: u32) -> Result<u32, NoMemory>
    requires { length book.old.channels + 1 < 2 ^ 32 }
    ensures book { OnOk result (book.new ≡ makes book.old capacity words) }
    ensures number { IfOk result (λ n. n ≡ next_number book.old) }
{
    let number = book.channels.len() as u32 + 1;
    book.channels.push(Channel::new(alloc, capacity, words))?;
    Ok(number)
}

/// Whether there is a pair.
fn is_some(pairs: &[Pair]) -> bool
    ensures { result ≡ is_some_ready pairs.now }
{
    match pairs {
        [] => false,
        [_first, ..] => true,
    }
}

impl Book {
    /// What is given up with a channel.
    pub fn lost(&self, alloc: Global, chan: u32) -> Result<Went, NoMemory>
        ensures { IfOk result (λ went. went ≡ Lost chan (held_of (channel self.now.channels chan))) }
    {
        let values = self.held(alloc, chan)?;
        let passage = Passage::Lost { chan, values };
        Ok(Went { passage })
    }

    /// Whether a talk with these branches could go at once.
    pub fn is_some_ready(&self, alloc: Global, branches: &[Branch]) -> Result<bool, NoMemory>
        requires { length branches.now < 2 ^ 32 }
        ensures { IfOk result (λ is. is ≡ is_some_ready (ready self.now branches.now)) }
    {
        let pairs = self.ready(alloc, branches)?;
        Ok(is_some(pairs.as_slice()))
    }
}

/// Gives a channel up, with what it holds.
pub fn gives_up(alloc: Global, book: &mut Book, chan: u32) -> Result<(), Trap>
    ensures ok { OnOk result (gives_up book.old chan ≡ Ok book.new) }
    ensures err { IfErr result (λ trap. gives_up book.old chan ≡ Err trap) }
    ensures kept { OnErr result (book.new ≡ book.old) }
{
    let Some(channel) = book.channel(chan) else {
        return Ok(());
    };
    if channel.given_up {
        return Err(Trap::Chan);
    }
    if book.is_waited_for(chan) {
        return Err(Trap::Busy);
    }
    let given_up = Channel {
        capacity: channel.capacity,
        words: channel.words,
        held: Items::new(alloc),
        given_up: true,
    };
    replace(&mut book.channels, chan, given_up);
    Ok(())
}

/// Whether a talk of this one branch could go at once.
fn could_go(alloc: Global, book: &Book, branch: Branch) -> Result<Result<bool, Trap>, NoMemory>
    ensures { IfOk result (λ answer. answer ≡ could_go book.now branch) }
{
    let usable = match book.channel(branch.chan) {
        Some(channel) => !channel.given_up,
        None => false,
    };
    if usable {
        let branches = list_of_one(alloc, branch)?;
        let could = book.is_some_ready(alloc, branches.as_slice())?;
        Ok(Ok(could))
    } else {
        Ok(Err(Trap::Chan))
    }
}

/// Whether a receive could go at once.
pub fn can_recv(alloc: Global, book: &Book, chan: u32) -> Result<Result<bool, Trap>, NoMemory>
    ensures { IfOk result (λ answer. answer ≡ can_recv book.now chan) }
{
    let branch = Branch {
        chan,
        words: 0,
        send: None,
    };
    could_go(alloc, book, branch)
}

/// Whether a send could go at once.
pub fn can_send(alloc: Global, book: &Book, chan: u32) -> Result<Result<bool, Trap>, NoMemory>
    ensures { IfOk result (λ answer. answer ≡ can_send book.now chan) }
{
    let branch = Branch {
        chan,
        words: 0,
        send: Some(Items::new(alloc)),
    };
    could_go(alloc, book, branch)
}
