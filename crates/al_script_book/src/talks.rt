// What a talk does that goes, and one that blocks.

ghost use Rattle.std.specs.Prelude.{◌≡◌, ◌<◌, ◌^◌, Some, None, length, IfOk};
ghost use Rattle.al_world.specs.Channels.{channel};
ghost use Rattle.al_world.specs.Talks.{words_of, meets, hands_over, puts_in, takes_out, lets_in, sends, receives, by_buffer, goes_with, fires};
ghost use Rattle.al_world.specs.World.{TalkName as Name, same_talker};

use crate::book::{Book, Offer};
use crate::copies::{copy_words, list_of_one, list_of_two};
use crate::names::TalkName;
use crate::offers::{opposites, withdraws};
use crate::pairs::Pair;
use crate::went::{Passage, Went, Woken};
use al_base::NoMemory;
use al_event::{Branch, Words};
use al_items::Items;
use std::alloc::Global;
use std::marker::Model;

/// What a talk comes to that goes: the book after it, which of its branches went, the words that it received, the blocked
/// talk that it woke, and what went.
#[derive(Debug, Drop)]
pub struct Fired {
    pub book: Book,
    pub branch: u32,
    pub words: Words,
    pub woke: Option<Woken>,
    pub went: Items<Went>,
}

impl Model for Fired {
    ghost use Rattle.al_world.specs.Talks.{Fired as View};
    ghost use Rattle.al_world.specs.World.{TalkName as Name};

    ghost Value = { View Name };

    ghost view = { λ f. record { book = f.book; branch = f.branch; words = f.words; woke = f.woke; went = f.went } };
}

/// The words that a waiting send has.
fn words_of(alloc: Global, offer: &Offer) -> Result<Words, NoMemory>
    ensures { IfOk result (λ words. words ≡ words_of offer.now) }
{
    match &offer.branch.send {
        Some(words) => copy_words(alloc, words),
        None => Ok(Items::new(alloc)),
    }
}

/// The talk of an offer goes by that branch, and receives these words.
fn woken(offer: &Offer, words: Words) -> Woken
    ensures { result ≡ record { by = offer.now.by; branch = offer.now.number; words = words } }
{
    Woken {
        by: offer.by,
        branch: offer.number,
        words,
    }
}

/// The words of a send are handed to a receive that waits.
fn sends_to(
    alloc: Global,
    book: Book,
    talk: TalkName,
    number: u32,
    chan: u32,
    words: &Words,
    offer: &Offer,
) -> Result<Fired, NoMemory>
    ensures { IfOk result (λ fired. fired ≡ meets same_talker book talk number chan (Some words.now) offer.now) }
{
    let passage = Passage::Transfer {
        chan,
        sender: talk,
        receiver: offer.by,
        words: copy_words(alloc, words)?,
    };
    Ok(Fired {
        book: withdraws(alloc, offer.by, book)?,
        branch: number,
        words: Items::new(alloc),
        woke: Some(woken(offer, copy_words(alloc, words)?)),
        went: list_of_one(alloc, Went { passage })?,
    })
}

/// The words of a send that waits are handed to a receive.
fn receives_from(
    alloc: Global,
    book: Book,
    talk: TalkName,
    number: u32,
    chan: u32,
    offer: &Offer,
) -> Result<Fired, NoMemory>
    ensures { IfOk result (λ fired. fired ≡ meets same_talker book talk number chan None offer.now) }
{
    let passage = Passage::Transfer {
        chan,
        sender: offer.by,
        receiver: talk,
        words: words_of(alloc, offer)?,
    };
    Ok(Fired {
        book: withdraws(alloc, offer.by, book)?,
        branch: number,
        words: words_of(alloc, offer)?,
        woke: Some(woken(offer, Items::new(alloc))),
        went: list_of_one(alloc, Went { passage })?,
    })
}

/// A send to an empty buffer on which a receive waits: the words are handed to it.
fn hands_over(
    alloc: Global,
    book: Book,
    talk: TalkName,
    number: u32,
    chan: u32,
    words: &Words,
    offer: &Offer,
) -> Result<Fired, NoMemory>
    ensures { IfOk result (λ fired. fired ≡ hands_over same_talker book talk number chan words.now offer.now) }
{
    let put = Passage::Put {
        chan,
        sender: talk,
        words: copy_words(alloc, words)?,
    };
    let get = Passage::Get {
        chan,
        receiver: offer.by,
        words: copy_words(alloc, words)?,
    };
    Ok(Fired {
        book: withdraws(alloc, offer.by, book)?,
        branch: number,
        words: Items::new(alloc),
        woke: Some(woken(offer, copy_words(alloc, words)?)),
        went: list_of_two(alloc, Went { passage: put }, Went { passage: get })?,
    })
}

/// A send into the buffer, behind what it holds.
fn puts_in(
    alloc: Global,
    book: Book,
    talk: TalkName,
    number: u32,
    chan: u32,
    words: &Words,
) -> Result<Fired, NoMemory>
    ensures { IfOk result (λ fired. fired ≡ puts_in same_talker book talk number chan words.now) }
{
    let value = copy_words(alloc, words)?;
    let book = book.with_value(alloc, chan, value)?;
    let passage = Passage::Put {
        chan,
        sender: talk,
        words: copy_words(alloc, words)?,
    };
    Ok(Fired {
        book,
        branch: number,
        words: Items::new(alloc),
        woke: None,
        went: list_of_one(alloc, Went { passage })?,
    })
}

/// A receive of the oldest value of the buffer.
fn takes_out(
    alloc: Global,
    book: Book,
    talk: TalkName,
    number: u32,
    chan: u32,
    words: &Words,
) -> Result<Fired, NoMemory>
    ensures { IfOk result (λ fired. fired ≡ takes_out same_talker book talk number chan words.now) }
{
    let book = book.without_oldest(alloc, chan)?;
    let passage = Passage::Get {
        chan,
        receiver: talk,
        words: copy_words(alloc, words)?,
    };
    Ok(Fired {
        book,
        branch: number,
        words: copy_words(alloc, words)?,
        woke: None,
        went: list_of_one(alloc, Went { passage })?,
    })
}

/// A receive of the oldest value of a full buffer on which a send waits: the words of that send come in.
fn lets_in(
    alloc: Global,
    book: Book,
    talk: TalkName,
    number: u32,
    chan: u32,
    words: &Words,
    offer: &Offer,
) -> Result<Fired, NoMemory>
    ensures { IfOk result (λ fired. fired ≡ lets_in same_talker book talk number chan words.now offer.now) }
{
    let value = words_of(alloc, offer)?;
    let book = book.with_later(alloc, chan, value)?;
    let get = Passage::Get {
        chan,
        receiver: talk,
        words: copy_words(alloc, words)?,
    };
    let put = Passage::Put {
        chan,
        sender: offer.by,
        words: words_of(alloc, offer)?,
    };
    Ok(Fired {
        book: withdraws(alloc, offer.by, book)?,
        branch: number,
        words: copy_words(alloc, words)?,
        woke: Some(woken(offer, Items::new(alloc))),
        went: list_of_two(alloc, Went { passage: get }, Went { passage: put })?,
    })
}

/// A send on a buffered channel, by what it holds and the receives that wait for it.
fn sends(
    alloc: Global,
    book: Book,
    talk: TalkName,
    number: u32,
    chan: u32,
    words: &Words,
    held: &[Words],
    partners: &[Offer],
) -> Result<Fired, NoMemory>
    ensures { IfOk result (λ fired. fired ≡ sends same_talker book talk number chan words.now held.now partners.now) }
{
    match (held, partners) {
        ([], [offer, ..]) => hands_over(alloc, book, talk, number, chan, words, offer),
        _ => puts_in(alloc, book, talk, number, chan, words),
    }
}

/// A receive on a buffered channel, by whether it is full, what it holds and the sends that wait for it.
fn receives(
    alloc: Global,
    book: Book,
    talk: TalkName,
    number: u32,
    chan: u32,
    full: bool,
    held: &[Words],
    partners: &[Offer],
) -> Result<Option<Fired>, NoMemory>
    ensures { IfOk result (λ fired. fired ≡ receives same_talker book talk number chan full held.now partners.now) }
{
    match held {
        [] => Ok(None),
        [words, ..] => match partners {
            [offer, ..] if full => {
                let fired = lets_in(alloc, book, talk, number, chan, words, offer)?;
                Ok(Some(fired))
            }
            _ => {
                let fired = takes_out(alloc, book, talk, number, chan, words)?;
                Ok(Some(fired))
            }
        },
    }
}

/// A talk goes with the buffer of its channel.
fn by_buffer(
    alloc: Global,
    book: Book,
    talk: TalkName,
    number: u32,
    branch: &Branch,
) -> Result<Option<Fired>, NoMemory>
    ensures { IfOk result (λ fired. fired ≡ by_buffer same_talker book talk number branch.now branch.now.send (channel book.channels branch.now.chan)) }
{
    let capacity = match book.channel(branch.chan) {
        Some(channel) => channel.capacity as usize,
        None => return Ok(None),
    };
    let held = book.held(alloc, branch.chan)?;
    let held = held.as_slice();
    let partners = opposites(alloc, book.waiting.as_slice(), branch)?;
    let partners = partners.as_slice();
    match &branch.send {
        Some(words) => {
            let fired = sends(
                alloc,
                book,
                talk,
                number,
                branch.chan,
                words,
                held,
                partners,
            )?;
            Ok(Some(fired))
        }
        None => {
            let full = held.len() == capacity;
            receives(alloc, book, talk, number, branch.chan, full, held, partners)
        }
    }
}

/// A branch goes with its partner, or with the buffer.
fn goes_with(
    alloc: Global,
    book: Book,
    talk: TalkName,
    pair: &Pair,
) -> Result<Option<Fired>, NoMemory>
    ensures { IfOk result (λ fired. fired ≡ goes_with same_talker book talk pair.now.number pair.now.branch pair.now.partner) }
{
    let chan = pair.branch.chan;
    match (&pair.partner, &pair.branch.send) {
        (Some(offer), Some(words)) => {
            let fired = sends_to(alloc, book, talk, pair.number, chan, words, offer)?;
            Ok(Some(fired))
        }
        (Some(offer), None) => {
            let fired = receives_from(alloc, book, talk, pair.number, chan, offer)?;
            Ok(Some(fired))
        }
        (None, _) => by_buffer(alloc, book, talk, pair.number, &pair.branch),
    }
}

/// What a talk with these branches does where pair number `pick` goes; none where there is no such pair.
pub fn fires(
    alloc: Global,
    book: Book,
    talk: TalkName,
    branches: &[Branch],
    pick: u16,
) -> Result<Option<Fired>, NoMemory>
    requires { length branches.now < 2 ^ 32 }
    ensures { IfOk result (λ fired. fired ≡ fires same_talker book talk branches.now pick) }
{
    let pairs = book.ready(alloc, branches)?;
    match pairs.get(pick as usize) {
        Some(pair) => goes_with(alloc, book, talk, pair),
        None => Ok(None),
    }
}
