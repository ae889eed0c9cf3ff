// The waiting list: branches that are found, withdrawn and added.

ghost use Rattle.std.specs.Prelude.{◌≡◌, ◌++◌, ◌+◌, ◌<◌, ◌^◌, filter, not, length, IfOk, OnOk};
ghost use Rattle.al_world.specs.Channels.{Offer as TheOffer, opposites};
ghost use Rattle.al_world.specs.Talks.{withdraws, offers_from, blocks};
ghost use Rattle.al_world.specs.World.{TalkName as Name, same_talker};

use crate::book::{Book, Offer, is_opposite};
use crate::copies::copy_branch;
use crate::names::{TalkName, same_talker};
use al_base::NoMemory;
use al_event::Branch;
use al_items::Items;
use std::alloc::Global;

/// Adds the waiting branches that are opposite to a branch.
fn add_opposites(
    alloc: Global,
    found: &mut Items<Offer>,
    waiting: &[Offer],
    branch: &Branch,
) -> Result<(), NoMemory>
    ensures { OnOk result (found.new ≡ found.old ++ opposites waiting.now branch.now) }
{
    match waiting {
        [] => Ok(()),
        [offer, rest @ ..] => {
            if is_opposite(branch, &offer.branch) {
                found.push(offer.copy(alloc)?)?;
            }
            add_opposites(alloc, found, rest, branch)
        }
    }
}

/// The waiting branches that are opposite to a branch, in waiting order.
pub fn opposites(
    alloc: Global,
    waiting: &[Offer],
    branch: &Branch,
) -> Result<Items<Offer>, NoMemory>
    ensures { IfOk result (λ found. found ≡ opposites waiting.now branch.now) }
{
    let mut found = Items::new(alloc);
    add_opposites(alloc, &mut found, waiting, branch)?;
    Ok(found)
}

/// Adds the waiting branches of all other tasks.
fn add_others(
    alloc: Global,
    others: &mut Items<Offer>,
    by: TalkName,
    waiting: &[Offer],
) -> Result<(), NoMemory>
    ensures { OnOk result (others.new ≡ others.old ++ filter (λ (o : TheOffer Name). not (same_talker o.by by)) waiting.now) }
{
    match waiting {
        [] => Ok(()),
        [offer, rest @ ..] => {
            if !same_talker(offer.by, by) {
                others.push(offer.copy(alloc)?)?;
            }
            add_others(alloc, others, by, rest)
        }
    }
}

/// The book in which no branch of a task waits.
pub fn withdraws(alloc: Global, by: TalkName, book: Book) -> Result<Book, NoMemory>
    ensures { IfOk result (λ after. after ≡ withdraws same_talker by book) }
{
    let mut waiting = Items::new(alloc);
    add_others(alloc, &mut waiting, by, book.waiting.as_slice())?;
    Ok(Book {
        channels: book.channels,
        waiting,
    })
}

/// Adds the branches of a talk that blocks, numbered from `number` on.
fn add_offers(
    alloc: Global,
    waiting: &mut Items<Offer>,
    talk: TalkName,
    number: u32,
    branches: &[Branch],
) -> Result<(), NoMemory>
    requires { number + length branches.now < 2 ^ 32 }
    ensures { OnOk result (waiting.new ≡ waiting.old ++ offers_from talk number branches.now) }
{
    match branches {
        [] => Ok(()),
        [branch, rest @ ..] => {
            let branch = copy_branch(alloc, branch)?;
            waiting.push(Offer {
                by: talk,
                number,
                branch,
            })?;
            add_offers(alloc, waiting, talk, number + 1, rest)
        }
    }
}

/// A talk blocks: its branches wait, in their order, behind all others.
pub fn blocks(
    alloc: Global,
    book: Book,
    talk: TalkName,
    branches: &[Branch],
) -> Result<Book, NoMemory>
    requires { length branches.now < 2 ^ 32 }
    ensures { IfOk result (λ after. after ≡ blocks book talk branches.now) }
{
    let Book {
        channels,
        mut waiting,
    } = book;
    add_offers(alloc, &mut waiting, talk, 0, branches)?;
    Ok(Book { channels, waiting })
}
