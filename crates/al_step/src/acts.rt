//! Copies of actions, and which of them are sized.
ghost use Rattle.std.specs.Prelude.{◌≡◌, ◌↔◌, IsTrue, IfOk};
ghost use Rattle.al_store.specs.Memory.{IsWidth};
ghost use Rattle.al_script.specs.Scripts.{IsSized};

use al_base::NoMemory;
use al_event::{Act, Branch, Start};
use al_items::Items;
use al_script_book::{copy_start, copy_words};
use std::alloc::Global;

/// The same branch.
fn copy_branch(alloc: Global, branch: &Branch) -> Result<Branch, NoMemory>
    ensures { IfOk result (λ copy. copy ≡ branch.now) }
{
    let send = match &branch.send {
        Some(words) => Some(copy_words(alloc, words)?),
        None => None,
    };
    Ok(Branch {
        chan: branch.chan,
        words: branch.words,
        send,
    })
}

fn branches(alloc: Global, branches: &[Branch]) -> Result<Items<Branch>, NoMemory>
    ensures { IfOk result (λ copies. copies ≡ branches.now) }
{
    let mut copies = Items::with_capacity(alloc, branches.len())?;
    for branch in branches {
        copies.push(copy_branch(alloc, branch)?)?;
    }
    Ok(copies)
}

fn starts(alloc: Global, starts: &[Start]) -> Result<Items<Start>, NoMemory>
    ensures { IfOk result (λ copies. copies ≡ starts.now) }
{
    let mut copies = Items::with_capacity(alloc, starts.len())?;
    for start in starts {
        copies.push(copy_start(alloc, start)?)?;
    }
    Ok(copies)
}

/// The same action.
pub(crate) fn copy_act(alloc: Global, act: &Act) -> Result<Act, NoMemory>
    ensures { IfOk result (λ copy. copy ≡ act.now) }
{
    match act {
        Act::Load { at, size } => Ok(Act::Load {
            at: *at,
            size: *size,
        }),
        Act::Store { at, size, word } => Ok(Act::Store {
            at: *at,
            size: *size,
            word: *word,
        }),
        Act::Alloc { bytes, kind } => Ok(Act::Alloc {
            bytes: *bytes,
            kind: *kind,
        }),
        Act::Free { at, kind } => Ok(Act::Free {
            at: *at,
            kind: *kind,
        }),
        Act::NewChan { capacity, words } => Ok(Act::NewChan {
            capacity: *capacity,
            words: *words,
        }),
        Act::FreeChan { chan } => Ok(Act::FreeChan { chan: *chan }),
        Act::CanRecv { chan } => Ok(Act::CanRecv { chan: *chan }),
        Act::CanSend { chan } => Ok(Act::CanSend { chan: *chan }),
        Act::Talk { branches: talked } => Ok(Act::Talk {
            branches: branches(alloc, talked.as_slice())?,
        }),
        Act::Proc(start) => Ok(Act::Proc(copy_start(alloc, start)?)),
        Act::Task(start) => Ok(Act::Task(copy_start(alloc, start)?)),
        Act::Par { starts: started } => Ok(Act::Par {
            starts: starts(alloc, started.as_slice())?,
        }),
        Act::Print { text } => Ok(Act::Print {
            text: Items::from_slice(alloc, text.as_slice())?,
        }),
        Act::Terminate(status) => Ok(Act::Terminate(*status)),
        Act::Pause => Ok(Act::Pause),
        Act::Trap(trap) => Ok(Act::Trap(*trap)),
        Act::End => Ok(Act::End),
    }
}

fn is_width(size: u8) -> bool
    ensures { IsTrue result ↔ IsWidth size }
{
    size == 1 || size == 2 || size == 4
}

/// Whether an action is no access but of 1, 2 or 4 bytes, and takes no block but of 1 byte at least.
pub(crate) fn is_sized(act: &Act) -> bool
    ensures { IsTrue result ↔ IsSized act.now }
{
    match act {
        Act::Load { size, .. } => is_width(*size),
        Act::Store { size, .. } => is_width(*size),
        Act::Alloc { bytes, .. } => *bytes > 0,
        Act::Free { .. }
        | Act::NewChan { .. }
        | Act::FreeChan { .. }
        | Act::CanRecv { .. }
        | Act::CanSend { .. }
        | Act::Talk { .. }
        | Act::Proc(_)
        | Act::Task(_)
        | Act::Par { .. }
        | Act::Print { .. }
        | Act::Terminate(_)
        | Act::Pause
        | Act::Trap(_)
        | Act::End => true,
    }
}
