// Which picks an action has.

ghost use Rattle.std.specs.Prelude.{◌≡◌, ◌<◌, ◌^◌, length, IfOk};
ghost use Rattle.al_event.specs.declared.act.Act.TheVariants.{Talk};
ghost use Rattle.al_script.specs.Worlds.{branches_in, picks_with};

use al_base::NoMemory;
use al_event::{Act, Branch};
use al_script_book::Book;
use std::alloc::Global;

/// How many picks a talk has.
fn picks_of_talk(alloc: Global, book: &Book, branches: &[Branch]) -> Result<usize, NoMemory>
    requires { length branches.now < 2 ^ 32 }
    ensures { IfOk result (λ count. count ≡ picks_with book.now (Talk branches.now)) }
{
    if book.has_bad(branches) {
        return Ok(1);
    }
    let pairs = book.ready(alloc, branches)?;
    match pairs.as_slice() {
        [] => Ok(1),
        [_, _rest @ ..] => Ok(pairs.len()),
    }
}

/// How many picks an action has: as many as there are pairs where it is a talk that neither traps nor blocks, and else one. An
/// action is done exactly where its pick is below.
pub fn picks(alloc: Global, book: &Book, act: &Act) -> Result<usize, NoMemory>
    requires { branches_in act.now < 2 ^ 32 }
    ensures { IfOk result (λ count. count ≡ picks_with book.now act.now) }
{
    match act {
        Act::Talk { branches } => picks_of_talk(alloc, book, branches.as_slice()),
        _ => Ok(1),
    }
}
