ghost use Rattle.std.specs.Prelude.{◌≡◌, ◌<◌, ◌≤◌, ◌^◌, false, length, nat_eq};
ghost use Rattle.al_world.specs.Channels.{has_bad, ready};
ghost use Rattle.al_world.specs.Talks.{fires, blocks};
ghost use Rattle.chan_book.specs.Book.{is_blocked};
ghost use Rattle.alt_select.specs.Answer.{IsFired};

use crate::answer::Fired;
use crate::going::go;
use crate::pairs::locate;
use al_event::Branches;
use chan_book::Book;

/// A talk of the task in a slot goes, with the pair of number `pick`. The slot tells whose transfer it is, and changes
/// nothing here.
pub fn fire(book: &mut Book, _task: u32, branches: Branches, pick: u16) -> Fired
    requires usable { has_bad book.old.book branches ≡ false }
    requires pick { pick < length (ready book.old.book branches) }
    requires few { length branches < 2 ^ 32 }
    ensures fired { IsFired (fires nat_eq book.old.book _task branches pick) book.new.book result }
    ensures room { book.new.room ≡ book.old.room }
{
    let (number, place) = locate(book, branches.as_slice(), usize::from(pick));
    let mut branches = branches.into_vec();
    let branch = branches.swap_remove(number);
    go(book, number as u32, branch, place)
}

/// A talk of the task in a slot, of which no branch can go, blocks: its branches wait behind all others.
pub fn block(book: &mut Book, task: u32, branches: Branches)
    requires room { task < book.old.room }
    requires free { is_blocked book.old.book task ≡ false }
    requires usable { has_bad book.old.book branches ≡ false }
    requires some { 0 < length branches }
    requires few { length branches ≤ 64 }
    ensures { book.new ≡ record book.old { book = blocks book.old.book task branches } }
{
    book.wait(task, branches);
}
