//! Talks.

ghost use Rattle.std.specs.Prelude.{◌≡◌, ◌≢◌, ◌<◌, ◌≤◌, ◌+◌, ◌^◌, ℕ, false, [], ◌∷◌, length, take, IfSome, IfNone, IsSomeAnd, None};
ghost use Rattle.al_event.specs.declared.act.Act.TheVariants as acts;
ghost use Rattle.rv_isa.specs.declared.image.Contents.{Contents};
ghost use Rattle.rv_exec.specs.Shown.{CanTake};
ghost use Rattle.al_world.specs.Channels.{has_bad, ready};
ghost use Rattle.task_book.specs.Table.{hart_of};
ghost use Rattle.task_book.specs.Lending.{TakesAnswer};
ghost use Rattle.al_core.specs.Acting.{Posed, IsDone};
ghost use Rattle.al_core.specs.Preparing.{Prepares, NeedsPick, IsPosed};

use crate::machinery::Machinery;
use crate::order::{Prepared, Stop};
use al_base::Trap;
use al_event::{Branch, Branches};
use alt_select::{Fired, block, fire, ready};
use task_book::Tasks;

/// The most words that an answer has: the number of a branch, and the words that it received.
const MOST_WORDS: usize = 1025;

/// The words of an answer, at the front of as many as there can be.
fn answer_of(branch: u32, got: &[u32]) -> [u32; MOST_WORDS]
    requires { length got.now < 1025 }
    ensures { take (length got.now + 1) result ≡ branch ∷ got.now }
{
    let mut words = [0; MOST_WORDS];
    words[0] = branch;
    for (k, word) in got.iter().enumerate() {
        words[k + 1] = *word;
    }
    words
}

/// Goes on with a task by the branch of its talk that went, and the words that it received.
fn answer_talk(tasks: &mut Tasks, task: u32, branch: u32, got: &[u32])
    requires few { length got.now < 1025 }
    requires hart { IsSomeAnd (hart_of tasks.old task) (λ hart. CanTake hart (branch ∷ got.now)) }
    ensures { TakesAnswer tasks.old task (branch ∷ got.now) tasks.new }
{
    let end = got.len() + 1;
    let words = answer_of(branch, got);
    tasks.answer(task, &words[..end]);
}

impl Machinery {
    /// Whether a talk may go by this pick, waits or traps. None where the pick is out of range.
    pub fn prepare_talk(&self, branches: &[Branch], pick: u16) -> Option<Prepared>
        ensures prepared { IfSome result (λ what. (image : Contents) → Prepares image (acts.Talk branches.now) pick self.now what self.now) }
        ensures range { IfNone result (NeedsPick (acts.Talk branches.now) pick self.now) }
    {
        match ready(&self.book, branches) {
            Ok(count) if u32::from(pick) < count => Some(Prepared::Goes),
            Ok(count) if count == 0 && pick == 0 => Some(Prepared::Waits),
            Err(_) if pick == 0 => Some(Prepared::Stop(Stop::Trap(Trap::Chan))),
            _ => None,
        }
    }

    /// A talk goes by the pair that was picked.
    pub fn go(&mut self, slot: u32, branches: Branches, pick: u16)
        requires posed { IsPosed (acts.Talk branches) slot self.old }
        requires usable { has_bad self.old.book.book branches ≡ false }
        requires pick { pick < length (ready self.old.book.book branches) }
        ensures { (image : Contents) (P : Posed image slot (acts.Talk branches) self.old) → IsDone image slot (acts.Talk branches) self.old P pick None self.new }
    {
        let Fired { branch, got, woke } = fire(&mut self.book, slot, branches, pick);
        answer_talk(&mut self.tasks, slot, branch, got.as_slice());
        if let Some(woke) = woke {
            answer_talk(&mut self.tasks, woke.task, woke.branch, woke.got.as_slice());
            self.tasks.wake(woke.task);
        }
    }

    /// A talk waits, and its task leaves its ready list.
    pub fn wait(&mut self, slot: u32, branches: Branches)
        requires posed { IsPosed (acts.Talk branches) slot self.old }
        requires usable { has_bad self.old.book.book branches ≡ false }
        requires none { ready self.old.book.book branches ≡ [] }
        ensures { (image : Contents) (P : Posed image slot (acts.Talk branches) self.old) → IsDone image slot (acts.Talk branches) self.old P 0 None self.new }
    {
        block(&mut self.book, slot, branches);
        self.tasks.block(slot);
    }
}
