//! The parts of a world that an action changes.

ghost use Rattle.std.specs.Prelude.{◌≡◌, ℕ, true, false, [], length, IfSome, IfNone, Some};
ghost use Rattle.al_world.specs.Procs.{first_ready};
ghost use Rattle.task_book.specs.Table.{can_run, is_away};
ghost use Rattle.task_book.specs.Lending.{lent, without};
ghost use Rattle.task_book.specs.Sound.{IsSound};
ghost use Rattle.al_core.specs.Acting.{end_of};
ghost use Rattle.al_core.specs.Preparing.{with_table, with_home};

use al_base::Over;
use al_store::Store;
use chan_book::Book;
use rv_exec::Held;
use std::marker::Model;
use task_book::Tasks;

/// Store, channels, tasks and output.
#[derive(Drop)]
pub struct Machinery {
    pub(crate) store: Store,
    pub(crate) book: Book,
    pub(crate) tasks: Tasks,
    pub(crate) output: Vec<u8>,
}

impl Model for Machinery {
    ghost use Rattle.al_core.specs.Acting.{Machinery as Parts};

    ghost Value = { Parts };

    ghost view = { λ m. record { store = m.store; book = m.book; table = m.tasks; output = m.output.items } };
}

impl Machinery {
    /// How the world is over by its lists, if it is.
    pub fn end(&self) -> Option<Over>
        ensures { result ≡ end_of self.now.table.procs }
    {
        if self.tasks.any_ready() {
            None
        } else if self.tasks.live() == 0 {
            Some(Over::Done)
        } else {
            Some(Over::Blocked)
        }
    }

    /// How many tasks can live at one time. Each table is sound.
    pub fn most(&self) -> u32
        ensures most { result ≡ length self.now.table.tasks }
        ensures sound { IsSound self.now.table }
    {
        self.tasks.most()
    }

    /// The first ready task of a proc.
    pub fn first(&self, proc: u32) -> Option<u32>
        ensures { result ≡ first_ready self.now.table.procs proc }
    {
        self.tasks.first(proc)
    }

    /// A proc that is not away and has a ready task, by turns.
    pub fn ready_proc(&self) -> Option<u32>
        ensures some { IfSome result (λ proc. can_run self.now.table proc ≡ true) }
        ensures none { IfNone result ((proc : ℕ) → can_run self.now.table proc ≡ false) }
    {
        self.tasks.ready_proc()
    }

    /// Hands out the hart of a proc's first ready task, and the proc's private globals.
    pub fn lend(&mut self, proc: u32) -> Held
        requires { can_run self.old.table proc ≡ true }
        ensures held { lent self.old.table proc ≡ Some result }
        ensures away { self.new ≡ with_table (without proc self.old.table) self.old }
    {
        self.tasks.lend(proc)
    }

    /// Puts back what was lent.
    pub fn home(&mut self, held: Held)
        requires { is_away self.old.table held.proc ≡ true }
        ensures { self.new ≡ with_home held self.old }
    {
        self.tasks.home(held);
    }

    /// The output.
    pub fn output(&self) -> &[u8]
        ensures { result.now ≡ self.now.output }
    {
        self.output.as_slice()
    }

    /// Drops the output.
    pub fn clear_output(&mut self)
        ensures { self.new ≡ record self.old { output = [] } }
    {
        self.output.clear();
    }
}
