// A value with a history, which lends to its workers.
ghost use Rattle.std.specs.Prelude.{◌≡◌, ◌<◌, ◌++◌, ◌∷◌, [], None, Some, OnOk, OnErr, slice_index_or, slice_set, take};

use al_base::NoMemory;
use al_event::{Entry, Loan};
use std::alloc::Global;
use std::marker::Model;
use store_lock::Kept;

/// A history, a number that stays, and what is lent to each of 64 workers.
#[derive(Drop)]
pub struct Desk {
    label: u32,
    entries: Vec<Entry>,
    loans: [Option<Loan>; 64],
}

impl Model for Desk {
    ghost use Rattle.std.specs.Prelude.{◌≡◌, length};
    ghost use Rattle.lock_trial.specs.DeskValue.{DeskValue};

    ghost Value = { DeskValue };

    ghost view = { λ d. record { label = d.label; entries = d.entries.items; loans = d.loans } };

    ghost invariant = { λ d. length d.loans ≡ 64 };
}

impl Kept for Desk {
    type Fixed = u32;

    ghost use Rattle.lock_trial.specs.DeskValue.{desk_entries, desk_label, desk_lent};
    ghost use Rattle.lock_trial.specs.DeskMemo.{desk_memo, desk_memo_tells};

    ghost entries = { desk_entries };

    ghost fixed = { desk_label };

    ghost lent = { desk_lent };

    ghost memo = { desk_memo };

    ghost memo_tells = { desk_memo_tells };

    fn count(&self) -> u64 {
        self.entries.len() as u64
    }
}

impl Desk {
    ghost use Rattle.std.specs.Prelude.{ℕ};
    ghost use Rattle.lock_trial.specs.DeskValue.{desk_entries, desk_label, desk_lent, entry};

    pub fn new(alloc: Global, label: u32) -> Desk
        ensures label { desk_label result ≡ label }
        ensures empty { desk_entries result ≡ [] }
        ensures unlent { (k : ℕ) → desk_lent result k ≡ None }
    {
        Desk {
            label,
            entries: Vec::new(alloc),
            loans: [None; 64],
        }
    }

    pub fn label(&self) -> u32
        ensures { result ≡ desk_label self.now }
    {
        self.label
    }

    pub fn entries(&self) -> &[Entry]
        ensures { result.now ≡ desk_entries self.now }
    {
        self.entries.as_slice()
    }

    /// Adds an entry in the name of a worker.
    pub fn add(&mut self, proc: u32, worker: u8) -> Result<(), NoMemory>
        ensures ok { OnOk result (self.new ≡ record self.old { entries = self.old.entries ++ entry proc worker ∷ [] }) }
        ensures err { OnErr result (self.new ≡ self.old) }
    {
        let entry = Entry {
            proc,
            pick: 0,
            worker,
        };
        self.entries.push(entry).map_err(|_| NoMemory)
    }

    /// Lends to a worker.
    pub fn lend(&mut self, proc: u32, worker: u8) -> Loan
        requires { worker < 64 }
        ensures lends { self.new ≡ record self.old { loans = slice_set self.old.loans worker (Some result) } }
        ensures lent { desk_lent self.new worker ≡ Some result }
        ensures proc { result.proc ≡ proc }
    {
        let loan = Loan {
            proc,
            since: self.entries.len() as u64,
        };
        self.loans[usize::from(worker)] = Some(loan);
        loan
    }

    /// Takes back what was lent to a worker, and adds an entry in its name.
    pub fn settle(&mut self, loan: Loan, worker: u8) -> Result<(), NoMemory>
        requires small { worker < 64 }
        requires lent { desk_lent self.old worker ≡ Some loan }
        ensures ok { OnOk result (self.new ≡ record self.old { entries = self.old.entries ++ entry loan.proc worker ∷ []; loans = slice_set self.old.loans worker None }) }
        ensures err { OnErr result (self.new ≡ self.old) }
    {
        self.add(loan.proc, worker)?;
        self.loans[usize::from(worker)] = None;
        Ok(())
    }

    /// Forgets all entries but the first `count`.
    pub fn go_back(&mut self, count: usize)
        ensures { self.new ≡ record self.old { entries = take count self.old.entries } }
    {
        self.entries.truncate(count);
    }
}
