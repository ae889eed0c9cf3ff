//! The values of cases.
ghost use Rattle.std.specs.Prelude.{◌≡◌, [], OnOk};
ghost use Rattle.al_statements.specs.Rules.{is_among};
ghost use Rattle.al_statements.specs.Cases.{with_value};

use al_base::NoMemory;
use indexmap::IndexSet;
use std::alloc::Global;
use std::marker::Model;

/// Values of cases. Contracts see their list, each once, in text order.
#[derive(Drop)]
pub struct Values {
    set: IndexSet<u64>,
}

impl Model for Values {
    ghost use Rattle.std.specs.Prelude.{List, ℕ};

    ghost Value = { List ℕ };

    ghost view = { λ v. v.set.keys };
}

impl Values {
    /// None.
    pub(crate) fn new(alloc: Global) -> Values
        ensures { result ≡ [] }
    {
        Values {
            set: IndexSet::new(alloc),
        }
    }

    /// One more, unless it is there.
    pub(crate) fn push(&mut self, bits: u64) -> Result<(), NoMemory>
        ensures { OnOk result (self.new ≡ with_value self.old bits) }
    {
        self.set.insert(bits)?;
        Ok(())
    }

    /// Whether it is among them.
    pub fn contains(&self, bits: u64) -> bool
        ensures { result ≡ is_among self.now bits }
    {
        self.set.contains(&bits)
    }
}
