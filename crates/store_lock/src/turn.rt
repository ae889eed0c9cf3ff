// The turn, with the value.
ghost use Rattle.std.specs.Prelude.{◌≡◌};

use crate::known::View;
use atomic_table::Seat;
use std::snapshot::Snapshot;

/// The turn, with the value of the lock. It is no `Drop`: `StoreLock::free` alone takes it.
pub struct Turn<V> {
    pub(crate) seat: Seat<Option<V>, View>,
    pub(crate) value: V,
    // The value as it was taken.
    pub(crate) was: Snapshot<V>,
}

impl<V> Turn<V> {
    ghost use Rattle.std.specs.Prelude.{◌≡◌};
    ghost use Rattle.std.specs.Borrow.{sem};
    ghost use Rattle.store_lock.specs.Passes.{turn_value};
    ghost use Rattle.store_lock.specs.Lent.{LendsValue};

    pub fn get(&self) -> &V
        ensures { result.now ≡ turn_value self.now }
    {
        &self.value
    }

    /// What is written through it is the turn's value from then on.
    pub fn get_mut(&mut self) -> &mut V
        ensures* writes_back { sem 𝓛 (LendsValue V.row self.entry result) }
        ensures value { result.now ≡ turn_value self.old }
    {
        &mut self.value
    }
}
