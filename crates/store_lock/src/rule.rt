// What holds of the lock's table between any two atomic steps.
use crate::kept::Kept;
use crate::known::View;
use atomic_table::TableRule;
use std::marker::PhantomData;
use std::snapshot::Snapshot;

// What is settled when the lock is made.
pub struct Terms<V> {
    pub origin: Snapshot<V>,
    pub seats: u8,
}

pub struct Turns<V> {
    of: PhantomData<V>,
}

impl<V: Kept> TableRule<Option<V>, View, Terms<V>> for Turns<V> {
    ghost use Rattle.store_lock.specs.Rule.{Rule, opening_view};

    ghost holds = { λ k. Rule V.memo V.entries V.fixed V.lent k.origin.value k.seats };

    ghost first = { λ k. opening_view (V.memo k.origin.value) (V.entries k.origin.value) k.seats };
}

impl<V> Drop for Terms<V> {
    fn drop(self) {
        let Self {
            origin: _,
            seats: _,
        } = self;
    }
}
