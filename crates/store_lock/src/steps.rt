// What each atomic step tells the worker that makes it. The load of the word tells nothing and has no type here.
use crate::kept::Kept;
use crate::known::View;
use atomic_table::{Join, Play, Split};
use std::marker::PhantomData;

// A compare-exchange from an even word to the odd one above it: a grab where it goes, a miss where it does not.
pub struct Grab<V> {
    of: PhantomData<V>,
}

impl<V: Kept> Play<Option<V>, View> for Grab<V> {
    ghost use Rattle.store_lock.specs.Steps.{GrabsOrMisses};

    ghost then = { GrabsOrMisses V.memo V.entries V.fixed V.lent };
}

// The store of twice the new count.
pub struct Free<V> {
    of: PhantomData<V>,
}

impl<V: Kept> Play<Option<V>, View> for Free<V> {
    ghost use Rattle.store_lock.specs.Steps.{GivesBack};

    ghost then = { GivesBack V.entries V.lent };
}

// A seat is split: the new one gets the first share.
pub struct Deal;

impl Split<View> for Deal {
    ghost use Rattle.store_lock.specs.Steps.{without_first, first_alone};

    ghost left = { without_first };

    ghost right = { first_alone };
}

// Two seats are joined: one gets the other's shares, before its own.
pub struct Gather;

impl Join<View> for Gather {
    ghost use Rattle.store_lock.specs.Steps.{gathered};
    ghost use Rattle.store_lock.specs.Rule.{spent};

    ghost both = { gathered };

    ghost spent = { spent };
}
