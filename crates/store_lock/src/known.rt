// What a pass knows. It exists in proofs alone: no value of these types is ever made.
use al_event::{Entry, Loan};
use std::collections::LinkedList;
use std::marker::Model;

// A value of some type, which is not named.
pub struct Memo {
    number: u64,
}

impl Model for Memo {
    ghost use base.Stored.{Gv, gnum};
    ghost use Rattle.atomic_table.specs.Seated.{itself};

    ghost Value = { Gv };

    ghost coded = { itself };

    ghost view = { λ m. gnum m.number };
}

// What is known of one worker: the value that the lock was made with, the entries that the worker made since, and
// what is lent to it.
pub struct Share {
    pub number: u8,
    pub origin: Memo,
    pub own: LinkedList<Entry>,
    pub loan: Option<Loan>,
}

// What a seat knows: the shares of its workers, the longest history that was seen and, while the turn is held, the
// value that was taken.
pub struct View {
    pub shares: LinkedList<Share>,
    pub seen: LinkedList<Entry>,
    pub taken: Option<Memo>,
}
