// The lock and its calls.
ghost use Rattle.std.specs.Prelude.{◌≡◌, ◌≢◌, ℕ, ◌+◌, ◌%◌, ◌<◌, ◌≤◌, None, Some, [], ◌∷◌, ◌++◌};

use crate::kept::Kept;
use crate::known::View;
use crate::pass::Pass;
use crate::rule::{Terms, Turns};
use crate::steps::{Deal, Free, Gather, Grab};
use crate::turn::Turn;
use al_base::NoMemory;
use atomic_table::{Badge, Refused, Seat, Table};
use std::alloc::{AllocFailed, Global};
use std::mem;
use std::snapshot::Snapshot;
use std::sync::Wait;

/// A lock round a value that carries its own history.
pub struct StoreLock<V: Kept> {
    table: Table<Option<V>, View, Terms<V>, Turns<V>, Global>,
    ghost words: { table.shared.table_id.words ≡ 1 },
    ghost slots: { table.shared.table_id.slots ≡ 1 },
    ghost some: { 0 < table.shared.key.seats },
    ghost few: { table.shared.key.seats ≤ 64 },
}

impl<V: Kept> StoreLock<V> {
    ghost use Rattle.std.specs.Prelude.{◌≡◌, ℕ, ◌<◌, ◌≤◌, List, [], None, map, IfOk, IfErr, vec_capacity};
    ghost use Rattle.store_lock.specs.Rule.{opening_view, CoversAll};
    ghost use Rattle.store_lock.specs.Steps.{Takes};
    ghost use Rattle.store_lock.specs.Locks.{lock_id, lock_origin, lock_seats};
    ghost use Rattle.store_lock.specs.Passes.{turn_was, turn_value, share_of, pass_number, HoldsTurn, IsAtRest, KnowsSame, IsPassOf, AreAllAtRest, AreNew, IsTurnOf, Finds, MayFollow, Closes, Frees};
    ghost use Rattle.store_lock.specs.Ends.{IsReady, Ends};

    /// A lock round the value, and its passes, which have the numbers from 0 on. On an error the value comes back.
    pub fn make(
        alloc: Global,
        value: V,
        seats: u8,
    ) -> Result<(StoreLock<V>, Vec<Pass>), (V, NoMemory)>
        requires some { 0 < seats }
        requires few { seats ≤ 64 }
        requires unlent { (m : ℕ) → V.lent value m ≡ None }
        ensures origin { IfOk result (λ r. lock_origin r.0 ≡ value) }
        ensures seats { IfOk result (λ r. lock_seats r.0 ≡ seats) }
        ensures passes { IfOk result (λ r. AreNew V.memo V.entries r.0 r.1.items) }
        ensures err { IfErr result (λ e. e.0 ≡ value) }
    {
        let Ok(mut passes) = Vec::with_capacity(alloc, usize::from(seats)) else {
            return Err((value, NoMemory));
        };
        let (lock, seat) = StoreLock::open(alloc, value, seats)?;
        lock.deal(seat, &mut passes, seats);
        Ok((lock, passes))
    }

    // The lock, and one seat with the shares of all workers.
    fn open(
        alloc: Global,
        value: V,
        seats: u8,
    ) -> Result<(StoreLock<V>, Seat<Option<V>, View>), (V, NoMemory)>
        requires some { 0 < seats }
        requires few { seats ≤ 64 }
        requires unlent { (m : ℕ) → V.lent value m ≡ None }
        ensures origin { IfOk result (λ r. lock_origin r.0 ≡ value) }
        ensures seats { IfOk result (λ r. lock_seats r.0 ≡ seats) }
        ensures seat { IfOk result (λ r. (r.1.table_id ≡ lock_id r.0) × (r.1.me ≡ (opening_view (V.memo value) (V.entries value) seats, []))) }
        ensures err { IfErr result (λ e. e.0 ≡ value) }
    {
        let count = value.count();
        let terms = Terms {
            origin: Snapshot::of(&value),
            seats,
        };
        let mut slots = Vec::new(alloc);
        if let Err(AllocFailed { value: slot }) = slots.push(Some(value)) {
            slots.destroy_empty();
            let Some(value) = slot else { unreachable!() };
            return Err((value, NoMemory));
        }
        match Table::new(alloc, &[count + count], slots, &terms) {
            Ok((table, seat)) => Ok((StoreLock { table }, seat)),
            Err(Refused { mut slots }) => {
                let slot = slots.pop();
                slots.destroy_empty();
                let Some(Some(value)) = slot else {
                    unreachable!()
                };
                Err((value, NoMemory))
            }
        }
    }

    // Splits off a seat for each pass.
    fn deal(&self, mut seat: Seat<Option<V>, View>, passes: &mut Vec<Pass>, seats: u8)
        requires seats { seats ≡ lock_seats self.now }
        requires room { (seats ≤ vec_capacity passes.old) × (passes.old.items ≡ []) }
        requires seat { (seat.table_id ≡ lock_id self.now) × (seat.me ≡ (opening_view (V.memo (lock_origin self.now)) (V.entries (lock_origin self.now)) seats, [])) }
        ensures { AreNew V.memo V.entries self.now passes.new.items }
    {
        let mut number = 0;
        while number < seats - 1 {
            let other = self.table.shared.split_seat::<Deal>(&mut seat);
            passes.push_reserved(Pass::new(number, other.into_badge()));
            number += 1;
        }
        passes.push_reserved(Pass::new(number, seat.into_badge()));
    }

    /// Takes the value out. It takes no memory.
    pub fn close(self, passes: Vec<Pass>) -> V
        requires { AreAllAtRest V.memo self passes.items }
        ensures { Closes V.entries V.fixed V.lent self passes.items result }
    {
        let seat = self.gather(passes);
        self.end(seat)
    }

    // Joins the seats of all passes.
    fn gather(&self, mut passes: Vec<Pass>) -> Seat<Option<V>, View>
        requires { AreAllAtRest V.memo self.now passes.items }
        ensures table { result.table_id ≡ lock_id self.now }
        ensures view { (result.me.0.taken ≡ None) × (result.me.0.shares ≡ map share_of passes.items) }
    {
        let Some(last) = passes.pop() else {
            unreachable!()
        };
        let mut seat = last.into_badge().into_seat::<Option<V>>();
        while let Some(pass) = passes.pop() {
            let other = pass.into_badge().into_seat::<Option<V>>();
            self.table.shared.join_seat::<Gather>(&mut seat, other);
        }
        seat
    }

    // The seat has the shares of all workers, so nobody holds the turn and the value is at home.
    fn end(self, seat: Seat<Option<V>, View>) -> V
        requires table { seat.table_id ≡ lock_id self }
        requires view { (seat.me.0.taken ≡ None) × CoversAll (lock_seats self) seat.me.0.shares }
        ensures { Ends V.memo V.entries V.fixed V.lent (lock_origin self) (lock_seats self) result seat.me.0.shares }
    {
        let StoreLock { table } = self;
        let mut closed = table.close_with(seat);
        let slot = closed.take(0);
        closed.free();
        let Some(value) = slot else { unreachable!() };
        value
    }

    /// Takes the turn, with the value. It waits while another worker holds the turn.
    pub fn turn<R: Wait>(&self, rt: &R, pass: &mut Pass) -> Turn<V>
        requires pass { IsPassOf V.memo self.now pass.old }
        requires rests { IsAtRest pass.old }
        ensures pass { IsPassOf V.memo self.now pass.new }
        ensures holds { HoldsTurn pass.new }
        ensures same { KnowsSame pass.old pass.new }
        ensures turn { IsTurnOf V.memo V.entries self.now pass.new result }
        ensures was { turn_was result ≡ turn_value result }
        ensures finds { Finds V.entries V.fixed V.lent (lock_origin self.now) pass.old (turn_value result) }
    {
        let badge = mem::replace(&mut pass.badge, Badge::blank());
        let mut seat = badge.into_seat::<Option<V>>();
        self.wait_for(rt, &mut seat);
        let Some(value) = self.table.shared.exchange(&mut seat, 0, None) else {
            unreachable!()
        };
        let was = Snapshot::of(&value);
        Turn { seat, value, was }
    }

    /// Gives the turn up, and wakes one worker that waits for it. It takes no memory.
    pub fn free(&self, turn: Turn<V>, pass: &mut Pass)
        requires pass { IsPassOf V.memo self.now pass.old }
        requires holds { HoldsTurn pass.old }
        requires turn { IsTurnOf V.memo V.entries self.now pass.old turn }
        requires value { MayFollow V.entries V.fixed V.lent (pass_number pass.old) (turn_was turn) (turn_value turn) }
        ensures { Frees V.memo V.entries V.lent self.now turn pass.old pass.new }
    {
        let Turn {
            mut seat,
            value,
            was: _,
        } = turn;
        let count = value.count();
        let nothing = self.table.shared.exchange(&mut seat, 0, Some(value));
        let None = nothing else { unreachable!() };
        self.table
            .shared
            .store::<Free<V>>(&mut seat, 0, count + count);
        *pass = Pass::new(pass.number, seat.into_badge());
        self.table.shared.wake_one(0);
    }

    // Tries to grab the turn wherever the word is even, and else sleeps until it may have changed.
    fn wait_for<R: Wait>(&self, rt: &R, seat: &mut Seat<Option<V>, View>)
        requires { IsReady (lock_id self.now) seat.old }
        ensures table { seat.new.table_id ≡ seat.old.table_id }
        ensures takes { Takes V.memo V.entries V.fixed V.lent seat.old.me seat.new.me }
    {
        for _ in rt.forever() {
            let found = self.table.shared.peek(0);
            if found % 2 == 0 {
                let was = self
                    .table
                    .shared
                    .compare_exchange::<Grab<V>>(seat, 0, found, found + 1);
                if was == found {
                    return;
                }
            } else {
                self.table.shared.park(rt, 0, (found % (1 << 32)) as u32);
            }
        }
        unreachable!()
    }
}
