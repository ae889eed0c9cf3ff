//! A worker: it picks a proc, runs it outside the lock, does what it asks, and so on.

ghost use Rattle.std.specs.Prelude.{◌≡◌, None, IfOk, OnOk};
ghost use Rattle.store_lock.specs.Locks.{lock_origin};
ghost use Rattle.store_lock.specs.Passes.{pass_number, own, loan};
ghost use Rattle.al_core.specs.Lends.{IfHeld, UnlessHeld, MatchAfter};
ghost use Rattle.al_workers.specs.Working.{IsWorkersPass, IsLentTo};
ghost use Rattle.al_workers.specs.Crew.{IsReady, Works};

use crate::crew::Worker;
use crate::rest::{Rest, woken_by};
use crate::turns::{perform, pick, put_back};
use al_base::NoMemory;
use al_core::{After, Next, World};
use al_rounds::Gate;
use rv_exec::Held;
use rv_isa::image::Image;
use std::alloc::Global;
use std::sync::Wait;
use store_lock::{Pass, StoreLock};

/// After so many entries in a row a worker picks anew.
const MOST_IN_A_ROW: u32 = 64;

/// A worker's part of a round, to its end: the world is over or full, or memory lacked. It calls all that sleep, since the
/// end of one may be that of others.
pub fn work<R: Wait, G: Gate>(
    rt: &R,
    alloc: Global,
    lock: &StoreLock<World>,
    image: &Image,
    gate: &G,
    rest: &Rest,
    worker: &mut Worker,
)
    requires ready { IsReady lock.now worker.old }
    requires image { image.now ≡ (lock_origin lock.now).image }
    ensures { Works lock.now worker.old worker.new }
{
    match work_on(rt, alloc, lock, image, gate, rest, worker) {
        Ok(()) => {}
        Err(no_memory) => {
            worker.lack = Some(no_memory);
            rest.stop();
        }
    }
    rest.call_all();
}

/// The worker goes on until the world is over or full.
fn work_on<R: Wait, G: Gate>(
    rt: &R,
    alloc: Global,
    lock: &StoreLock<World>,
    image: &Image,
    gate: &G,
    rest: &Rest,
    worker: &mut Worker,
) -> Result<(), NoMemory>
    requires ready { IsReady lock.now worker.old }
    requires image { image.now ≡ (lock_origin lock.now).image }
    ensures pass { IsWorkersPass lock.now (pass_number worker.old.pass) worker.new.pass }
    ensures idle { OnOk result (loan worker.new.pass ≡ None) }
    ensures lack { worker.new.lack ≡ None }
{
    for _ in rt.forever() {
        if rest.is_stopped() {
            return Err(NoMemory);
        }
        match next(rt, lock, rest, &mut worker.pass) {
            Next::Held(held) => go_on(rt, alloc, lock, image, gate, rest, worker, held)?,
            Next::Others => {}
            Next::Full | Next::Over => return Ok(()),
        }
    }
    unreachable!()
}

/// Picks. Where each proc with a ready task is away the worker sleeps until it is called, and picks no more.
fn next<R: Wait>(rt: &R, lock: &StoreLock<World>, rest: &Rest, pass: &mut Pass) -> Next
    requires pass { IsWorkersPass lock.now (pass_number pass.old) pass.old }
    requires idle { loan pass.old ≡ None }
    ensures pass { IsWorkersPass lock.now (pass_number pass.old) pass.new }
    ensures held { IfHeld result (IsLentTo lock.now pass.new) }
    ensures idle { UnlessHeld result (loan pass.new ≡ None) }
{
    match pick(rt, lock, pass) {
        Next::Others => {}
        next => return next,
    }
    let seen = rest.enter();
    let next = pick(rt, lock, pass);
    if matches!(next, Next::Others) && !rest.is_stopped() {
        rest.sleep(rt, seen);
    }
    rest.leave();
    next
}

/// Runs what was lent to the worker, for some entries in a row.
fn go_on<R: Wait, G: Gate>(
    rt: &R,
    alloc: Global,
    lock: &StoreLock<World>,
    image: &Image,
    gate: &G,
    rest: &Rest,
    worker: &mut Worker,
    held: Held,
) -> Result<(), NoMemory>
    requires pass { IsWorkersPass lock.now (pass_number worker.old.pass) worker.old.pass }
    requires lent { IsLentTo lock.now worker.old.pass held }
    requires image { image.now ≡ (lock_origin lock.now).image }
    ensures pass { IsWorkersPass lock.now (pass_number worker.old.pass) worker.new.pass }
    ensures idle { OnOk result (loan worker.new.pass ≡ None) }
    ensures lack { worker.new.lack ≡ worker.old.lack }
{
    let mut held = held;
    for _ in 0..MOST_IN_A_ROW {
        held = match run(rt, alloc, lock, image, gate, rest, worker, held)? {
            After::Held(next) => next,
            After::Idle | After::Over => return Ok(()),
        };
    }
    put_back(rt, lock, &mut worker.pass, held);
    Ok(())
}

/// Runs what was lent to the worker up to its next action, outside the lock, and does that in a turn.
fn run<R: Wait, G: Gate>(
    rt: &R,
    alloc: Global,
    lock: &StoreLock<World>,
    image: &Image,
    gate: &G,
    rest: &Rest,
    worker: &mut Worker,
    held: Held,
) -> Result<After, NoMemory>
    requires pass { IsWorkersPass lock.now (pass_number worker.old.pass) worker.old.pass }
    requires lent { IsLentTo lock.now worker.old.pass held }
    requires image { image.now ≡ (lock_origin lock.now).image }
    ensures pass { IsWorkersPass lock.now (pass_number worker.old.pass) worker.new.pass }
    ensures after { IfOk result (λ after. MatchAfter after (IsLentTo lock.now worker.new.pass) (loan worker.new.pass ≡ None) (loan worker.new.pass ≡ None)) }
    ensures lack { worker.new.lack ≡ worker.old.lack }
{
    match gate.stretch(alloc, image, worker.pass.number(), worker.made, held) {
        Ok(asked) => {
            let woken = woken_by(&asked.act);
            let after = perform(rt, lock, &mut worker.pass, asked)?;
            worker.made = worker.made.saturating_add(1);
            rest.call_for(woken);
            Ok(after)
        }
        Err((later, no_memory)) => {
            put_back(rt, lock, &mut worker.pass, later);
            Err(no_memory)
        }
    }
}
