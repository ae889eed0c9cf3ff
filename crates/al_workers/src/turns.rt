//! What a worker does in one turn of the lock.

ghost use Rattle.std.specs.Prelude.{◌≡◌, None, IfOk, OnOk, OnErr};
ghost use Rattle.store_lock.specs.Passes.{pass_number, own, loan, KnowsSame};
ghost use Rattle.al_core.specs.Lends.{IfHeld, UnlessHeld, MatchAfter};
ghost use Rattle.al_workers.specs.Working.{IsWorkersPass, HasTaken, IsLentTo, IsAskedOf, AddsOne};

use al_base::NoMemory;
use al_core::{After, Next, World};
use rv_exec::{Asked, Held};
use std::sync::Wait;
use store_lock::{Pass, StoreLock, Turn};

/// Takes the turn. The world is the one that the pass has seen, later on, and lends to its worker what the pass knows.
fn take<R: Wait>(rt: &R, lock: &StoreLock<World>, pass: &mut Pass) -> Turn<World>
    requires { IsWorkersPass lock.now (pass_number pass.old) pass.old }
    ensures taken { HasTaken lock.now pass.new result }
    ensures same { KnowsSame pass.old pass.new }
{
    lock.turn(rt, pass)
}

/// Lends the first ready task of a proc to a worker that holds nothing.
pub fn pick<R: Wait>(rt: &R, lock: &StoreLock<World>, pass: &mut Pass) -> Next
    requires pass { IsWorkersPass lock.now (pass_number pass.old) pass.old }
    requires idle { loan pass.old ≡ None }
    ensures pass { IsWorkersPass lock.now (pass_number pass.old) pass.new }
    ensures own { own pass.new ≡ own pass.old }
    ensures held { IfHeld result (IsLentTo lock.now pass.new) }
    ensures idle { UnlessHeld result (loan pass.new ≡ None) }
{
    let turn = take(rt, lock, pass);
    pick_in_turn(lock, turn, pass)
}

fn pick_in_turn(lock: &StoreLock<World>, mut turn: Turn<World>, pass: &mut Pass) -> Next
    requires taken { HasTaken lock.now pass.old turn }
    requires idle { loan pass.old ≡ None }
    ensures pass { IsWorkersPass lock.now (pass_number pass.old) pass.new }
    ensures own { own pass.new ≡ own pass.old }
    ensures held { IfHeld result (IsLentTo lock.now pass.new) }
    ensures idle { UnlessHeld result (loan pass.new ≡ None) }
{
    let next = turn.get_mut().pick(pass.number());
    lock.free(turn, pass);
    next
}

/// Does the action that a task asked which was lent to the worker. Where there is no memory nothing has changed.
pub fn perform<R: Wait>(
    rt: &R,
    lock: &StoreLock<World>,
    pass: &mut Pass,
    asked: Asked,
) -> Result<After, NoMemory>
    requires pass { IsWorkersPass lock.now (pass_number pass.old) pass.old }
    requires asked { IsAskedOf lock.now pass.old asked }
    ensures pass { IsWorkersPass lock.now (pass_number pass.old) pass.new }
    ensures own { OnOk result (AddsOne asked.held.proc (pass_number pass.old) (own pass.old) (own pass.new)) }
    ensures after { IfOk result (λ after. MatchAfter after (IsLentTo lock.now pass.new) (loan pass.new ≡ None) (loan pass.new ≡ None)) }
    ensures same { OnErr result (own pass.new ≡ own pass.old) }
{
    let turn = take(rt, lock, pass);
    perform_in_turn(lock, turn, pass, asked)
}

fn perform_in_turn(
    lock: &StoreLock<World>,
    mut turn: Turn<World>,
    pass: &mut Pass,
    asked: Asked,
) -> Result<After, NoMemory>
    requires taken { HasTaken lock.now pass.old turn }
    requires asked { IsAskedOf lock.now pass.old asked }
    ensures pass { IsWorkersPass lock.now (pass_number pass.old) pass.new }
    ensures own { OnOk result (AddsOne asked.held.proc (pass_number pass.old) (own pass.old) (own pass.new)) }
    ensures after { IfOk result (λ after. MatchAfter after (IsLentTo lock.now pass.new) (loan pass.new ≡ None) (loan pass.new ≡ None)) }
    ensures same { OnErr result (own pass.new ≡ own pass.old) }
{
    let answer = turn.get_mut().perform(pass.number(), asked);
    lock.free(turn, pass);
    match answer {
        Ok(after) => Ok(after),
        Err((_, no_memory)) => Err(no_memory),
    }
}

/// Takes back what was lent to the worker.
pub fn put_back<R: Wait>(rt: &R, lock: &StoreLock<World>, pass: &mut Pass, held: Held)
    requires pass { IsWorkersPass lock.now (pass_number pass.old) pass.old }
    requires lent { IsLentTo lock.now pass.old held }
    ensures pass { IsWorkersPass lock.now (pass_number pass.old) pass.new }
    ensures own { own pass.new ≡ own pass.old }
    ensures idle { loan pass.new ≡ None }
{
    let turn = take(rt, lock, pass);
    put_back_in_turn(lock, turn, pass, held)
}

fn put_back_in_turn(lock: &StoreLock<World>, mut turn: Turn<World>, pass: &mut Pass, held: Held)
    requires taken { HasTaken lock.now pass.old turn }
    requires lent { IsLentTo lock.now pass.old held }
    ensures pass { IsWorkersPass lock.now (pass_number pass.old) pass.new }
    ensures own { own pass.new ≡ own pass.old }
    ensures idle { loan pass.new ≡ None }
{
    turn.get_mut().put_back(pass.number(), held);
    lock.free(turn, pass);
}
