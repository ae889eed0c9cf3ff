//! One worker, on the caller's thread.

ghost use Rattle.std.specs.Prelude.{◌≡◌, ◌≢◌, ◌⊎◌, ◌+◌, ◌<◌, ◌≤◌, ℕ, None, IsSome, IfOk, OnOk, length};
ghost use Rattle.al_core.specs.History.{over_of, loan_of, away};
ghost use Rattle.al_core.specs.Lends.{IsLent, MatchAfter};
ghost use Rattle.al_rounds.specs.Later.{IsLater};

use crate::gate::Gate;
use al_base::NoMemory;
use al_core::{After, Next, World};
use rv_exec::Held;
use std::alloc::Global;

/// The one worker.
const WORKER: u8 = 0;

/// After so many entries in a row a proc gives others their turn.
const MOST_IN_A_ROW: u32 = 64;

/// Runs a world on, on this thread as worker 0, until it is over or has as many entries as it may have by now. The worker has
/// made so many entries in this round, which the gate is told. A world that lacked memory may be looked at, and not run on.
pub fn go_alone<G: Gate>(
    alloc: Global,
    gate: &G,
    world: &mut World,
    made: u64,
) -> Result<(), NoMemory>
    requires { away world.old ≡ 0 }
    ensures later { IsLater 0 world.old world.new }
    ensures done { OnOk result (IsSome (over_of world.new) ⊎ (length world.new.entries ≡ world.new.quota)) }
    ensures here { OnOk result (away world.new ≡ 0) }
{
    let mut made = made;
    loop {
        let _entries = world.entries().len();
        let held = match world.pick(WORKER) {
            Next::Held(held) => held,
            Next::Full | Next::Over => return Ok(()),
            Next::Others => unreachable!(),
        };
        made = go_on(alloc, gate, world, held, made)?;
    }
}

/// Runs a proc that was lent, for some entries in a row. It gives how many entries the worker has made by then.
fn go_on<G: Gate>(
    alloc: Global,
    gate: &G,
    world: &mut World,
    held: Held,
    made: u64,
) -> Result<u64, NoMemory>
    requires lent { IsLent world.old 0 held }
    requires live { over_of world.old ≡ None }
    ensures later { IsLater 0 world.old world.new }
    ensures others { (k : ℕ) → k ≢ 0 → loan_of world.new k ≡ loan_of world.old k }
    ensures some { OnOk result (length world.old.entries < length world.new.entries) }
    ensures idle { OnOk result (loan_of world.new 0 ≡ None) }
{
    let mut held = held;
    let mut made = made;
    for _ in 0..MOST_IN_A_ROW {
        let after = turn(alloc, gate, world, held, made)?;
        made = made.saturating_add(1);
        held = match after {
            After::Held(next) => next,
            After::Idle | After::Over => return Ok(made),
        };
    }
    world.put_back(WORKER, held);
    Ok(made)
}

/// Runs what was lent to its next action, and does that.
fn turn<G: Gate>(
    alloc: Global,
    gate: &G,
    world: &mut World,
    held: Held,
    made: u64,
) -> Result<After, NoMemory>
    requires lent { IsLent world.old 0 held }
    requires live { over_of world.old ≡ None }
    ensures later { IsLater 0 world.old world.new }
    ensures others { (k : ℕ) → k ≢ 0 → loan_of world.new k ≡ loan_of world.old k }
    ensures one { OnOk result (length world.new.entries ≡ length world.old.entries + 1) }
    ensures after { IfOk result (λ after. MatchAfter after (λ held. IsLent world.new 0 held × (over_of world.new ≡ None)) (loan_of world.new 0 ≡ None) (loan_of world.new 0 ≡ None)) }
{
    match gate.stretch(alloc, world.image(), WORKER, made, held) {
        Ok(asked) => match world.perform(WORKER, asked) {
            Ok(after) => Ok(after),
            Err((_, no_memory)) => Err(no_memory),
        },
        Err((held, no_memory)) => {
            world.put_back(WORKER, held);
            Err(no_memory)
        }
    }
}
