//! Rounds of several workers, whose entries are then made again one after the other.

ghost use Rattle.std.specs.Prelude.{◌≡◌, ◌+◌, ◌<◌, ◌≤◌, length};
ghost use Rattle.al_core.specs.History.{away};

use crate::programs::{PING_PONG, Program, RACE, STORES};
use crate::running::{first, run_by};
use al_base::{NoMemory, Over};
use al_core::World;
use al_event::Entry;
use al_rounds::OpenGate;
use std::alloc::Global;
use std::process::Abort;
use std::test::*;

/// How many entries a world of these tests may have.
const MOST: u64 = 1000;

/// Makes an entry that is permitted.
fn make(rt: &impl Abort, world: &mut World, entry: Entry)
    requires here { away world.old ≡ 0 }
    requires room { length world.old.entries < world.old.quota }
    ensures here { away world.new ≡ 0 }
    ensures room { length world.new.entries ≤ length world.old.entries + 1 }
    ensures quota { world.new.quota ≡ world.old.quota }
{
    let made = world.step(entry);
    assert_eq!(rt; made, Ok(()));
}

/// Makes these entries, one after the other.
fn go(rt: &impl Abort, world: &mut World, entries: &[Entry])
    requires here { away world.old ≡ 0 }
    requires room { length world.old.entries + length entries.now ≤ world.old.quota }
{
    for entry in entries {
        make(rt, world, *entry);
    }
}

/// The entries of a world, made again, lead to the same output and end.
fn made_again(
    rt: &impl Abort,
    alloc: Global,
    program: &Program,
    world: &World,
) -> Result<(), NoMemory> {
    let mut again = first(rt, alloc, program, MOST)?;
    let entries = world.entries();
    if entries.len() as u64 > MOST {
        panic!(rt; "too many entries");
    }
    go(rt, &mut again, entries);
    assert_eq!(rt; again.output(), world.output());
    assert_eq!(rt; again.over(), world.over());
    assert_eq!(rt; again.work(), world.work());
    Ok(())
}

/// Whatever the threads do, what a racy program wrote is what its entries lead to.
#[test]
fn races_are_as_their_entries_say(rt: HostRuntime) -> Result<(), NoMemory> {
    for (workers, rounds) in [(2, 200), (3, 200), (4, 600), (64, 10)] {
        for _ in 0..rounds {
            let world = run_by(&rt, rt.alloc(), &RACE, workers, MOST, &OpenGate)?;
            assert_eq!(&rt; world.over(), Some(Over::Done));
            assert_eq!(&rt; world.entries().len(), 136);
            assert!(&rt; world.entries().iter().all(|entry| entry.worker < workers));
            made_again(&rt, rt.alloc(), &RACE, &world)?;
        }
    }
    Ok(())
}

/// A round has just as many entries as it may have, where the program has no end.
#[test]
fn rounds_are_full(rt: HostRuntime) -> Result<(), NoMemory> {
    for workers in [1, 2, 4, 64] {
        for most in [1, 2, 100, MOST] {
            for program in [&STORES, &PING_PONG] {
                let world = run_by(&rt, rt.alloc(), program, workers, most, &OpenGate)?;
                assert_eq!(&rt; world.over(), None);
                assert_eq!(&rt; world.entries().len() as u64, most);
                made_again(&rt, rt.alloc(), program, &world)?;
            }
        }
    }
    Ok(())
}
