//! A program that workers run to its end.

ghost use Rattle.std.specs.Prelude.{◌≡◌, ◌≤◌, ◌^◌, [], IfOk};
ghost use Rattle.al_core.specs.History.{away};

use crate::programs::{Program, image_of};
use al_base::NoMemory;
use al_core::{Limits, World};
use al_rounds::Gate;
use al_workers::round;
use std::alloc::Global;
use std::process::Abort;
use std::sync::{Arc, Wait};
use std::thread::Threads;

/// The first world of a program, over a region of 1 MiB.
pub fn first(
    rt: &impl Abort,
    alloc: Global,
    program: &Program,
    most: u64,
) -> Result<World, NoMemory>
    requires { most ≤ 2 ^ 26 }
    ensures here { IfOk result (λ world. away world ≡ 0) }
    ensures empty { IfOk result (λ world. world.entries ≡ []) }
    ensures quota { IfOk result (λ world. world.quota ≡ most) }
    ensures limit { IfOk result (λ world. world.limit ≡ most) }
{
    let Some(image) = image_of(alloc, program)? else {
        panic!(rt; "no image");
    };
    let limits = Limits {
        region: 1,
        entries: most,
    };
    World::start(alloc, Arc::new(alloc, image)?, limits)
}

/// The world that workers bring a program to, up to its end or as many entries as there may be.
pub fn run_by<R: Threads + Wait + Sync + Abort, G: Gate>(
    rt: &R,
    alloc: Global,
    program: &Program,
    workers: u8,
    most: u64,
    gate: &G,
) -> Result<World, NoMemory>
    requires some { 1 ≤ workers }
    requires few { workers ≤ 64 }
    requires most { most ≤ 2 ^ 26 }
{
    let world = first(rt, alloc, program, most)?;
    match round(rt, alloc, world, workers, most, gate) {
        (world, None) => Ok(world),
        (_, Some(no_memory)) => Err(no_memory),
    }
}
