//! A world runs in rounds, and what it puts out is written after each.

ghost use Rattle.std.specs.Prelude.{◌≡◌, ◌+◌, ◌≤◌, ◌^◌, min};
ghost use Rattle.al_core.specs.History.{opening};
ghost use Rattle.alef_run.specs.Rounds.{history_along, IsLegal, RanTo, round_length};

use al_base::Over;
use al_core::World;
use al_host::Sink;
use al_rounds::Gate;
use al_workers::round;
use alef_texts::{End, write_all};
use std::alloc::Global;
use std::sync::Wait;
use std::thread::Threads;

/// The most entries of a round.
const ROUND_LENGTH: u64 = 65536;

/// How many entries there may be after the next round.
fn next_quota(made: u64, limit: u64) -> u64
    requires { made ≤ 2 ^ 26 }
    ensures { result ≡ min limit (made + round_length) }
{
    limit.min(made + ROUND_LENGTH)
}

/// Runs the first world of an image by workers until it is over or has as many entries as it may have. After each round its output
/// is written and dropped.
pub(crate) fn run_world<R: Threads + Wait + Sync, K: Sink, G: Gate>(
    rt: &R,
    alloc: Global,
    world: World,
    workers: u8,
    limit: u64,
    out: &mut K,
    gate: &G,
) -> (World, End)
    requires first { world ≡ opening world.image world.region limit }
    requires some_workers { 1 ≤ workers }
    requires few_workers { workers ≤ 64 }
    requires some { 1 ≤ limit }
    requires most { limit ≤ 2 ^ 26 }
    ensures image { result.0.image ≡ world.image }
    ensures region { result.0.region ≡ world.region }
    ensures legal { IsLegal workers (history_along world.image world.region limit result.0.entries) }
    ensures ran { RanTo (history_along world.image world.region limit result.0.entries) result.1 (K.got out.old) (K.got out.new) (K.faults out.old) (K.faults out.new) }
{
    let mut world = world;
    let mut made = 0;
    loop {
        let quota = next_quota(made, limit);
        let (later, lack) = round(rt, alloc, world, workers, quota, gate);
        world = later;
        made = world.entries().len() as u64;
        if lack.is_some() {
            return (world, End::NoMemory);
        }
        match write_all(out, world.output()) {
            Ok(()) => (),
            Err(_) => return (world, End::WriteFault),
        }
        world.clear_output();
        if let Some(over) = world.over() {
            return (world, End::Ran(over));
        }
        if made == limit {
            return (world, End::Ran(Over::Spent));
        }
    }
}
