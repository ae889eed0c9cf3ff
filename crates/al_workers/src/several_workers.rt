//! A round of several workers.

ghost use Rattle.std.specs.Prelude.{◌≡◌, ◌⊎◌, ◌<◌, ◌≤◌, ℕ, [], None, IsSome, IsNone, length, vec_capacity};
ghost use Rattle.store_lock.specs.Locks.{lock_origin, lock_seats};
ghost use Rattle.store_lock.specs.Passes.{AreNew};
ghost use Rattle.al_core.specs.History.{over_of, away};
ghost use Rattle.al_core.specs.Sharing.{world_entries};
ghost use Rattle.al_core.specs.WorldMemo.{world_memo};
ghost use Rattle.al_rounds.specs.Later.{IsLater, IsMerged};
ghost use Rattle.al_workers.specs.Crew.{IsReady, AreReady, Works, HaveWorked};

use crate::crew::{Worker, dismiss, hire};
use crate::rest::Rest;
use crate::worker::work;
use al_base::NoMemory;
use al_core::World;
use al_rounds::{Gate, go_alone};
use rv_isa::image::Image;
use std::alloc::Global;
use std::sync::{Arc, Wait};
use std::thread;
use std::thread::Threads;
use store_lock::{Pass, StoreLock};

/// Runs a world on until it is over or has `quota` entries, by workers that are numbered from 0 on, each on a thread of its own
/// where one can be made. Worker 0 ends the round alone, on this thread. A world that lacked memory may be looked at, and not run
/// on. May wait: no clause says that a worker ever gets the turn.
pub fn round<R: Threads + Wait + Sync, G: Gate>(
    rt: &R,
    alloc: Global,
    world: World,
    workers: u8,
    quota: u64,
    gate: &G,
) -> (World, Option<NoMemory>)
    requires here { away world ≡ 0 }
    requires some { 1 ≤ workers }
    requires few { workers ≤ 64 }
    requires least { length world.entries ≤ quota }
    requires most { quota ≤ world.limit }
    // The entries that there were stand first, and each other one was made by one of the workers.
    ensures merged { IsMerged workers (record world { quota = quota }) result.0 }
    // Where there is memory the round is done whole.
    ensures done { IsNone result.1 → (IsSome (over_of result.0) ⊎ (length result.0.entries ≡ quota)) }
    ensures here { IsNone result.1 → away result.0 ≡ 0 }
{
    let mut world = world;
    world.allow(quota);
    if workers == 1 {
        return alone(alloc, world, gate, 0);
    }
    let (world, lack, made) = together(rt, alloc, world, workers, gate);
    if lack.is_some() {
        return (world, lack);
    }
    alone(alloc, world, gate, made)
}

/// Worker 0, which has made so many entries in this round, runs a world on to the end of the round.
fn alone<G: Gate>(alloc: Global, world: World, gate: &G, made: u64) -> (World, Option<NoMemory>)
    requires { away world ≡ 0 }
    ensures later { IsLater 0 world result.0 }
    ensures done { IsNone result.1 → (IsSome (over_of result.0) ⊎ (length result.0.entries ≡ result.0.quota)) }
    ensures here { IsNone result.1 → away result.0 ≡ 0 }
{
    let mut world = world;
    match go_alone(alloc, gate, &mut world, made) {
        Ok(()) => (world, None),
        Err(no_memory) => (world, Some(no_memory)),
    }
}

/// All workers run a world on. It gives how many entries worker 0 has made.
fn together<R: Threads + Wait + Sync, G: Gate>(
    rt: &R,
    alloc: Global,
    world: World,
    workers: u8,
    gate: &G,
) -> (World, Option<NoMemory>, u64)
    requires here { away world ≡ 0 }
    requires some { 1 ≤ workers }
    requires few { workers ≤ 64 }
    ensures merged { IsMerged workers world result.0 }
    ensures here { IsNone result.1 → away result.0 ≡ 0 }
{
    let Ok(image) = world.image().clone() else {
        return (world, Some(NoMemory), 0);
    };
    let Ok(crew) = Vec::with_capacity(alloc, usize::from(workers)) else {
        return (world, Some(NoMemory), 0);
    };
    let Ok(back) = Vec::with_capacity(alloc, usize::from(workers)) else {
        return (world, Some(NoMemory), 0);
    };
    match StoreLock::make(alloc, world, workers) {
        Ok((lock, passes)) => in_room(rt, alloc, lock, passes, crew, back, &image, gate),
        Err((world, no_memory)) => (world, Some(no_memory), 0),
    }
}

/// The same, with the room that it needs.
fn in_room<R: Threads + Wait + Sync, G: Gate>(
    rt: &R,
    alloc: Global,
    lock: StoreLock<World>,
    passes: Vec<Pass>,
    mut crew: Vec<Worker>,
    mut back: Vec<Pass>,
    image: &Image,
    gate: &G,
) -> (World, Option<NoMemory>, u64)
    requires seats { 0 < lock_seats lock × lock_seats lock ≤ 64 }
    requires passes { AreNew world_memo world_entries lock passes.items }
    requires crew { (crew.items ≡ []) × (lock_seats lock ≤ vec_capacity crew) }
    requires back { (back.items ≡ []) × (lock_seats lock ≤ vec_capacity back) }
    requires image { image.now ≡ (lock_origin lock).image }
    ensures merged { IsMerged (lock_seats lock) (lock_origin lock) result.0 }
    ensures here { IsNone result.1 → away result.0 ≡ 0 }
{
    hire(passes, &mut crew);
    let rest = Rest::new();
    run(rt, alloc, &lock, image, gate, &rest, &mut crew);
    let made = match crew.first() {
        Some(worker) => worker.made,
        None => 0,
    };
    let lack = dismiss(crew, &mut back);
    (lock.close(back), lack, made)
}

/// Each worker does its part, on a thread of its own where one can be made.
fn run<R: Threads + Wait + Sync, G: Gate>(
    rt: &R,
    alloc: Global,
    lock: &StoreLock<World>,
    image: &Image,
    gate: &G,
    rest: &Rest,
    crew: &mut Vec<Worker>,
)
    requires some { 0 < length crew.old.items }
    requires ready { AreReady lock.now crew.old.items }
    requires image { image.now ≡ (lock_origin lock.now).image }
    ensures count { length crew.new.items ≡ length crew.old.items }
    ensures each { HaveWorked lock.now crew.old.items crew.new.items }
{
    let task = move |_number: usize, worker: &mut Worker|
        requires { IsReady lock.now worker.now × (image.now ≡ (lock_origin lock.now).image) }
        ensures { Works lock.entry.now worker.entry.now worker.exit.now }
    { work(rt, alloc, lock, image, gate, rest, worker) };
    let threads = crew.len();
    thread::for_each_mut(rt, crew.as_mut_slice(), threads, &task);
}
