//! What a take, a give and a hit take of the processor's time (`bench/region`).
use super::*;
use al_base::NoMemory;
use al_event::Block;
use std::alloc::Global;
use std::io::Print;
use std::test::Fail;
use std::time::CpuClock;

const MEBIBYTE: u32 = 0x10_0000;

// The nanoseconds that this thread has used.
fn now(rt: &impl CpuClock) -> u64 {
    match rt.thread_cpu_time() {
        Ok(time) => time
            .as_secs()
            .wrapping_mul(1_000_000_000)
            .wrapping_add(u64::from(time.subsec_nanos())),
        Err(_) => 0,
    }
}

// A region of so many blocks. Every other one has a run of 8 bytes behind it.
fn region_of(alloc: Global, blocks: u32) -> Result<Region, NoMemory> {
    let mut region = Region::new(alloc, 256 * MEBIBYTE)?;
    for _ in 0..blocks {
        let _ = region.take(24, Block::Heap);
    }
    for k in 0..blocks / 2 {
        let _ = region.give(odd_place(k), Block::Heap);
    }
    let _ = takes(&mut region, blocks / 2);
    Ok(region)
}

// The place of the kth block of those with a run behind them.
fn odd_place(k: u32) -> u32 {
    BASE.wrapping_add(24).wrapping_add(k.wrapping_mul(48))
}

// Those of all these blocks, the lowest first.
fn places_of(alloc: Global, blocks: u32) -> Result<Vec<u32>, NoMemory> {
    let mut places = Vec::new(alloc);
    for k in 0..blocks / 2 {
        places.push(odd_place(k))?;
    }
    Ok(places)
}

// Puts places into no order.
fn shuffle(places: &mut [u32]) {
    let mut seed = 1u32;
    for k in 0..places.len() {
        seed = seed.wrapping_mul(1_664_525).wrapping_add(1_013_904_223);
        exchange(places, k, (seed >> 8) as usize);
    }
}

// Has a place change with that of a number, counted round.
fn exchange(places: &mut [u32], k: usize, number: usize) {
    let other = number.checked_rem(places.len()).unwrap_or(0);
    if k < places.len() && other < places.len() {
        places.swap(k, other);
    }
}

fn hits(region: &Region, places: &[u32]) -> u32 {
    let mut found = 0u32;
    for &at in places {
        if region.hit(at, 4) == Some(at) {
            found = found.wrapping_add(1);
        }
    }
    found
}

fn gives(region: &mut Region, places: &[u32]) -> u32 {
    let mut given = 0u32;
    for &at in places {
        if region.give(at, Block::Heap).is_ok() {
            given = given.wrapping_add(1);
        }
    }
    given
}

fn takes(region: &mut Region, count: u32) -> u32 {
    let mut taken = 0u32;
    for _ in 0..count {
        if region.take(16, Block::Heap).is_some() {
            taken = taken.wrapping_add(1);
        }
    }
    taken
}

// Prints how many calls of each kind so many rounds have at so many places of a region, and the nanoseconds of these
// and of no call.
fn measure(
    rt: &(impl CpuClock + Print),
    mut region: Region,
    places: &[u32],
    rounds: u32,
) -> Result<(), Fail> {
    let (mut hit, mut give, mut take, mut none) = (0u64, 0u64, 0u64, 0u64);
    let mut calls = 0u32;
    for _ in 0..rounds {
        let start = now(rt);
        let begun = now(rt);
        let found = hits(&region, places);
        let found_at = now(rt);
        let given = gives(&mut region, places);
        let given_at = now(rt);
        let taken = takes(&mut region, given);
        let taken_at = now(rt);
        if found as usize != places.len() || given != found || taken != found {
            return Err("not each block is there".into());
        }
        calls = calls.wrapping_add(given);
        none = none.wrapping_add(begun.wrapping_sub(start));
        hit = hit.wrapping_add(found_at.wrapping_sub(begun));
        give = give.wrapping_add(given_at.wrapping_sub(found_at));
        take = take.wrapping_add(taken_at.wrapping_sub(given_at));
    }
    println!(rt;
        "{calls} calls in {rounds} rounds: take {take} ns, give {give} ns, hit {hit} ns, none {none} ns"
    )?;
    Ok(())
}

// The same, of the lowest places or of some in no order.
fn measure_some(
    rt: &(impl CpuClock + Print),
    alloc: Global,
    (blocks, lowest): (u32, bool),
    (count, rounds): (usize, u32),
) -> Result<(), Fail> {
    let mut places = places_of(alloc, blocks)?;
    if !lowest {
        shuffle(&mut places);
    }
    places.truncate(count);
    measure(rt, region_of(alloc, blocks)?, &places, rounds)
}

#[test]
fn calls_among_10_blocks(rt: HostRuntime) -> Result<(), Fail> {
    measure_some(&rt, rt.alloc(), (10, false), (5, 4_000))
}

#[test]
fn calls_among_1000_blocks(rt: HostRuntime) -> Result<(), Fail> {
    measure_some(&rt, rt.alloc(), (1_000, false), (500, 40))
}

#[test]
fn calls_among_65536_blocks(rt: HostRuntime) -> Result<(), Fail> {
    measure_some(&rt, rt.alloc(), (65_536, false), (4_000, 5))
}

#[test]
fn calls_at_the_lowest_of_1000_blocks(rt: HostRuntime) -> Result<(), Fail> {
    measure_some(&rt, rt.alloc(), (1_000, true), (100, 200))
}

#[test]
fn calls_at_the_lowest_of_65536_blocks(rt: HostRuntime) -> Result<(), Fail> {
    measure_some(&rt, rt.alloc(), (65_536, true), (100, 200))
}
