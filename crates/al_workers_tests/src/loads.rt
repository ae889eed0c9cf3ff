//! Loads that `bench/workers` times: private work, stores and talks, by one, two and four workers.

ghost use Rattle.std.specs.Prelude.{◌≤◌, ◌^◌};

use crate::programs::{PING_PONG, PRIVATE, Program, STORES};
use crate::running::run_by;
use al_base::NoMemory;
use al_rounds::OpenGate;
use std::alloc::Global;
use std::process::Abort;
use std::sync::Wait;
use std::test::*;
use std::thread::Threads;

/// Of private work, a million instructions before each entry.
const PRIVATE_ENTRIES: u64 = 200;

const STORE_ENTRIES: u64 = 1 << 20;

const TALK_ENTRIES: u64 = 1 << 17;

/// Runs a program up to so many entries.
fn load<R: Threads + Wait + Sync + Abort>(
    rt: &R,
    alloc: Global,
    program: &Program,
    workers: u8,
    most: u64,
) -> Result<(), NoMemory>
    requires some { 1 ≤ workers }
    requires few { workers ≤ 64 }
    requires most { most ≤ 2 ^ 26 }
{
    let world = run_by(rt, alloc, program, workers, most, &OpenGate)?;
    assert_eq!(rt; world.entries().len() as u64, most);
    Ok(())
}

#[test]
fn private_work_by_1(rt: HostRuntime) -> Result<(), NoMemory> {
    load(&rt, rt.alloc(), &PRIVATE, 1, PRIVATE_ENTRIES)
}

#[test]
fn private_work_by_2(rt: HostRuntime) -> Result<(), NoMemory> {
    load(&rt, rt.alloc(), &PRIVATE, 2, PRIVATE_ENTRIES)
}

#[test]
fn private_work_by_4(rt: HostRuntime) -> Result<(), NoMemory> {
    load(&rt, rt.alloc(), &PRIVATE, 4, PRIVATE_ENTRIES)
}

#[test]
fn stores_by_1(rt: HostRuntime) -> Result<(), NoMemory> {
    load(&rt, rt.alloc(), &STORES, 1, STORE_ENTRIES)
}

#[test]
fn stores_by_2(rt: HostRuntime) -> Result<(), NoMemory> {
    load(&rt, rt.alloc(), &STORES, 2, STORE_ENTRIES)
}

#[test]
fn stores_by_4(rt: HostRuntime) -> Result<(), NoMemory> {
    load(&rt, rt.alloc(), &STORES, 4, STORE_ENTRIES)
}

#[test]
fn talks_by_1(rt: HostRuntime) -> Result<(), NoMemory> {
    load(&rt, rt.alloc(), &PING_PONG, 1, TALK_ENTRIES)
}

#[test]
fn talks_by_2(rt: HostRuntime) -> Result<(), NoMemory> {
    load(&rt, rt.alloc(), &PING_PONG, 2, TALK_ENTRIES)
}

#[test]
fn talks_by_4(rt: HostRuntime) -> Result<(), NoMemory> {
    load(&rt, rt.alloc(), &PING_PONG, 4, TALK_ENTRIES)
}
