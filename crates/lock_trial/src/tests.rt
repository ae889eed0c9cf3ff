// Workers on several threads, each of which is lent something, adds an entry and is lent something again.
ghost use Rattle.std.specs.Prelude.{◌≡◌, ℕ, ◌<◌, ◌≤◌, [], None, IfOk, length, vec_capacity};
ghost use Rattle.store_lock.specs.Locks.{lock_seats};
ghost use Rattle.store_lock.specs.Passes.{pass_number, AreNew};
ghost use Rattle.lock_trial.specs.DeskValue.{desk_entries, desk_lent};
ghost use Rattle.lock_trial.specs.DeskMemo.{desk_memo};
ghost use Rattle.lock_trial.specs.Working.{IsWorkersPass, AreWorkers, AreStill};

use crate::crew::{Worker, dismiss, hire};
use crate::desk::Desk;
use crate::errand::{lend, settle};
use al_base::NoMemory;
use std::alloc::Global;
use std::sync::Wait;
use std::test::*;
use std::thread;
use std::thread::Threads;
use store_lock::{Pass, StoreLock};

// Up to `most` entries, each with its number, by two turns each.
fn work<R: Wait>(rt: &R, lock: &StoreLock<Desk>, worker: &mut Worker, most: u32)
    requires { IsWorkersPass lock.now (pass_number worker.old.pass) worker.old.pass }
    ensures { IsWorkersPass lock.now (pass_number worker.old.pass) worker.new.pass }
{
    for number in 0..most {
        let turn = lock.turn(rt, &mut worker.pass);
        let lent = lend(lock, turn, &mut worker.pass, number);
        let turn = lock.turn(rt, &mut worker.pass);
        if settle(lock, turn, &mut worker.pass, lent).is_err() {
            worker.failed = true;
            return;
        }
        worker.made = number + 1;
    }
}

fn run<R: Threads + Wait + Sync>(rt: &R, lock: &StoreLock<Desk>, crew: &mut Vec<Worker>, most: u32)
    requires some { 0 < length crew.old.items }
    requires each { AreWorkers lock.now crew.old.items }
    ensures count { length crew.new.items ≡ length crew.old.items }
    ensures each { AreStill lock.now crew.old.items crew.new.items }
{
    let task = move |_number: usize, worker: &mut Worker|
        requires { IsWorkersPass lock.now (pass_number worker.now.pass) worker.now.pass }
        ensures { IsWorkersPass lock.entry.now (pass_number worker.entry.now.pass) worker.exit.now.pass }
    { work(rt, lock, worker, most) };
    let threads = crew.len();
    thread::for_each_mut(rt, crew.as_mut_slice(), threads, &task);
}

// The desk after each worker has made its entries, and how many each made.
fn in_room<R: Threads + Wait + Sync>(
    rt: &R,
    lock: StoreLock<Desk>,
    passes: Vec<Pass>,
    mut crew: Vec<Worker>,
    mut back: Vec<Pass>,
    most: u32,
) -> Desk
    requires seats { 0 < lock_seats lock × lock_seats lock ≤ 64 }
    requires passes { AreNew desk_memo desk_entries lock passes.items }
    requires crew { (crew.items ≡ []) × (lock_seats lock ≤ vec_capacity crew) }
    requires back { (back.items ≡ []) × (lock_seats lock ≤ vec_capacity back) }
{
    hire(passes, &mut crew);
    run(rt, &lock, &mut crew, most);
    dismiss(crew, &mut back);
    lock.close(back)
}

// Each of `seats` workers makes `most` entries.
fn desk_after<R: Threads + Wait + Sync>(
    rt: &R,
    alloc: Global,
    desk: Desk,
    seats: u8,
    most: u32,
) -> Option<Desk>
    requires seats { (0 < seats) × (seats ≤ 64) }
    requires unlent { (k : ℕ) → desk_lent desk k ≡ None }
{
    let crew = Vec::with_capacity(alloc, usize::from(seats)).ok()?;
    let back = Vec::with_capacity(alloc, usize::from(seats)).ok()?;
    let (lock, passes) = StoreLock::make(alloc, desk, seats).ok()?;
    Some(in_room(rt, lock, passes, crew, back, most))
}

const BASE: [(u32, u8); 3] = [(7, 0), (8, 63), (7, 2)];

fn desk_with_base(alloc: Global) -> Result<Desk, NoMemory>
    ensures unlent { IfOk result (λ d. (k : ℕ) → desk_lent d k ≡ None) }
{
    let mut desk = Desk::new(alloc, 9);
    desk.add(BASE[0].0, BASE[0].1)?;
    desk.add(BASE[1].0, BASE[1].1)?;
    desk.add(BASE[2].0, BASE[2].1)?;
    Ok(desk)
}

// The history is the base and then a merge of what the workers made, each in its order.
fn is_merge(desk: &Desk, seats: u8, most: u32) -> bool {
    let Some((base, since)) = desk.entries().split_at_checked(BASE.len()) else {
        return false;
    };
    let begins = base.iter().zip(BASE).all(|(entry, (proc, worker))| entry.proc == proc
        && entry.worker == worker);
    let mut left = u64::from(seats) * u64::from(most);
    for worker in 0..seats {
        let mut next = 0;
        for entry in since {
            if entry.worker == worker {
                if entry.proc != next || left == 0 {
                    return false;
                }
                next = entry.proc.saturating_add(1);
                left -= 1;
            }
        }
    }
    begins && left == 0 && since.len() as u64 == u64::from(seats) * u64::from(most)
}

#[test]
fn workers_merge(rt: HostRuntime) -> Result<(), Fail> {
    for (seats, most) in [(1, 3), (2, 1_000), (4, 1_000), (64, 20), (3, 0)] {
        let desk = desk_with_base(rt.alloc());
        let Ok(desk) = desk else {
            panic!(rt; "no memory for the base");
        };
        let Some(desk) = desk_after(&rt, rt.alloc(), desk, seats, most) else {
            panic!(rt; "no memory for {seats} workers");
        };
        assert_eq!(rt; desk.label(), 9);
        assert!(rt;
            is_merge(&desk, seats, most),
            "{seats} workers, {most} entries each"
        );
    }
    Ok(())
}

// Two turns for each entry, so a million turns for 500,000 entries. Where a wake is lost, this does not end.
fn take_a_million_turns<R: Threads + Wait + Sync>(
    rt: &R,
    alloc: Global,
    seats: u8,
    most: u32,
) -> bool
    requires { (0 < seats) × (seats ≤ 64) }
{
    let Ok(desk) = desk_with_base(alloc) else {
        return false;
    };
    desk_after(rt, alloc, desk, seats, most).is_some_and(|desk| is_merge(&desk, seats, most))
}

#[test]
fn one_worker_takes_a_million_turns(rt: HostRuntime) {
    assert!(rt; take_a_million_turns(&rt, rt.alloc(), 1, 500_000));
}

#[test]
fn four_workers_take_a_million_turns(rt: HostRuntime) {
    assert!(rt; take_a_million_turns(&rt, rt.alloc(), 4, 125_000));
}
