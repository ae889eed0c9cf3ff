//! Images and texts that several workers run on threads.

ghost use Rattle.std.specs.Prelude.{◌≡◌, ◌+◌, ◌<◌, ◌≤◌, length};
ghost use Rattle.al_core.specs.History.{away};

use crate::calls::{bytes_of, host_of, sink};
use crate::images::{RACES, STORES};
use crate::runs::SERVER;
use al_base::{NoMemory, Over};
use al_core::{Limits, World};
use al_event::Entry;
use al_host::MemSink;
use al_rounds::{Gate, OpenGate};
use alef_run::{End, Report, alef};
use crossbeam_utils::atomic::AtomicCell;
use rv_exec::{Asked, Held, stretch};
use rv_isa::image::Image;
use std::alloc::Global;
use std::process::Abort;
use std::sync::Wait;
use std::test::*;
use std::thread::Threads;

/// How many entries a run of these tests may have.
const MOST: u64 = 1000;

/// What came of a call with these words where these bytes stand under `a`, and what was written.
fn called<R: Threads + Wait + Sync + Abort, G: Gate>(
    rt: &R,
    alloc: Global,
    bytes: &[u8],
    words: &[&str],
    gate: &G,
) -> Result<(Report, MemSink), Fail> {
    let mut host = host_of(alloc, bytes, &[])?;
    let mut out = sink(alloc, 1 << 20, &[])?;
    let mut log = sink(alloc, 1 << 20, &[])?;
    let report = alef(rt, alloc, words, &mut host, &mut out, &mut log, gate);
    Ok((report, out))
}

/// Makes an entry that is permitted.
fn make(rt: &impl Abort, world: &mut World, entry: Entry)
    requires here { away world.old ≡ 0 }
    requires room { length world.old.entries < world.old.quota }
    ensures here { away world.new ≡ 0 }
    ensures room { length world.new.entries ≤ length world.old.entries + 1 }
    ensures quota { world.new.quota ≡ world.old.quota }
{
    let made = world.step(entry);
    assert_eq!(rt; made, Ok(()));
}

/// Makes these entries, one after the other.
fn go(rt: &impl Abort, world: &mut World, entries: &[Entry])
    requires here { away world.old ≡ 0 }
    requires room { length world.old.entries + length entries.now ≤ world.old.quota }
{
    for entry in entries {
        make(rt, world, *entry);
    }
}

/// The schedule of a call, made again on one thread, leads to what was written and to the same end and work.
fn made_again(rt: &impl Abort, alloc: Global, report: Report, out: &MemSink) -> Result<(), Fail> {
    let Report {
        schedule,
        work,
        image,
        ..
    } = report;
    let Some(image) = image else {
        panic!(rt; "no image");
    };
    let limits = Limits {
        region: 1,
        entries: MOST,
    };
    let mut again = World::start(alloc, image, limits)?;
    if schedule.len() as u64 > MOST {
        panic!(rt; "too many entries");
    }
    go(rt, &mut again, schedule.as_slice());
    assert_eq!(rt; again.output(), out.got());
    assert_eq!(rt; again.over(), Some(Over::Done));
    assert_eq!(rt; again.work(), work);
    Ok(())
}

/// Whatever the threads do, what a racy image wrote is what its schedule leads to.
#[test]
fn races_are_as_their_schedules_say(rt: HostRuntime) -> Result<(), Fail> {
    let words = [
        "exec",
        "a",
        "--workers",
        "4",
        "--region",
        "1",
        "--entries",
        "1000",
    ];
    let bytes = bytes_of(rt.alloc(), &RACES)?;
    for _ in 0u32..400 {
        let (report, out) = called(&rt, rt.alloc(), &bytes, &words, &OpenGate)?;
        assert_eq!(&rt; report.end, End::Ran(Over::Done));
        assert_eq!(&rt; report.schedule.len(), 136);
        assert!(&rt;
            report
                .schedule
                .as_slice()
                .iter()
                .all(|entry| entry.worker < 4)
        );
        made_again(&rt, rt.alloc(), report, &out)?;
    }
    Ok(())
}

/// Holds a worker that has made an entry, until two workers are inside at one time.
#[derive(Drop)]
struct Meeting {
    inside: AtomicCell<u32>,
    met: AtomicCell<bool>,
    failed: AtomicCell<bool>,
}

impl Gate for Meeting {
    fn stretch(
        &self,
        alloc: Global,
        image: &Image,
        _worker: u8,
        entries: u64,
        held: Held,
    ) -> Result<Asked, (Held, NoMemory)> {
        if self.inside.fetch_add(1) == 1 {
            self.met.store(true);
        }
        if entries > 0 {
            for _ in 0u32..1 << 30 {
                if self.met.load() {
                    break;
                }
            }
            if !self.met.load() {
                self.failed.store(true);
                self.met.store(true);
            }
        }
        let asked = stretch(alloc, image, held);
        self.inside.fetch_sub(1);
        asked
    }
}

/// A call with these words has two workers inside at one time, and entries of both.
fn two_meet<R: Threads + Wait + Sync + Abort>(
    rt: &R,
    alloc: Global,
    bytes: &[u8],
    mode: &str,
) -> Result<(), Fail> {
    let gate = Meeting {
        inside: AtomicCell::new(0),
        met: AtomicCell::new(false),
        failed: AtomicCell::new(false),
    };
    let words = [mode, "a", "--workers", "2", "--entries", "64"];
    let (report, _out) = called(rt, alloc, bytes, &words, &gate)?;
    assert_eq!(rt; report.end, End::Ran(Over::Spent));
    assert!(rt; gate.met.load(), "no two workers were inside");
    assert!(rt; !gate.failed.load(), "a worker was held in vain");
    for worker in 0..2 {
        assert!(rt;
            report
                .schedule
                .as_slice()
                .iter()
                .any(|entry| entry.worker == worker),
            "worker {worker}"
        );
    }
    Ok(())
}

/// A top call that gives its image to one worker never has two inside.
#[test]
fn two_workers_meet_in_alef(rt: HostRuntime) -> Result<(), Fail> {
    let alloc = rt.alloc();
    let bytes = bytes_of(alloc, &STORES)?;
    two_meet(&rt, alloc, &bytes, "exec")?;
    let text = b"void f(){while(1);} void main(){proc f();proc f();while(1);}";
    two_meet(&rt, alloc, text, "run")
}

/// Counts the stretches that are run, and their code words.
#[derive(Drop)]
struct Counting {
    calls: AtomicCell<u64>,
    work: AtomicCell<u64>,
}

impl Gate for Counting {
    fn stretch(
        &self,
        alloc: Global,
        image: &Image,
        _worker: u8,
        _entries: u64,
        held: Held,
    ) -> Result<Asked, (Held, NoMemory)> {
        let asked = stretch(alloc, image, held);
        self.calls.fetch_add(1);
        if let Ok(asked) = &asked {
            self.work.fetch_add(asked.work);
        }
        asked
    }
}

/// What `run` writes comes from the stretches of its image.
#[test]
fn stretches_make_the_run(rt: HostRuntime) -> Result<(), Fail> {
    let gate = Counting {
        calls: AtomicCell::new(0),
        work: AtomicCell::new(0),
    };
    let (report, out) = called(&rt, rt.alloc(), SERVER.as_bytes(), &["run", "a"], &gate)?;
    assert_eq!(&rt; out.got(), b"sum 110\n".as_slice());
    assert!(&rt; gate.calls.load() >= report.schedule.len() as u64);
    assert!(&rt; u128::from(gate.work.load()) >= report.work);
    Ok(())
}
