ghost use Rattle.std.specs.Prelude.{◌≤◌};

use crate::images::*;
use al_base::{Over, Trap};
use al_host::{MemHost, MemSink};
use al_rounds::OpenGate;
use alef_run::{End, alef};
use rv_image::ImageFault;
use std::alloc::Global;
use std::process::Abort;
use std::sync::Wait;
use std::test::Fail;
use std::thread::Threads;

pub(super) const USAGE: &str =
    "alef: usage: alef MODE [FILE [SCHEDULE]] [--workers N] [--entries N] [--region N] [--number N]\n";

/// A host that has these bytes under `a`, and whose calls of these numbers fail.
pub(super) fn host_of(alloc: Global, bytes: &[u8], fail: &[u64]) -> Result<MemHost, Fail> {
    let mut files = Vec::new(alloc);
    files.push((
        String::from_str(alloc, "a")?,
        Vec::from_slice(alloc, bytes)?,
    ))?;
    Ok(MemHost::new(files, Vec::from_slice(alloc, fail)?))
}

/// A sink that takes so many bytes at a time, and whose writes of these numbers fail.
pub(super) fn sink(alloc: Global, most: u32, fail: &[u64]) -> Result<MemSink, Fail>
    requires { 1 ≤ most }
{
    let fail = Vec::from_slice(alloc, fail)?;
    Ok(MemSink::new(alloc, 1 << 20, most, fail)?)
}

/// The bytes of an image, from its numbers.
pub(super) fn bytes_of(alloc: Global, numbers: &[u32]) -> Result<Vec<u8>, Fail> {
    let mut bytes = Vec::new(alloc);
    for number in numbers {
        bytes.extend_from_slice(&number.to_le_bytes())?;
    }
    Ok(bytes)
}

/// A call: its words, and what is to come of it.
#[derive(Clone, Copy)]
pub(super) struct Want<'a> {
    pub(super) words: &'a [&'a str],
    pub(super) end: End,
    pub(super) status: u8,
    pub(super) entries: usize,
    pub(super) out: &'a str,
    pub(super) log: &'a str,
}

/// Makes a call where these bytes stand under `a`, and compares.
pub(super) fn compare<R: Threads + Wait + Sync + Abort>(
    rt: &R,
    alloc: Global,
    bytes: &[u8],
    want: &Want<'_>,
) -> Result<(), Fail> {
    let mut host = host_of(alloc, bytes, &[])?;
    let mut out = sink(alloc, 1 << 20, &[])?;
    let mut log = sink(alloc, 1 << 20, &[])?;
    let report = alef(
        rt, alloc, want.words, &mut host, &mut out, &mut log, &OpenGate,
    );
    assert_eq!(rt; report.end, want.end);
    assert_eq!(rt; report.status, want.status);
    assert_eq!(rt; report.schedule.len(), want.entries);
    assert_eq!(rt; out.got(), want.out.as_bytes());
    assert_eq!(rt; log.got(), want.log.as_bytes());
    Ok(())
}

/// Images that run, by their numbers.
const RUNS: [(&[u32], Want<'static>); 8] = [
    (
        &MINUS_NINE,
        Want {
            words: &["exec", "a"],
            end: End::Ran(Over::Done),
            status: 0,
            entries: 2,
            out: "-9\n",
            log: "",
        },
    ),
    (
        &ENDS,
        Want {
            words: &["exec", "a", "--region=1"],
            end: End::Ran(Over::Done),
            status: 0,
            entries: 1,
            out: "",
            log: "",
        },
    ),
    (
        &TRAPS,
        Want {
            words: &["exec", "a"],
            end: End::Ran(Over::Trapped {
                trap: Trap::Divide,
                proc: 0,
                at: 0,
            }),
            status: 5,
            entries: 1,
            out: "",
            log: "alef: trap Divide in proc 0 at entry 0, line 4\n",
        },
    ),
    (
        &BLOCKS,
        Want {
            words: &["exec", "a"],
            end: End::Ran(Over::Blocked),
            status: 6,
            entries: 2,
            out: "",
            log: "alef: blocked\n",
        },
    ),
    (
        &PAUSES,
        Want {
            words: &["exec", "a", "--entries", "3"],
            end: End::Ran(Over::Spent),
            status: 7,
            entries: 3,
            out: "",
            log: "alef: entries spent\n",
        },
    ),
    (
        &STOPS,
        Want {
            words: &["exec", "a"],
            end: End::Ran(Over::Stopped(3)),
            status: 131,
            entries: 1,
            out: "",
            log: "",
        },
    ),
    (
        &WAITS,
        Want {
            words: &["exec", "a", "--workers", "1"],
            end: End::Ran(Over::Done),
            status: 0,
            entries: 69,
            out: "!",
            log: "",
        },
    ),
    (
        &ENDS,
        Want {
            words: &["exec", "b"],
            end: End::ReadFault,
            status: 3,
            entries: 0,
            out: "",
            log: "alef: cannot read\n",
        },
    ),
];

#[test]
fn images_run(rt: HostRuntime) -> Result<(), Fail> {
    let alloc = rt.alloc();
    for (numbers, want) in &RUNS {
        let bytes = bytes_of(alloc, numbers)?;
        compare(&rt, alloc, &bytes, want)?;
    }
    Ok(())
}

/// Images with a first word that is none, and one that jumps to itself.
#[test]
fn hostile_images_trap(rt: HostRuntime) -> Result<(), Fail> {
    let alloc = rt.alloc();
    for (numbers, work) in [(&NO_WORD, 1), (&FOREVER, 134_217_729)] {
        let bytes = bytes_of(alloc, numbers)?;
        let mut host = host_of(alloc, &bytes, &[])?;
        let mut out = sink(alloc, 1 << 20, &[])?;
        let mut log = sink(alloc, 1 << 20, &[])?;
        let report = alef(
            &rt,
            alloc,
            &["exec", "a"],
            &mut host,
            &mut out,
            &mut log,
            &OpenGate,
        );
        assert_eq!(rt; report.status, 5);
        assert_eq!(rt; report.work, work);
        assert_eq!(rt;
            log.got(),
            b"alef: trap Illegal in proc 0 at entry 0\n".as_slice()
        );
    }
    Ok(())
}

pub(super) fn is_no_image<R: Threads + Wait + Sync + Abort>(
    rt: &R,
    alloc: Global,
    bytes: &[u8],
    fault: ImageFault,
    log: &str,
) -> Result<(), Fail> {
    let want = Want {
        words: &["exec", "a"],
        end: End::BadImage(fault),
        status: 9,
        entries: 0,
        out: "",
        log,
    };
    compare(rt, alloc, bytes, &want)
}

/// Bytes that are no image, among them each first part of one.
#[test]
fn bytes_that_are_no_image(rt: HostRuntime) -> Result<(), Fail> {
    let alloc = rt.alloc();
    let image = bytes_of(alloc, &MINUS_NINE)?;
    for len in 0..image.len() {
        is_no_image(
            &rt,
            alloc,
            &image[..len],
            ImageFault::Short,
            "alef: image Short\n",
        )?;
    }
    let mut longer = bytes_of(alloc, &MINUS_NINE)?;
    longer.push(0)?;
    is_no_image(
        &rt,
        alloc,
        &longer,
        ImageFault::Extra,
        "alef: image Extra\n",
    )?;
    let mut numbers = MINUS_NINE;
    numbers[0] = 0x4645_4c00;
    let other = bytes_of(alloc, &numbers)?;
    is_no_image(&rt, alloc, &other, ImageFault::Magic, "alef: image Magic\n")
}

/// Each of the first calls of a host fails, and each write of a sink.
#[test]
fn places_that_fail(rt: HostRuntime) -> Result<(), Fail> {
    let alloc = rt.alloc();
    let image = bytes_of(alloc, &SIX)?;
    for call in 1u64..4 {
        let mut host = host_of(alloc, &image, &[call])?;
        let mut out = sink(alloc, 3, &[])?;
        let mut log = sink(alloc, 1 << 20, &[])?;
        let report = alef(
            &rt,
            alloc,
            &["exec", "a"],
            &mut host,
            &mut out,
            &mut log,
            &OpenGate,
        );
        assert_eq!(rt; report.status, 3);
        assert_eq!(rt; out.got().len(), 0);
    }
    for call in 1usize..7 {
        let mut host = host_of(alloc, &image, &[])?;
        let mut out = sink(alloc, 3, &[call as u64])?;
        let mut log = sink(alloc, 1 << 20, &[])?;
        let report = alef(
            &rt,
            alloc,
            &["exec", "a"],
            &mut host,
            &mut out,
            &mut log,
            &OpenGate,
        );
        assert_eq!(rt; report.end, End::WriteFault);
        assert_eq!(rt; report.schedule.len(), 7);
        assert_eq!(rt; out.got(), &b"abcabcabcabcabcabc"[..3 * (call - 1)]);
        assert_eq!(rt; log.got(), b"alef: cannot write\n".as_slice());
    }
    Ok(())
}

/// The output of a round goes out before the next round.
#[test]
fn rounds_are_written_one_by_one(rt: HostRuntime) -> Result<(), Fail> {
    let alloc = rt.alloc();
    let image = bytes_of(alloc, &MANY)?;
    let mut host = host_of(alloc, &image, &[])?;
    let mut out = sink(alloc, 65536, &[2])?;
    let mut log = sink(alloc, 1 << 20, &[])?;
    let report = alef(
        &rt,
        alloc,
        &["exec", "a"],
        &mut host,
        &mut out,
        &mut log,
        &OpenGate,
    );
    assert_eq!(rt; report.status, 4);
    assert_eq!(rt; out.got().len(), 65536);
    assert_eq!(rt; report.schedule.len(), 70001);
    Ok(())
}
