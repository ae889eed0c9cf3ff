//! Schedules as texts. Which texts are none is shown by the real program (`tests/program`).
ghost use Rattle.std.specs.Prelude.{◌≤◌};

use al_event::Entry;
use al_host::{Host, MemHost, MemSink};
use al_trace::{TraceStop, read, write};
use std::alloc::Global;
use std::process::Abort;
use std::test::Fail;

static ENTRIES: [Entry; 2] = [
    Entry {
        proc: 0,
        pick: 0,
        worker: 0,
    },
    Entry {
        proc: 4_294_967_295,
        pick: 65_535,
        worker: 63,
    },
];

const TEXT: &[u8] = b"alef-schedule 1\n0 0 0\n4294967295 65535 63\n";

/// A host whose text that is, and whose calls of these numbers are faults. The first call was the find.
fn host_of(alloc: Global, text: &[u8], fail: &[u64]) -> Result<MemHost, Fail> {
    let mut files = Vec::new(alloc);
    files.push((
        String::from_str(alloc, "text")?,
        Vec::from_slice(alloc, text)?,
    ))?;
    let mut host = MemHost::new(files, Vec::from_slice(alloc, fail)?);
    match host.find("text") {
        Ok(()) => Ok(host),
        Err(_) => Err("a text".into()),
    }
}

/// A sink of this room that takes so many bytes at a time, and whose writes of these numbers are faults.
fn sink_of(alloc: Global, room: u32, most: u32, fail: &[u64]) -> Result<MemSink, Fail>
    requires { 1 ≤ most }
{
    let fail = Vec::from_slice(alloc, fail)?;
    Ok(MemSink::new(alloc, room, most, fail)?)
}

#[test]
fn a_text_is_written_whatever_the_pieces(rt: HostRuntime) -> Result<(), Fail> {
    for most in [1, 7, 100] {
        let mut sink = sink_of(rt.alloc(), 100, most, &[])?;
        assert!(rt; write(&ENTRIES, &mut sink).is_ok());
        assert_eq!(rt; sink.got(), TEXT);
    }
    Ok(())
}

#[test]
fn a_fault_leaves_a_front(rt: HostRuntime) -> Result<(), Fail> {
    let mut sink = sink_of(rt.alloc(), 100, 16, &[3])?;
    assert!(rt; write(&ENTRIES, &mut sink).is_err());
    assert_eq!(rt; sink.got(), &TEXT[..32]);
    Ok(())
}

/// The entries of a text.
fn entries_of(alloc: Global, text: &[u8]) -> Result<Vec<Entry>, Fail> {
    let mut host = host_of(alloc, text, &[])?;
    match read(alloc, &mut host) {
        Ok(entries) => Ok(entries),
        Err(_) => Err("a schedule".into()),
    }
}

#[test]
fn a_text_is_read(rt: HostRuntime) -> Result<(), Fail> {
    let entries = entries_of(rt.alloc(), TEXT)?;
    assert_eq!(rt; entries.as_slice(), ENTRIES.as_slice());
    Ok(())
}

#[test]
fn a_fault_of_the_host_is_answered(rt: HostRuntime) -> Result<(), Fail> {
    let alloc = rt.alloc();
    for call in [2, 3] {
        let mut host = host_of(alloc, TEXT, &[call])?;
        assert!(rt; matches!(read(alloc, &mut host), Err(TraceStop::ReadFault)));
    }
    Ok(())
}

fn many_entries(alloc: Global) -> Result<Vec<Entry>, Fail> {
    let mut entries = Vec::new(alloc);
    for proc in 0..1_u32 << 22 {
        entries.push(Entry {
            proc,
            pick: (proc % 7) as u16,
            worker: (proc % 64) as u8,
        })?;
    }
    Ok(entries)
}

/// Writes entries, whose text has 52,759,498 bytes.
fn large_text(rt: &impl Abort, alloc: Global, entries: &[Entry]) -> Result<MemSink, Fail> {
    let mut sink = sink_of(alloc, 1 << 26, 1 << 26, &[])?;
    assert!(rt; write(entries, &mut sink).is_ok());
    assert_eq!(rt; sink.got().len(), 52_759_498);
    Ok(sink)
}

#[test]
fn a_large_schedule_is_written(rt: HostRuntime) -> Result<(), Fail> {
    let entries = many_entries(rt.alloc())?;
    let _sink = large_text(&rt, rt.alloc(), entries.as_slice())?;
    Ok(())
}

#[test]
fn a_large_schedule_is_read(rt: HostRuntime) -> Result<(), Fail> {
    let entries = many_entries(rt.alloc())?;
    let sink = large_text(&rt, rt.alloc(), entries.as_slice())?;
    let again = entries_of(rt.alloc(), sink.got())?;
    assert_eq!(rt; again.as_slice(), entries.as_slice());
    Ok(())
}
