//! Worlds of texts along schedules, with what is to come of them.
ghost use Rattle.std.specs.Prelude.{◌≤◌};

use crate::calls::sink;
use al_base::Place;
use al_front::Refused as Reason;
use al_host::MemHost;
use al_rounds::OpenGate;
use al_rules::TypeFault;
use alef_run::{End, ScheduleFault, alef};
use std::alloc::Global;
use std::process::Abort;
use std::sync::Wait;
use std::test::Fail;
use std::thread::Threads;

/// A proc sends a number to main, which prints it.
const EXCHANGE: &str = "void s(chan(int) c){c<-=42;} \
    void main(){chan(int) c;alloc c;proc s(c);print(\"%d\\n\",<-c);}";

/// Its whole schedule.
const SEVEN: &str = "alef-schedule 1\n0 0 0\n0 0 0\n0 0 0\n1 0 0\n1 0 0\n0 0 0\n0 0 0\n";

/// Its world after three entries.
const THREE: &str =
    "entries 3\nrunning\ntask 0 0 blocked\nframe 0 f1 main line 1\nvar c 0x00000001\n\
    task 1 0 ready\nframe 0 f0 s line 1\nvar c 0x00000001\nchan 1 capacity 0 held 0 waiting 1\noutput 0\n";

const RESCUES: &str =
    "void main(){rescue{print(\"b\");return;} rescue{print(\"c\");raise;} raise;}";

const THREE_OF_MAIN: &str = "alef-schedule 1\n0 0 0\n0 0 0\n0 0 0\n";

/// A host that has a text under `a` and a schedule under `s`, and whose calls of these numbers fail.
fn host_with(alloc: Global, text: &str, schedule: &str, fail: &[u64]) -> Result<MemHost, Fail> {
    let mut files = Vec::new(alloc);
    files.push((
        String::from_str(alloc, "a")?,
        Vec::from_slice(alloc, text.as_bytes())?,
    ))?;
    files.push((
        String::from_str(alloc, "s")?,
        Vec::from_slice(alloc, schedule.as_bytes())?,
    ))?;
    Ok(MemHost::new(files, Vec::from_slice(alloc, fail)?))
}

/// A call on a text and a schedule, and what is to come of it.
#[derive(Clone, Copy)]
struct Want<'a> {
    text: &'a str,
    schedule: &'a str,
    number: &'a str,
    end: End,
    status: u8,
    entries: usize,
    out: &'a str,
    log: &'a str,
}

fn compare<R: Threads + Wait + Sync + Abort>(
    rt: &R,
    alloc: Global,
    want: &Want<'_>,
) -> Result<(), Fail> {
    let mut host = host_with(alloc, want.text, want.schedule, &[])?;
    let mut out = sink(alloc, 1 << 20, &[])?;
    let mut log = sink(alloc, 1 << 20, &[])?;
    let words = ["step", "a", "s", "--number", want.number];
    let report = alef(rt, alloc, &words, &mut host, &mut out, &mut log, &OpenGate);
    assert_eq!(rt; report.end, want.end);
    assert_eq!(rt; report.status, want.status);
    assert_eq!(rt; report.schedule.len(), want.entries);
    assert_eq!(rt; report.work, 0);
    assert_eq!(rt; out.got(), want.out.as_bytes());
    assert_eq!(rt; log.got(), want.log.as_bytes());
    Ok(())
}

const SHOWN: Want<'static> = Want {
    text: EXCHANGE,
    schedule: SEVEN,
    number: "3",
    end: End::Made,
    status: 0,
    entries: 3,
    out: THREE,
    log: "",
};

/// The two worked texts, and each kind of refusal.
const CALLS: [Want<'static>; 6] = [
    SHOWN,
    Want {
        text: RESCUES,
        schedule: THREE_OF_MAIN,
        number: "1",
        entries: 1,
        out: "entries 1\nrunning\ntask 0 0 ready\nframe 0 f0 main line 1\noutput 1\n",
        ..SHOWN
    },
    Want {
        number: "8",
        end: End::BadNumber(7),
        status: 9,
        entries: 0,
        out: "",
        log: "alef: schedule has 7 entries\n",
        ..SHOWN
    },
    Want {
        schedule: "alef-schedule 1\n0 0 0\nx\n",
        end: End::BadSchedule(ScheduleFault::Line(3)),
        status: 9,
        entries: 0,
        out: "",
        log: "alef: schedule line 3\n",
        ..SHOWN
    },
    // after its three entries the world is over
    Want {
        text: RESCUES,
        schedule: "alef-schedule 1\n0 0 0\n0 0 0\n0 0 0\n0 0 0\n0 0 0\n",
        number: "5",
        end: End::BadEntry(3),
        status: 9,
        entries: 3,
        out: "",
        log: "alef: schedule entry 3 is not permitted\n",
    },
    Want {
        text: "int x; void main(){x=y;}",
        end: End::Refused(Reason::Typing(TypeFault {
            rule: 1,
            place: Place { line: 1, col: 22 },
        })),
        status: 1,
        entries: 0,
        out: "",
        log: "alef: line 1 col 22: rule 1\n",
        ..SHOWN
    },
];

#[test]
fn worlds_are_shown_or_refused(rt: HostRuntime) -> Result<(), Fail> {
    for want in &CALLS {
        compare(&rt, rt.alloc(), want)?;
    }
    Ok(())
}

/// Each call of a host fails, and a schedule is not there.
#[test]
fn schedules_that_are_not_read(rt: HostRuntime) -> Result<(), Fail> {
    let alloc = rt.alloc();
    for call in 1u64..7 {
        let mut host = host_with(alloc, EXCHANGE, SEVEN, &[call])?;
        let mut out = sink(alloc, 1 << 20, &[])?;
        let mut log = sink(alloc, 1 << 20, &[])?;
        let report = alef(
            &rt,
            alloc,
            &["step", "a", "s"],
            &mut host,
            &mut out,
            &mut log,
            &OpenGate,
        );
        assert_eq!(rt; report.end, End::ReadFault);
        assert_eq!(rt; out.got().len(), 0);
        assert_eq!(rt; log.got(), b"alef: cannot read\n".as_slice());
    }
    let mut host = host_with(alloc, EXCHANGE, SEVEN, &[])?;
    let mut out = sink(alloc, 1 << 20, &[])?;
    let mut log = sink(alloc, 1 << 20, &[])?;
    let report = alef(
        &rt,
        alloc,
        &["step", "a", "b"],
        &mut host,
        &mut out,
        &mut log,
        &OpenGate,
    );
    assert_eq!(rt; report.status, 3);
    assert_eq!(rt; out.got().len(), 0);
    Ok(())
}

/// Each write of a sink fails.
#[test]
fn worlds_that_are_not_written(rt: HostRuntime) -> Result<(), Fail> {
    let alloc = rt.alloc();
    for call in 1usize..12 {
        let mut host = host_with(alloc, EXCHANGE, SEVEN, &[])?;
        let mut out = sink(alloc, 16, &[call as u64])?;
        let mut log = sink(alloc, 1 << 20, &[])?;
        let words = ["step", "a", "s", "--number", "3"];
        let report = alef(&rt, alloc, &words, &mut host, &mut out, &mut log, &OpenGate);
        assert_eq!(rt; report.end, End::WriteFault);
        assert_eq!(rt; report.schedule.len(), 3);
        assert_eq!(rt; out.got().len(), 16 * (call - 1));
        assert!(rt; THREE.as_bytes().starts_with(out.got()));
        assert_eq!(rt; log.got(), b"alef: cannot write\n".as_slice());
    }
    Ok(())
}
