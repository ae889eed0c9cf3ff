//! How a text is walked, and compared with what is to come of it.
ghost use Rattle.std.specs.Prelude.{IfOk};
ghost use Rattle.al_region.specs.Region.{IsRegionSize};
ghost use Rattle.al_typed.specs.Layout.{IsLaidOut};
ghost use Rattle.al_step.specs.Sources.{IsSound};

use al_base::{Over, Trap};
use al_event::Entry;
use al_front::front;
use al_step::{Source, Stepped, start, step};
use al_typed::Program;
use std::alloc::Global;
use std::process::Abort;
use std::test::Fail;

/// The size of the region in bytes, where nothing else is said.
pub const REGION: u32 = 0x100_0000;

/// How many procs take turns.
const PROCS: u32 = 8;

/// The entries that a text is walked along.
#[derive(Clone, Copy)]
pub enum Along {
    /// Those of these procs, each with its pick.
    Entries(&'static [(u32, u16)]),
    /// Those of the first procs in turn, so many times, each with pick 0. A proc that has no ready task is left out.
    Turns(u32),
}

/// A text, what it is walked along, and what is to come of it: the number of entries made, what was put out, how the world is over,
/// and the line of the action that trapped.
#[derive(Clone, Copy)]
pub struct Row {
    pub text: &'static str,
    pub along: Along,
    pub entries: u32,
    pub output: &'static str,
    pub over: Option<Over>,
    pub line: u64,
}

/// A text that goes on to its end, the number of its entries, and what it puts out.
pub type Whole = (&'static str, u32, &'static str);

/// The row of a text that goes on to its end.
pub fn whole(along: Along, text: &'static str, entries: u32, output: &'static str) -> Row {
    Row {
        text,
        along,
        entries,
        output,
        over: Some(Over::Done),
        line: 0,
    }
}

/// A text that traps in proc 0: by which trap, at which entry, in which line, and what it puts out before.
pub type Trapped = (&'static str, Trap, u32, u64, &'static str);

/// The row of a text that traps in proc 0, whatever the schedule.
pub fn trapped(it: &Trapped) -> Row {
    let (text, trap, at, line, output) = *it;
    Row {
        text,
        along: Along::Turns(0x1_1000),
        entries: at.saturating_add(1),
        output,
        over: Some(Over::Trapped { trap, proc: 0, at }),
        line,
    }
}

/// A source on its way, the number of entries made, and whether it may go on.
#[derive(Drop)]
pub struct Walked<'p> {
    pub source: Source<'p>,
    pub entries: u32,
    pub goes_on: bool,
}

/// The entry of that number, if there is one.
fn entry_at(along: Along, at: u32) -> Option<Entry> {
    let (proc, pick) = match along {
        Along::Entries(list) => *list.get(at as usize)?,
        Along::Turns(most) => {
            if at / PROCS >= most {
                return None;
            }
            (at % PROCS, 0)
        }
    };
    Some(Entry {
        proc,
        pick,
        worker: 0,
    })
}

/// Whether an entry that is not permitted is left out.
fn leaves_out(along: Along) -> bool {
    matches!(along, Along::Turns(_))
}

/// After an entry more, where it is permitted.
fn after<'p>(
    alloc: Global,
    walked: Walked<'p>,
    entry: Entry,
    leaves_out: bool,
) -> Result<Walked<'p>, Fail>
    requires { IsSound walked.source }
    ensures { IfOk result (λ w. IsSound w.source) }
{
    let Walked {
        source,
        entries,
        ..
    } = walked;
    match step(alloc, source, entry)? {
        Stepped::Made(source) => Ok(Walked {
            source,
            entries: entries.saturating_add(1),
            goes_on: true,
        }),
        Stepped::NotPermitted(source) => Ok(Walked {
            source,
            entries,
            goes_on: leaves_out,
        }),
        Stepped::Over(source) => Ok(Walked {
            source,
            entries,
            goes_on: false,
        }),
    }
}

/// A program after these entries, as far as they are permitted.
pub fn walk<'p>(
    alloc: Global,
    p: &'p Program,
    region: u32,
    along: Along,
) -> Result<Walked<'p>, Fail>
    requires laid_out { IsLaidOut p.now.aggregates }
    requires region { IsRegionSize region }
    ensures { IfOk result (λ w. IsSound w.source) }
{
    let mut walked = Walked {
        source: start(alloc, p, region)?,
        entries: 0,
        goes_on: true,
    };
    for at in 0..0x10_0000u32 {
        let Some(entry) = entry_at(along, at) else {
            break;
        };
        if !walked.goes_on {
            break;
        }
        walked = after(alloc, walked, entry, leaves_out(along))?;
    }
    Ok(walked)
}

/// What was made, where something else is let go, whose type is not looked into here.
pub fn kept<T, U: Drop>(it: T, _other: U) -> T {
    it
}

/// Compares what came of a row.
fn compare_walked(rt: &impl Abort, row: &Row, walked: &Walked<'_>) {
    let source = &walked.source;
    assert_eq!(rt; source.output(), row.output.as_bytes(), "{}", row.text);
    assert_eq!(rt; source.over(), row.over, "{}", row.text);
    assert_eq!(rt; source.line(), row.line, "{}", row.text);
    assert_eq!(rt; walked.entries, row.entries, "{}", row.text);
}

/// Walks the program of a row, and compares what comes of it.
fn compare_program(
    rt: &impl Abort,
    alloc: Global,
    region: u32,
    row: &Row,
    program: &Program,
) -> Result<(), Fail>
    requires laid_out { IsLaidOut program.now.aggregates }
    requires region { IsRegionSize region }
{
    let walked = walk(alloc, program, region, row.along)?;
    compare_walked(rt, row, &walked);
    Ok(kept((), walked))
}

/// Walks a row, and compares what comes of it.
pub fn compare(rt: &impl Abort, alloc: Global, region: u32, row: &Row) -> Result<(), Fail>
    requires { IsRegionSize region }
{
    let program = match front(alloc, row.text.as_bytes()) {
        Ok(program) => program,
        Err(stop) => panic!(rt; "{stop:?}: {}", row.text),
    };
    let compared = compare_program(rt, alloc, region, row, &program);
    kept(compared, program)
}
