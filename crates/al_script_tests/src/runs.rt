//! Scripts along schedules.

use crate::lines::{entries, script};
use crate::tables::{SCRIPTS, TRAPS};
use al_base::Over;
use al_event::{Entry, Start};
use al_items::Items;
use al_script::{Script, Stop, World, run_script};
use al_script_book::{Passage, TalkName, TaskName};
use std::alloc::Global;
use std::process::Abort;
use std::test::Fail;

const MEBIBYTE: u32 = 0x10_0000;

/// What was made, where something else is let go, whose type is not looked into here.
fn kept<T, U: Drop>(it: T, _other: U) -> T {
    it
}

fn after(alloc: Global, script: &Script, entries: &Items<Entry>) -> Result<World, Stop> {
    let start = Start {
        code: 0,
        words: Items::new(alloc),
    };
    run_script(
        alloc,
        script.as_slice(),
        MEBIBYTE,
        &start,
        entries.as_slice(),
    )
}

/// How a world is over, the line of a trap, and what was put out.
fn shown(alloc: Global, world: &World) -> Result<String, Fail> {
    let over = world.state.over;
    let output = world.state.output.as_slice();
    Ok(if let Some(Over::Trapped { .. }) = over {
        format!(in alloc; "{over:?} in line {}, {output:?}", world.made.line)?
    } else {
        format!(in alloc; "{over:?}, {output:?}")?
    })
}

/// What comes of a script along a schedule.
fn come_of(
    rt: &impl Abort,
    alloc: Global,
    script: &Script,
    schedule: &str,
) -> Result<String, Fail> {
    let entries = entries(rt, alloc, schedule)?;
    match after(alloc, script, &entries) {
        Ok(world) => kept(shown(alloc, &world), world),
        Err(stop) => Ok(format!(in alloc; "{stop:?}")?),
    }
}

fn halves<'a>(rt: &impl Abort, line: &'a str, between: &str) -> (&'a str, &'a str) {
    match line.split_once(between) {
        Some(halves) => halves,
        None => panic!(rt; "no {between}: {line}"),
    }
}

/// Compares what comes of a script along each schedule.
fn compare(rt: &impl Abort, alloc: Global, script: &Script, rows: &str) -> Result<(), Fail> {
    for row in rows.lines() {
        if !row.starts_with('#') {
            let (schedule, want) = halves(rt, row, " => ");
            let found = come_of(rt, alloc, script, schedule)?;
            assert_eq!(rt; found.as_str(), want, "{row}");
        }
    }
    Ok(())
}

/// A script, behind remarks, and what comes of it.
fn goes(rt: &impl Abort, alloc: Global, section: &str) -> Result<(), Fail> {
    let (line, rest) = halves(rt, section, "\n");
    let (line, rows) = if line.starts_with('#') {
        halves(rt, rest, "\n")
    } else {
        (line, rest)
    };
    let script = script(rt, alloc, line)?;
    kept(compare(rt, alloc, &script, rows), script)
}

#[test]
fn scripts_come_to_this(rt: HostRuntime) -> Result<(), Fail> {
    for section in SCRIPTS.split("\n\n") {
        goes(&rt, rt.alloc(), section)?;
    }
    Ok(())
}

/// A script of one function, which traps at its last instruction.
fn traps(rt: &impl Abort, alloc: Global, row: &str) -> Result<(), Fail> {
    let (line, trap) = halves(rt, row, " => ");
    let mut count = 0u32;
    for _ in line.split(';') {
        count = count.wrapping_add(1);
    }
    let schedule = format!(in alloc; "0x{count}")?;
    let script = script(rt, alloc, line)?;
    let found = kept(come_of(rt, alloc, &script, schedule.as_str()), script)?;
    let at = count.wrapping_sub(1);
    let want = format!(in alloc;
        "Some(Trapped {{ trap: {trap}, proc: 0, at: {at} }}) in line 1, []"
    )?;
    assert_eq!(rt; found.as_str(), want.as_str(), "{row}");
    Ok(())
}

#[test]
fn each_trap_is_at_its_entry(rt: HostRuntime) -> Result<(), Fail> {
    for row in TRAPS.lines() {
        if !row.starts_with('#') {
            traps(&rt, rt.alloc(), row)?;
        }
    }
    Ok(())
}

fn talk(proc: u32, entry: u32) -> TalkName {
    TalkName {
        task: TaskName { proc, number: 0 },
        entry,
    }
}

/// Compares the last that went: 42 on channel 1 from proc 1 to proc 0.
fn went(rt: &impl Abort, world: &World) {
    let Some(went) = world.state.went.last() else {
        panic!(rt; "nothing went");
    };
    let Passage::Transfer {
        chan,
        sender,
        receiver,
        words,
    } = &went.passage
    else {
        panic!(rt; "no transfer");
    };
    assert_eq!(rt; *chan, 1);
    assert_eq!(rt; *sender, talk(1, 0));
    assert_eq!(rt; *receiver, talk(0, 2));
    assert_eq!(rt; words.as_slice(), [42].as_slice());
}

#[test]
fn a_transfer_is_in_what_went(rt: HostRuntime) -> Result<(), Fail> {
    let alloc = rt.alloc();
    let text = "chan 0 1; proc 1 $0 $0; receive $0; print $2.1 / send #0 42";
    let script = script(&rt, alloc, text)?;
    let entries = entries(&rt, alloc, "0x3 1")?;
    match kept(after(alloc, &script, &entries), script) {
        Ok(world) => kept(went(&rt, &world), world),
        Err(stop) => panic!(&rt; "{stop:?}"),
    }
    Ok(())
}
