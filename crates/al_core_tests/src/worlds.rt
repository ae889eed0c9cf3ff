//! Worlds along given entries, and worlds that one worker runs.

ghost use Rattle.std.specs.Prelude.{◌≡◌, ◌+◌, ◌≤◌, ◌<◌, [], None, IfOk, OnOk, IfSome, length};
ghost use Rattle.al_core.specs.History.{away, loan_of};
ghost use Rattle.al_core.specs.Lends.{IsLent};

use crate::programs::{BRANCH_WITH_TASK, CHOICE, FOREVER, PROGRAMS, TASKS};
use crate::texts::{halves, image_of, kept, number, parts, procs, sections};
use al_base::NoMemory;
use al_core::{After, Limits, Next, StepFault, World, world_goes};
use al_event::Entry;
use rv_exec::{Held, stretch};
use std::alloc::Global;
use std::process::Abort;
use std::sync::Arc;
use std::test::Fail;

/// How many entries a world of a test may have.
const MOST: u64 = 2000;

/// The first world of a program, over a region of 1 MiB.
fn first(rt: &impl Abort, alloc: Global, program: &str) -> Result<World, NoMemory>
    ensures here { IfOk result (λ world. away world ≡ 0) }
    ensures idle { IfOk result (λ world. loan_of world 0 ≡ None) }
    ensures empty { IfOk result (λ world. world.entries ≡ []) }
    ensures quota { IfOk result (λ world. world.quota ≡ MOST) }
    ensures limit { IfOk result (λ world. world.limit ≡ MOST) }
{
    let image = image_of(rt, alloc, program)?;
    let limits = Limits {
        region: 1,
        entries: MOST,
    };
    World::start(alloc, Arc::new(alloc, image)?, limits)
}

/// Makes an entry, and compares the answer.
fn makes(rt: &impl Abort, world: &mut World, proc: u32, pick: u16, want: Result<(), StepFault>)
    requires here { away world.old ≡ 0 }
    requires room { length world.old.entries < world.old.quota }
    ensures here { away world.new ≡ 0 }
    ensures room { length world.new.entries ≤ length world.old.entries + 1 }
    ensures quota { world.new.quota ≡ world.old.quota }
    ensures limit { world.new.limit ≡ world.old.limit }
{
    let entry = Entry {
        proc,
        pick,
        worker: 1,
    };
    let made = world.step(entry);
    assert_eq!(rt; made, want, "proc {proc} pick {pick}");
}

/// Makes entries of these procs, each with pick 0.
fn go(rt: &impl Abort, world: &mut World, procs: &[u32])
    requires here { away world.old ≡ 0 }
    requires room { length world.old.entries + length procs.now ≤ world.old.quota }
    ensures here { away world.new ≡ 0 }
    ensures room { length world.new.entries ≤ length world.old.entries + length procs.now }
    ensures quota { world.new.quota ≡ world.old.quota }
    ensures limit { world.new.limit ≡ world.old.limit }
{
    for proc in procs {
        makes(rt, world, *proc, 0, Ok(()));
    }
}

/// How a world is over, the line of its trap, and its output.
fn shown(rt: &impl Abort, alloc: Global, world: &World) -> Result<String, Fail> {
    let Ok(output) = std::str::from_utf8(world.output()) else {
        panic!(rt; "no text");
    };
    let (over, line) = (world.over(), world.line());
    Ok(format!(in alloc; "{over:?}, line {line}, {output:?}")?)
}

/// Compares how a world is over, the line of its trap, and its output, and lets it go.
fn compare(rt: &impl Abort, alloc: Global, world: World, want: &str) -> Result<(), Fail> {
    let shown = kept(shown(rt, alloc, &world), world)?;
    assert_eq!(rt; shown.as_str(), want);
    Ok(())
}

/// Runs a program along entries of these procs. It is over then, and no entry more is permitted.
fn ends(rt: &impl Abort, alloc: Global, program: &str, procs: &[u32]) -> Result<World, NoMemory>
    requires { length procs.now ≤ 1024 }
{
    let mut world = first(rt, alloc, program)?;
    go(rt, &mut world, procs);
    let entry = Entry {
        proc: 0,
        pick: 0,
        worker: 0,
    };
    assert_eq!(rt; world.step(entry), Err(StepFault::Over));
    assert_eq!(rt; world.entries().len(), procs.len());
    Ok(world)
}

/// A program along entries of these procs, each with pick 0.
fn along(rt: &impl Abort, alloc: Global, program: &str, row: &str) -> Result<(), Fail> {
    let (entries, want) = halves(rt, row);
    let procs = procs(rt, alloc, entries)?;
    assert!(rt; procs.len() <= 1024);
    let world = ends(rt, alloc, program, procs.as_slice())?;
    compare(rt, alloc, world, want)
}

/// A program that is over after one entry, which fetches so many words.
fn fetches(rt: &impl Abort, alloc: Global, program: &str, row: &str) -> Result<(), Fail> {
    let (work, want) = halves(rt, row);
    let world = ends(rt, alloc, program, &[0])?;
    assert_eq!(rt; world.work(), u128::from(number(rt, work)));
    let gone = world_goes(world);
    assert_eq!(rt; gone.work(), u128::from(number(rt, work)));
    compare(rt, alloc, gone, want)
}

/// A program that one worker runs, by so many entries.
fn runs(rt: &impl Abort, alloc: Global, program: &str, row: &str) -> Result<(), Fail> {
    let (entries, want) = halves(rt, row);
    let mut world = first(rt, alloc, program)?;
    match alone(rt, alloc, &mut world) {
        Ok(()) => {
            assert_eq!(rt;
                world.entries().len() as u64,
                u64::from(number(rt, entries))
            );
            compare(rt, alloc, world, want)
        }
        Err(no_memory) => Err(kept(no_memory, world).into()),
    }
}

/// Tries what comes of a program.
fn try_program(rt: &impl Abort, alloc: Global, program: &str) -> Result<(), Fail> {
    for line in sections(rt, program).1.lines() {
        let (kind, row) = parts(rt, line);
        if kind == "along" {
            along(rt, alloc, program, row)?;
        } else if kind == "alone" {
            runs(rt, alloc, program, row)?;
        } else {
            assert_eq!(rt; kind, "fetches");
            fetches(rt, alloc, program, row)?;
        }
    }
    Ok(())
}

#[test]
fn programs_come_to_this(rt: HostRuntime) -> Result<(), Fail> {
    for program in PROGRAMS.split("\n\n") {
        try_program(&rt, rt.alloc(), program)?;
    }
    try_program(&rt, rt.alloc(), CHOICE)?;
    try_program(&rt, rt.alloc(), TASKS)?;
    try_program(&rt, rt.alloc(), BRANCH_WITH_TASK)
}

#[test]
fn a_loop_without_end(rt: HostRuntime) -> Result<(), Fail> {
    try_program(&rt, rt.alloc(), FOREVER)
}

/// Entries that are not permitted change nothing, and a pick chooses the pair.
fn picks(rt: &impl Abort, alloc: Global, pick: u16, want: &str) -> Result<(), Fail> {
    let mut world = first(rt, alloc, CHOICE)?;
    makes(rt, &mut world, 0, 1, Err(StepFault::NotPermitted));
    makes(rt, &mut world, 1, 0, Err(StepFault::NotPermitted));
    go(rt, &mut world, &[0; 4]);
    makes(rt, &mut world, 0, 2, Err(StepFault::NotPermitted));
    assert_eq!(rt; world.entries().len(), 4);
    makes(rt, &mut world, 0, pick, Ok(()));
    go(rt, &mut world, &[0; 2]);
    let shown = shown(rt, alloc, &world);
    let (entries, image) = world.into_parts();
    assert_eq!(rt; entries.len(), 7);
    assert_eq!(rt; kept(shown, image)?.as_str(), want);
    Ok(())
}

#[test]
fn a_pick_chooses_the_pair(rt: HostRuntime) -> Result<(), Fail> {
    picks(&rt, rt.alloc(), 0, "Some(Done), line 0, \"a\"")?;
    picks(&rt, rt.alloc(), 1, "Some(Done), line 0, \"b\"")
}

#[test]
fn dropped_output(rt: HostRuntime) -> Result<(), Fail> {
    let mut world = first(&rt, rt.alloc(), TASKS)?;
    world.allow(5);
    go(&rt, &mut world, &[0; 5]);
    world.clear_output();
    assert_eq!(&rt; world.dropped(), 2);
    assert_eq!(&rt; world.output().len(), 0);
    world.allow(8);
    go(&rt, &mut world, &[0; 3]);
    compare(&rt, rt.alloc(), world, "Some(Done), line 0, \"3\"")
}

/// Who waits in a par goes on when the last of its branches has ended, and a branch ends with its last task.
#[test]
fn a_branch_ends_with_its_last_task(rt: HostRuntime) -> Result<(), Fail> {
    let mut world = first(&rt, rt.alloc(), BRANCH_WITH_TASK)?;
    go(&rt, &mut world, &[0, 1, 1, 1, 2, 2]);
    makes(&rt, &mut world, 0, 0, Err(StepFault::NotPermitted));
    makes(&rt, &mut world, 2, 0, Err(StepFault::NotPermitted));
    go(&rt, &mut world, &[1, 1, 0, 0]);
    compare(&rt, rt.alloc(), world, "Some(Done), line 0, \"abtd\"")
}

fn no_memory_of<T: Drop>(stop: (T, NoMemory)) -> NoMemory {
    stop.1
}

/// Runs what a worker was lent until it is lent nothing.
fn work(alloc: Global, world: &mut World, held: Held) -> Result<(), NoMemory>
    requires { IsLent world.old 0 held }
    ensures { OnOk result (loan_of world.new 0 ≡ None) }
{
    let image = world.image().clone()?;
    let mut held = held;
    for _ in 0..MOST {
        let asked = match stretch(alloc, &image, held) {
            Ok(asked) => asked,
            Err(stop) => return Err(no_memory_of(stop)),
        };
        match world.perform(0, asked) {
            Ok(After::Held(next)) => held = next,
            Ok(After::Idle | After::Over) => return Ok(()),
            Err(stop) => return Err(no_memory_of(stop)),
        }
    }
    world.put_back(0, held);
    Ok(())
}

/// Worker 0 runs a world alone until it is over, or has as many entries as it may have.
fn alone(rt: &impl Abort, alloc: Global, world: &mut World) -> Result<(), NoMemory>
    requires { loan_of world.old 0 ≡ None }
{
    for _ in 0..MOST {
        match world.pick(0) {
            Next::Held(held) => work(alloc, world, held)?,
            Next::Others => panic!(rt; "a proc is away"),
            Next::Full | Next::Over => return Ok(()),
        }
    }
    Ok(())
}
