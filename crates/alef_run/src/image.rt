//! The run of an image.

ghost use Rattle.std.specs.Prelude.{◌≡◌, ℕ, ◌*◌, ◌^◌, ◌≤◌, Option, Some, IfOk, All, length, option_map};
ghost use Rattle.al_core.specs.History.{opening, line_of, work_of};
ghost use Rattle.al_host.specs.Outside.{Content};
ghost use Rattle.alef_texts.specs.Status.{status_of};
ghost use Rattle.alef_texts.specs.Call.{call_by};
ghost use Rattle.al_trace.specs.Schedule.{IsEntry};
ghost use Rattle.alef_run.specs.ExecMode.{EndsImage};
ghost use Rattle.alef_run.specs.ReplayMode.{EndsAlong};
ghost use Rattle.alef_run.specs.Modes.{line_by};

use crate::along::go_along;
use crate::rounds::run_world;
use al_base::NoMemory;
use al_core::{Limits, World};
use al_event::Entry;
use al_host::Sink;
use al_items::Items;
use al_rounds::Gate;
use al_words::Job;
use alef_texts::{End, Report, status_of};
use rv_isa::image::Image;
use std::alloc::Global;
use std::sync::{Arc, Wait};
use std::thread::Threads;

/// The first world of an image in a region of so many MiB, for so many entries at most.
fn first_world(alloc: Global, image: Image, region: u32, entries: u64) -> Result<World, NoMemory>
    requires some_region { 1 ≤ region }
    requires region { region ≤ 256 }
    requires entries { entries ≤ 2 ^ 26 }
    ensures { IfOk result (λ world. world ≡ opening image region entries) }
{
    let mut image = image;
    image.make_ready(alloc)?;
    let image = Arc::new(alloc, image)?;
    World::start(alloc, image, Limits { region, entries })
}

/// What there is to tell of a world that ran, and the line of the text in which it trapped.
fn report_of(world: World, end: End) -> (Report, u32)
    ensures end { result.0.end ≡ end }
    ensures schedule { result.0.schedule ≡ world.entries }
    ensures work { result.0.work ≡ work_of world }
    ensures image { option_map (λ image. image.value) result.0.image ≡ Some world.image }
    ensures status { result.0.status ≡ status_of end }
    ensures line { result.1 ≡ line_of world }
{
    let line = world.line();
    let work = world.work();
    let (entries, image) = world.into_parts();
    let report = Report {
        status: status_of(&end),
        end,
        schedule: Items::from_vec(entries),
        work,
        image: Some(image),
    };
    (report, line)
}

/// Runs an image by as many workers as a job says and writes what it puts out. It gives the line of the text in which it trapped, else 0.
pub(crate) fn run_image<R: Threads + Wait + Sync, K: Sink, G: Gate>(
    rt: &R,
    alloc: Global,
    image: Image,
    job: &Job,
    out: &mut K,
    gate: &G,
) -> (Report, u32)
    requires some_workers { 1 ≤ job.now.workers }
    requires few_workers { job.now.workers ≤ 64 }
    requires some_region { 1 ≤ job.now.region }
    requires region { job.now.region ≤ 256 }
    requires some_entries { 1 ≤ job.now.entries }
    requires entries { job.now.entries ≤ 2 ^ 26 }
    // Whatever was read before.
    ensures end { (told told_after : Option Content) (faults faults_after : ℕ) → EndsImage job.now image (call_by told told_after faults faults_after (K.got out.old) (K.got out.new) (K.faults out.old) (K.faults out.new) result.0) result.0.end }
    ensures line { (told told_after : Option Content) (faults faults_after : ℕ) → result.1 ≡ line_by (Some job.now) (option_map (λ image. image.value) result.0.image) (call_by told told_after faults faults_after (K.got out.old) (K.got out.new) (K.faults out.old) (K.faults out.new) result.0) }
    ensures status { result.0.status ≡ status_of result.0.end }
{
    let world = match first_world(alloc, image, job.region, job.entries) {
        Ok(world) => world,
        Err(_) => return (Report::nothing(alloc, End::NoMemory), 0),
    };
    let (world, end) = run_world(rt, alloc, world, job.workers, job.entries, out, gate);
    report_of(world, end)
}

/// Runs an image along a schedule, in a region as a job says, and writes what it puts out. It gives the line of the text in which it trapped, else 0.
pub(crate) fn replay_image<K: Sink>(
    alloc: Global,
    image: Image,
    job: &Job,
    schedule: &[Entry],
    out: &mut K,
) -> (Report, u32)
    requires some_region { 1 ≤ job.now.region }
    requires region { job.now.region ≤ 256 }
    requires few { length schedule.now ≤ 2 ^ 26 }
    requires entries { All IsEntry schedule.now }
    // Whatever was read before.
    ensures end { (told told_after : Option Content) (faults faults_after : ℕ) → EndsAlong job.now image schedule.now (call_by told told_after faults faults_after (K.got out.old) (K.got out.new) (K.faults out.old) (K.faults out.new) result.0) result.0.end }
    ensures line { (told told_after : Option Content) (faults faults_after : ℕ) → result.1 ≡ line_by (Some job.now) (option_map (λ image. image.value) result.0.image) (call_by told told_after faults faults_after (K.got out.old) (K.got out.new) (K.faults out.old) (K.faults out.new) result.0) }
    ensures status { result.0.status ≡ status_of result.0.end }
{
    let world = match first_world(alloc, image, job.region, schedule.len() as u64) {
        Ok(world) => world,
        Err(_) => return (Report::nothing(alloc, End::NoMemory), 0),
    };
    let (world, end) = go_along(world, schedule, out);
    report_of(world, end)
}
