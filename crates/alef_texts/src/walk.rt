//! The mode `step`: the source world of a text after the first entries of a schedule is shown.

ghost use Rattle.std.specs.Prelude.{◌≡◌, ◌≤◌, ℕ, Option, [], None, length, take, IfOk};
ghost use Rattle.al_host.specs.Outside.{Content};
ghost use Rattle.al_region.specs.Region.{IsRegionSize};
ghost use Rattle.al_typed.specs.Layout.{IsLaidOut};
ghost use Rattle.al_show.specs.Room.{HasRoom};
ghost use Rattle.al_counts.specs.Counts.{most_entries};
ghost use Rattle.alef_texts.specs.Status.{status_of};
ghost use Rattle.alef_texts.specs.Call.{call_by};
ghost use Rattle.alef_texts.specs.StepMode as spec;
ghost use Rattle.alef_texts.specs.StepMode.{EndsStep, EndsShow, IsProgramRead, IsFound, bytes_of_region};

use crate::keeping::kept;
use crate::load::{load_schedule, load_text};
use crate::outside::write_all;
use crate::report::{End, Report, status_of};
use al_event::Entry;
use al_front::{FrontStop, front};
use al_host::{Host, Sink};
use al_items::Items;
use al_show::{ShowStop, shown};
use al_typed::Program;
use al_words::Job;
use std::alloc::Global;

/// The size of the region in bytes.
fn region_of(job: &Job) -> u32
    requires some { 1 ≤ job.now.region }
    requires most { job.now.region ≤ 256 }
    ensures bytes { result ≡ bytes_of_region job.now }
    ensures size { IsRegionSize result }
{
    job.region * 0x10_0000
}

/// How a call ends that shows no world.
fn end_of_show(stop: ShowStop) -> End
    ensures { result ≡ spec.end_of_show stop }
{
    match stop {
        ShowStop::NotPermitted(number) => End::BadEntry(number),
        ShowStop::NoMemory => End::NoMemory,
    }
}

/// Shows the world of a program after these entries. Where there is none, nothing is written.
fn show<K: Sink>(
    alloc: Global,
    program: &Program,
    region: u32,
    entries: &[Entry],
    out: &mut K,
) -> End
    requires laid_out { IsLaidOut program.now.aggregates }
    requires room { HasRoom program.now }
    requires region { IsRegionSize region }
    requires few { length entries.now ≤ most_entries }
    ensures { EndsShow program.now region entries.now result (K.got out.old) (K.got out.new) (K.faults out.old) (K.faults out.new) }
{
    let text = match shown(alloc, program, region, entries) {
        Ok(text) => text,
        Err(stop) => return end_of_show(stop),
    };
    match write_all(out, text.as_slice()) {
        Ok(()) => End::Made,
        Err(_) => End::WriteFault,
    }
}

/// How many of the entries to step along were made.
fn made_of(end: &End, count: usize) -> usize
    ensures { result ≡ spec.made_of end.now count }
{
    match end {
        End::Made | End::WriteFault => count,
        End::BadEntry(number) => *number as usize,
        _ => 0,
    }
}

/// What there is to tell of a call that stepped along these entries.
fn report_of(alloc: Global, end: End, entries: Items<Entry>) -> Report
    ensures end { result.end ≡ end }
    ensures schedule { result.schedule ≡ take (spec.made_of end (length entries)) entries }
    ensures work { result.work ≡ 0 }
    ensures image { result.image ≡ None }
    ensures status { result.status ≡ status_of end }
{
    let mut entries = entries;
    entries.truncate(made_of(&end, entries.len()));
    Report {
        status: status_of(&end),
        end,
        schedule: entries,
        work: 0,
        image: None,
    }
}

/// Reads the schedule that a job names, and shows the world of a program after as many entries as the job says.
#[tactic(auto, using(crate::proofs::Stepping::few_taken))]
fn step_along<H: Host, K: Sink>(
    alloc: Global,
    program: &Program,
    job: &Job,
    host: &mut H,
    out: &mut K,
) -> Report
    requires laid_out { IsLaidOut program.now.aggregates }
    requires room { HasRoom program.now }
    requires some_region { 1 ≤ job.now.region }
    requires region { job.now.region ≤ 256 }
    // Where the text of the program was read before.
    ensures end { (told : Option Content) (faults : ℕ) → IsProgramRead job.now.file program.now told (H.content host.old) faults (H.faults host.old)
        → EndsStep job.now (call_by told (H.content host.new) faults (H.faults host.new) (K.got out.old) (K.got out.new) (K.faults out.old) (K.faults out.new) result) result.end }
    ensures image { result.image ≡ None }
    ensures status { result.status ≡ status_of result.end }
{
    let schedule = match load_schedule(alloc, host, job.schedule.as_str()) {
        Ok(schedule) => schedule,
        Err(end) => return Report::nothing(alloc, end),
    };
    if schedule.len() < job.number as usize {
        return Report::nothing(alloc, End::BadNumber(schedule.len() as u64));
    }
    let mut entries = Items::from_vec(schedule);
    entries.truncate(job.number as usize);
    let end = show(alloc, program, region_of(job), entries.as_slice(), out);
    report_of(alloc, end, entries)
}

/// What is to be told of a text of which the front end found that: of its program, where it has one, the world along the schedule.
fn step_found<H: Host, K: Sink>(
    alloc: Global,
    found: &Result<Program, FrontStop>,
    job: &Job,
    host: &mut H,
    out: &mut K,
) -> Report
    requires some_region { 1 ≤ job.now.region }
    requires region { job.now.region ≤ 256 }
    requires laid_out { IfOk found.now (λ p. IsLaidOut p.aggregates) }
    requires room { IfOk found.now HasRoom }
    // Where the text was read before.
    ensures end { (told : Option Content) (faults : ℕ) → IsFound job.now.file found.now told (H.content host.old) faults (H.faults host.old)
        → EndsStep job.now (call_by told (H.content host.new) faults (H.faults host.new) (K.got out.old) (K.got out.new) (K.faults out.old) (K.faults out.new) result) result.end }
    ensures image { result.image ≡ None }
    ensures status { result.status ≡ status_of result.end }
{
    match found {
        Ok(program) => step_along(alloc, program, job, host, out),
        Err(FrontStop::Refused(reason)) => { Report::nothing(alloc, End::Refused(*reason)) }
        Err(FrontStop::NoMemory) => Report::nothing(alloc, End::NoMemory),
    }
}

/// Reads the text and the schedule that a job names, and shows the world of the text after as many entries as the job says.
pub fn step<H: Host, K: Sink>(alloc: Global, job: &Job, host: &mut H, out: &mut K) -> Report
    requires some_region { 1 ≤ job.now.region }
    requires region { job.now.region ≤ 256 }
    ensures end { EndsStep job.now (call_by (H.content host.old) (H.content host.new) (H.faults host.old) (H.faults host.new) (K.got out.old) (K.got out.new) (K.faults out.old) (K.faults out.new) result) result.end }
    ensures image { result.image ≡ None }
    ensures status { result.status ≡ status_of result.end }
{
    let bytes = match load_text(alloc, host, job.file.as_str()) {
        Ok(bytes) => bytes,
        Err(end) => return Report::nothing(alloc, end),
    };
    let found = front(alloc, bytes.as_slice());
    let report = step_found(alloc, &found, job, host, out);
    kept(report, found)
}
