//! The mode `record`: a text is compiled, its image runs, and the schedule is written in place of the output.

ghost use Rattle.std.specs.Prelude.{◌≡◌, ◌^◌, ◌≤◌, None, Some, option_map};
ghost use Rattle.alef_texts.specs.Status.{status_of};
ghost use Rattle.alef_texts.specs.Call.{call_by};
ghost use Rattle.alef_run.specs.RecordMode.{EndsRecord, EndsWriting};
ghost use Rattle.alef_run.specs.Modes.{line_by};

use crate::run::run;
use al_base::Failed;
use al_host::{Host, Sink};
use al_rounds::Gate;
use al_trace::write;
use al_words::Job;
use alef_texts::{End, Report, status_of};
use std::alloc::Global;
use std::sync::Wait;
use std::thread::Threads;

/// A sink that lets go of what it gets.
#[derive(Drop)]
struct Unseen;

impl Sink for Unseen {
    ghost use Rattle.std.specs.Prelude.{None};

    ghost got = { λ sink. None };

    ghost faults = { λ sink. 0 };

    fn write(&mut self, piece: &[u8]) -> Result<usize, Failed> {
        Ok(piece.len())
    }
}

/// Writes the schedule of a run that ended by itself.
fn write_schedule<K: Sink>(report: Report, out: &mut K) -> Report
    ensures end { EndsWriting report.end report.schedule result.end (K.got out.old) (K.got out.new) (K.faults out.old) (K.faults out.new) }
    ensures schedule { result.schedule ≡ report.schedule }
    ensures work { result.work ≡ report.work }
    ensures image { result.image ≡ report.image }
    ensures status { report.status ≡ status_of report.end → result.status ≡ status_of result.end }
{
    let mut report = report;
    if let End::Ran(_) = report.end {
        match write(report.schedule.as_slice(), out) {
            Ok(()) => (),
            Err(_) => {
                report.end = End::WriteFault;
                report.status = status_of(&report.end);
            }
        }
    }
    report
}

/// Reads the text that a job names, compiles it, runs its image by as many workers as the job says, and writes the schedule. It gives
/// the line of the text in which it trapped, else 0.
pub(crate) fn record<R: Threads + Wait + Sync, H: Host, K: Sink, G: Gate>(
    rt: &R,
    alloc: Global,
    job: &Job,
    host: &mut H,
    out: &mut K,
    gate: &G,
) -> (Report, u32)
    requires some_workers { 1 ≤ job.now.workers }
    requires few_workers { job.now.workers ≤ 64 }
    requires some_region { 1 ≤ job.now.region }
    requires region { job.now.region ≤ 256 }
    requires some_entries { 1 ≤ job.now.entries }
    requires entries { job.now.entries ≤ 2 ^ 26 }
    ensures end { EndsRecord job.now (call_by (H.content host.old) (H.content host.new) (H.faults host.old) (H.faults host.new) (K.got out.old) (K.got out.new) (K.faults out.old) (K.faults out.new) result.0) result.0.end }
    ensures line { result.1 ≡ line_by (Some job.now) (option_map (λ image. image.value) result.0.image) (call_by (H.content host.old) (H.content host.new) (H.faults host.old) (H.faults host.new) (K.got out.old) (K.got out.new) (K.faults out.old) (K.faults out.new) result.0) }
    ensures status { result.0.status ≡ status_of result.0.end }
{
    let mut unseen = Unseen;
    let (report, line) = run(rt, alloc, job, host, &mut unseen, gate);
    (write_schedule(report, out), line)
}
