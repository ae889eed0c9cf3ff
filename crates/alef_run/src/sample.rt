//! The mode `sample`: the sample text of a number is compiled and runs.

ghost use Rattle.std.specs.Prelude.{◌≡◌, ◌≤◌, ◌^◌, ℕ, Option, Some, take, option_map};
ghost use Rattle.al_host.specs.Outside.{Content};
ghost use Rattle.alef_texts.specs.Status.{status_of};
ghost use Rattle.alef_texts.specs.Call.{call_by};
ghost use Rattle.alef_run.specs.SampleMode as spec;
ghost use Rattle.alef_run.specs.SampleMode.{EndsSample, EndsCounting};
ghost use Rattle.alef_run.specs.Modes.{line_by};

use crate::compiling::compiled;
use crate::image::run_image;
use al_base::{put, put_number};
use al_host::Sink;
use al_rounds::Gate;
use al_sample::{function_count, sample};
use al_words::Job;
use alef_texts::{End, Report, status_of, write_all};
use std::alloc::Global;
use std::sync::Wait;
use std::thread::Threads;

/// Writes how many functions the sample text of a number has, where its run ended by itself.
fn write_count<K: Sink>(report: Report, number: u32, out: &mut K) -> Report
    ensures end { EndsCounting report.end number result.end (K.got out.old) (K.got out.new) (K.faults out.old) (K.faults out.new) }
    ensures schedule { result.schedule ≡ report.schedule }
    ensures work { result.work ≡ report.work }
    ensures image { result.image ≡ report.image }
    ensures status { report.status ≡ status_of report.end → result.status ≡ status_of result.end }
{
    let mut report = report;
    if let End::Ran(_) = report.end {
        let mut buf = [0; 32];
        let len = count_line(&mut buf, number);
        match write_all(out, &buf[..len]) {
            Ok(()) => (),
            Err(_) => {
                report.end = End::WriteFault;
                report.status = status_of(&report.end);
            }
        }
    }
    report
}

/// Puts the line that says how many functions the sample text of a number has to the front of a buffer, and gives its length.
fn count_line(buf: &mut [u8; 32], number: u32) -> usize
    ensures text { take result buf.new ≡ spec.count_line number }
    ensures within { result ≤ 32 }
{
    let mut end = put(buf, 0, b"functions ");
    end = put_number(buf, end, function_count(number));
    put(buf, end, b"\n")
}

/// Compiles the sample text of a job's number, runs its image by as many workers as the job says, and writes what it puts out and then how
/// many functions the text has. It gives the line of the text in which it trapped, else 0.
pub(crate) fn run_sample<R: Threads + Wait + Sync, K: Sink, G: Gate>(
    rt: &R,
    alloc: Global,
    job: &Job,
    out: &mut K,
    gate: &G,
) -> (Report, u32)
    requires some_workers { 1 ≤ job.now.workers }
    requires few_workers { job.now.workers ≤ 64 }
    requires some_region { 1 ≤ job.now.region }
    requires region { job.now.region ≤ 256 }
    requires some_entries { 1 ≤ job.now.entries }
    requires entries { job.now.entries ≤ 2 ^ 26 }
    // Whatever a host tells, it is not asked.
    ensures end { (told : Option Content) (faults : ℕ) → EndsSample job.now (call_by told told faults faults (K.got out.old) (K.got out.new) (K.faults out.old) (K.faults out.new) result.0) result.0.end }
    ensures line { (told : Option Content) (faults : ℕ) → result.1 ≡ line_by (Some job.now) (option_map (λ image. image.value) result.0.image) (call_by told told faults faults (K.got out.old) (K.got out.new) (K.faults out.old) (K.faults out.new) result.0) }
    ensures status { result.0.status ≡ status_of result.0.end }
{
    let text = match sample(alloc, job.number) {
        Ok(text) => text,
        Err(_) => return (Report::nothing(alloc, End::NoMemory), 0),
    };
    let image = match compiled(alloc, text.as_slice()) {
        Ok(image) => image,
        Err(end) => return (Report::nothing(alloc, end), 0),
    };
    let (report, line) = run_image(rt, alloc, image, job, out, gate);
    (write_count(report, job.number, out), line)
}
