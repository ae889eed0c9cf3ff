//! The mode `exec`: an image runs.

ghost use Rattle.std.specs.Prelude.{◌≡◌, ◌^◌, ◌≤◌, Some, option_map};
ghost use Rattle.alef_texts.specs.Status.{status_of};
ghost use Rattle.alef_texts.specs.Call.{call_by};
ghost use Rattle.alef_run.specs.ExecMode.{EndsExec};
ghost use Rattle.alef_run.specs.Modes.{line_by};

use crate::image::run_image;
use al_host::{Host, Sink};
use al_rounds::Gate;
use al_words::Job;
use alef_texts::{Report, load_image};
use std::alloc::Global;
use std::sync::Wait;
use std::thread::Threads;

/// Reads the image that a job names, runs it by as many workers as the job says and writes what it puts out. It gives the line of the text in which it trapped, else 0.
pub(crate) fn exec<R: Threads + Wait + Sync, H: Host, K: Sink, G: Gate>(
    rt: &R,
    alloc: Global,
    job: &Job,
    host: &mut H,
    out: &mut K,
    gate: &G,
) -> (Report, u32)
    requires some_workers { 1 ≤ job.now.workers }
    requires few_workers { job.now.workers ≤ 64 }
    requires some_region { 1 ≤ job.now.region }
    requires region { job.now.region ≤ 256 }
    requires some_entries { 1 ≤ job.now.entries }
    requires entries { job.now.entries ≤ 2 ^ 26 }
    ensures end { EndsExec job.now (call_by (H.content host.old) (H.content host.new) (H.faults host.old) (H.faults host.new) (K.got out.old) (K.got out.new) (K.faults out.old) (K.faults out.new) result.0) result.0.end }
    ensures line { result.1 ≡ line_by (Some job.now) (option_map (λ image. image.value) result.0.image) (call_by (H.content host.old) (H.content host.new) (H.faults host.old) (H.faults host.new) (K.got out.old) (K.got out.new) (K.faults out.old) (K.faults out.new) result.0) }
    ensures status { result.0.status ≡ status_of result.0.end }
{
    let image = match load_image(alloc, host, job.file.as_str()) {
        Ok(image) => image,
        Err(end) => return (Report::nothing(alloc, end), 0),
    };
    run_image(rt, alloc, image, job, out, gate)
}
