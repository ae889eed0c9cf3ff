//! The mode `replay`: a text is compiled, and its image runs along a schedule.

ghost use Rattle.std.specs.Prelude.{◌≡◌, ◌≤◌, Some, option_map};
ghost use Rattle.alef_texts.specs.Status.{status_of};
ghost use Rattle.alef_texts.specs.Call.{call_by};
ghost use Rattle.alef_run.specs.ReplayMode.{EndsReplay};
ghost use Rattle.alef_run.specs.Modes.{line_by};

use crate::compiling::load_program;
use crate::image::replay_image;
use al_host::{Host, Sink};
use al_words::Job;
use alef_texts::{Report, load_schedule};
use std::alloc::Global;

/// Reads the text that a job names and compiles it, then reads the schedule that the job names, runs the image along it and writes what
/// it puts out. It gives the line of the text in which it trapped, else 0.
pub(crate) fn replay<H: Host, K: Sink>(
    alloc: Global,
    job: &Job,
    host: &mut H,
    out: &mut K,
) -> (Report, u32)
    requires some_region { 1 ≤ job.now.region }
    requires region { job.now.region ≤ 256 }
    ensures end { EndsReplay job.now (call_by (H.content host.old) (H.content host.new) (H.faults host.old) (H.faults host.new) (K.got out.old) (K.got out.new) (K.faults out.old) (K.faults out.new) result.0) result.0.end }
    ensures line { result.1 ≡ line_by (Some job.now) (option_map (λ image. image.value) result.0.image) (call_by (H.content host.old) (H.content host.new) (H.faults host.old) (H.faults host.new) (K.got out.old) (K.got out.new) (K.faults out.old) (K.faults out.new) result.0) }
    ensures status { result.0.status ≡ status_of result.0.end }
{
    let image = match load_program(alloc, host, job.file.as_str()) {
        Ok(image) => image,
        Err(end) => return (Report::nothing(alloc, end), 0),
    };
    let schedule = match load_schedule(alloc, host, job.schedule.as_str()) {
        Ok(schedule) => schedule,
        Err(end) => return (Report::nothing(alloc, end), 0),
    };
    replay_image(alloc, image, job, schedule.as_slice(), out)
}
