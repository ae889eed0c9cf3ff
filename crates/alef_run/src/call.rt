//! The top call.

ghost use Rattle.std.specs.Prelude.{◌≡◌, ◌≢◌, ◌↔◌, ◌<◌, ◌≤◌, ◌⊎◌, ℕ, List, [], length, None, Some, IsSome, Err, map, option_map};
ghost use Rattle.al_base.specs.declared.over.Over.{Over as Ending};
ghost use Rattle.al_host.specs.Outside.{Faulted, WhereTold};
ghost use Rattle.al_words.specs.declared.job.Job.{Job};
ghost use Rattle.al_words.specs.declared.job.Mode.TheVariants as Mode;
ghost use Rattle.rv_isa.specs.declared.image.Contents.{Contents};
ghost use Rattle.rv_image.specs.declared.fault.ImageFault.{ImageFault};
ghost use Rattle.rv_image.specs.Spelling.{IsImage};
ghost use Rattle.rv_image.specs.Reading.{reading};
ghost use Rattle.al_event.specs.declared.entry.Entry.{Entry};
ghost use Rattle.al_trace.specs.Schedule.{IsSchedule};
ghost use Rattle.al_typed.specs.declared.program.Program.{Program};
ghost use Rattle.al_typed.specs.Measures.{IsWithin};
ghost use Rattle.al_meaning.specs.Meaning.{run};
ghost use Rattle.al_front.specs.Accepted.{IsAccepted, IsRefused};
ghost use Rattle.al_front.specs.declared.refused.Refused.{Refused as Reason};
ghost use Rattle.al_show.specs.Walks.{IsRefused as IsEntryRefused};
ghost use Rattle.alef_texts.specs.declared.report.ScheduleFault.{ScheduleFault};
ghost use Rattle.alef_texts.specs.Status.{status_of, line_of_end};
ghost use Rattle.alef_texts.specs.Call.{LogGets, LacksText, text_in, call_by};
ghost use Rattle.alef_texts.specs.CheckMode.{HasProgram};
ghost use Rattle.alef_texts.specs.Load.{IsBadSchedule};
ghost use Rattle.al_sample.specs.Sample.{sample_text};
ghost use Rattle.alef_run.specs.Meant.{EndsAsMeant};
ghost use Rattle.alef_run.specs.MeantAlong.{ReplaysAsMeant};
ghost use Rattle.alef_run.specs.RecordMode.{unseen};
ghost use Rattle.alef_texts.specs.StepMode.{bytes_of_region, first_of};
ghost use Rattle.alef_run.specs.Modes.{Ends, job_by, line_in};

use crate::build::build;
use crate::exec::exec;
use crate::record::record;
use crate::replay::replay;
use crate::run::run;
use crate::sample::run_sample;
use al_host::{Host, Sink};
use al_rounds::Gate;
use al_words::{Mode, WordsStop, read_job};
use alef_texts::{End, Report, check, line_of, step, write_all};
use std::alloc::Global;
use std::sync::Wait;
use std::thread::Threads;

/// All of a call but its log, and the line of the text in which the run trapped, else 0.
fn serve<R: Threads + Wait + Sync, H: Host, K: Sink, G: Gate>(
    rt: &R,
    alloc: Global,
    words: &[&str],
    host: &mut H,
    out: &mut K,
    gate: &G,
) -> (Report, u32)
    ensures end { Ends (map (λ word. word.now) words.now) (call_by (H.content host.old) (H.content host.new) (H.faults host.old) (H.faults host.new) (K.got out.old) (K.got out.new) (K.faults out.old) (K.faults out.new) result.0) result.0.end }
    ensures line { result.1 ≡ line_in (map (λ word. word.now) words.now) (call_by (H.content host.old) (H.content host.new) (H.faults host.old) (H.faults host.new) (K.got out.old) (K.got out.new) (K.faults out.old) (K.faults out.new) result.0) }
    ensures status { result.0.status ≡ status_of result.0.end }
{
    let job = match read_job(alloc, words) {
        Ok(job) => job,
        Err(WordsStop::Fault(_)) => return (Report::nothing(alloc, End::Words), 0),
        Err(WordsStop::NoMemory) => return (Report::nothing(alloc, End::NoMemory), 0),
    };
    match job.mode {
        Mode::Run => run(rt, alloc, &job, host, out, gate),
        Mode::Replay => replay(alloc, &job, host, out),
        Mode::Recorded => record(rt, alloc, &job, host, out, gate),
        Mode::Sample => run_sample(rt, alloc, &job, out, gate),
        Mode::Build => (build(alloc, job.file.as_str(), host, out), 0),
        Mode::Exec => exec(rt, alloc, &job, host, out, gate),
        Mode::Check => (check(alloc, job.file.as_str(), host), 0),
        Mode::Step => (step(alloc, &job, host, out), 0),
        // the other modes are yet to come
        _ => (Report::nothing(alloc, End::Words), 0),
    }
}

/// Writes the line of an end to the log. A fault of the log changes nothing else.
fn write_line<L: Sink>(end: &End, line: u32, log: &mut L)
    ensures { LogGets (line_of_end line end.now) (L.got log.old) (L.got log.new) (L.faults log.old) (L.faults log.new) }
{
    let mut buf = [0; 80];
    match write_all(log, line_of(end, line, &mut buf)) {
        Ok(()) => (),
        Err(_) => (),
    }
}

/// The command `alef`. `run FILE` reads the text of that name, compiles it, runs its image by workers on threads, each stretch by the gate,
/// and writes what it puts out; `build FILE` writes the image instead; `exec IMAGE` reads the image of that name and runs it as `run`
/// does; `check FILE` says whether the text is accepted, within the limits; `step FILE SCHEDULE` writes the world of the text after the
/// first entries of the schedule; `replay FILE SCHEDULE` runs the text along the schedule, on one thread; `record FILE` runs it as `run`
/// does and writes the schedule in place of the output; `sample` runs the sample text of a number. It says what it did, and writes a
/// line to the log where it did not end well.
pub fn alef<R: Threads + Wait + Sync, H: Host, K: Sink, L: Sink, G: Gate>(
    rt: &R,
    alloc: Global,
    words: &[&str],
    host: &mut H,
    out: &mut K,
    log: &mut L,
    gate: &G,
) -> Report
    // Why the call ends as it does, and what it did.
    ensures end { Ends (map (λ word. word.now) words.now) (call_by (H.content host.old) (H.content host.new) (H.faults host.old) (H.faults host.new) (K.got out.old) (K.got out.new) (K.faults out.old) (K.faults out.new) result) result.end }
    ensures status { result.status ≡ status_of result.end }
    ensures log { LogGets (line_of_end (line_in (map (λ word. word.now) words.now) (call_by (H.content host.old) (H.content host.new) (H.faults host.old) (H.faults host.new) (K.got out.old) (K.got out.new) (K.faults out.old) (K.faults out.new) result)) result.end) (L.got log.old) (L.got log.new) (L.faults log.old) (L.faults log.new) }

    // Each cause has its end, unless memory ran out before.
    ensures words { result.end ≡ End.Words → job_by (map (λ word. word.now) words.now) ≡ None }
    ensures no_job { job_by (map (λ word. word.now) words.now) ≡ None → (result.end ≡ End.Words) ⊎ (result.end ≡ End.NoMemory) }
    ensures missing { (job : Job) → job_by (map (λ word. word.now) words.now) ≡ Some job → job.mode ≢ Mode.Sample
        → LacksText (H.content host.old) job.file → (result.end ≡ End.ReadFault) ⊎ (result.end ≡ End.NoMemory) }
    ensures host_fault { H.faults host.old < H.faults host.new → result.end ≡ End.ReadFault }
    ensures out_fault { K.faults out.old < K.faults out.new → result.end ≡ End.WriteFault }
    ensures run_refused { (job : Job) (text : List ℕ) → job_by (map (λ word. word.now) words.now) ≡ Some job → job.mode ≡ Mode.Run
        → text_in (H.content host.old) job.file ≡ Some text → ¬ (HasProgram text)
        → ((reason : Reason) × (result.end ≡ End.Refused reason) × IsRefused text reason) ⊎ ((result.end ≡ End.ReadFault) ⊎ (result.end ≡ End.NoMemory)) }
    ensures build_refused { (job : Job) (text : List ℕ) → job_by (map (λ word. word.now) words.now) ≡ Some job → job.mode ≡ Mode.Build
        → text_in (H.content host.old) job.file ≡ Some text → ¬ (HasProgram text)
        → ((reason : Reason) × (result.end ≡ End.Refused reason) × IsRefused text reason) ⊎ ((result.end ≡ End.ReadFault) ⊎ (result.end ≡ End.NoMemory)) }
    ensures no_image { (job : Job) (text : List ℕ) (fault : ImageFault) → job_by (map (λ word. word.now) words.now) ≡ Some job → job.mode ≡ Mode.Exec
        → text_in (H.content host.old) job.file ≡ Some text → reading text ≡ Err fault
        → (result.end ≡ End.BadImage fault) ⊎ ((result.end ≡ End.ReadFault) ⊎ (result.end ≡ End.NoMemory)) }
    ensures check_refused { (job : Job) (text : List ℕ) → job_by (map (λ word. word.now) words.now) ≡ Some job → job.mode ≡ Mode.Check
        → text_in (H.content host.old) job.file ≡ Some text → ¬ (HasProgram text)
        → ((reason : Reason) × (result.end ≡ End.Refused reason) × IsRefused text reason) ⊎ ((result.end ≡ End.ReadFault) ⊎ (result.end ≡ End.NoMemory)) }

    // The same of stepping along a schedule: the text is looked at first, then the schedule, then how many entries it has, and then
    // the entries one after the other.
    ensures step_refused { (job : Job) (text : List ℕ) → job_by (map (λ word. word.now) words.now) ≡ Some job → job.mode ≡ Mode.Step
        → text_in (H.content host.old) job.file ≡ Some text → ¬ (HasProgram text)
        → ((reason : Reason) × (result.end ≡ End.Refused reason) × IsRefused text reason) ⊎ ((result.end ≡ End.ReadFault) ⊎ (result.end ≡ End.NoMemory)) }
    ensures missing_schedule { (job : Job) (text : List ℕ) → job_by (map (λ word. word.now) words.now) ≡ Some job → job.mode ≡ Mode.Step
        → text_in (H.content host.old) job.file ≡ Some text → HasProgram text → LacksText (H.content host.old) job.schedule
        → (result.end ≡ End.ReadFault) ⊎ (result.end ≡ End.NoMemory) }
    ensures bad_schedule { (job : Job) (text schedule : List ℕ) (fault : ScheduleFault) → job_by (map (λ word. word.now) words.now) ≡ Some job → job.mode ≡ Mode.Step
        → text_in (H.content host.old) job.file ≡ Some text → HasProgram text
        → text_in (H.content host.old) job.schedule ≡ Some schedule → IsBadSchedule fault schedule
        → (result.end ≡ End.BadSchedule fault) ⊎ ((result.end ≡ End.ReadFault) ⊎ (result.end ≡ End.NoMemory)) }
    ensures bad_number { (job : Job) (text schedule : List ℕ) (h : List Entry) → job_by (map (λ word. word.now) words.now) ≡ Some job → job.mode ≡ Mode.Step
        → text_in (H.content host.old) job.file ≡ Some text → HasProgram text
        → text_in (H.content host.old) job.schedule ≡ Some schedule → IsSchedule schedule h → length h < job.number
        → (result.end ≡ End.BadNumber (length h)) ⊎ ((result.end ≡ End.ReadFault) ⊎ (result.end ≡ End.NoMemory)) }
    ensures bad_entry { (job : Job) (text schedule : List ℕ) (p : Program) (h : List Entry) (k : ℕ) → job_by (map (λ word. word.now) words.now) ≡ Some job → job.mode ≡ Mode.Step
        → text_in (H.content host.old) job.file ≡ Some text → IsAccepted text p → IsWithin p
        → text_in (H.content host.old) job.schedule ≡ Some schedule → IsSchedule schedule h → job.number ≤ length h
        → IsEntryRefused p (bytes_of_region job) (first_of job h) k
        → (result.end ≡ End.BadEntry k) ⊎ ((result.end ≡ End.ReadFault) ⊎ (result.end ≡ End.NoMemory)) }

    // `run` writes just the output that the text's meaning gives along the schedule, and ends as it ends there.
    ensures meant { (job : Job) (text : List ℕ) (p : Program) → job_by (map (λ word. word.now) words.now) ≡ Some job → job.mode ≡ Mode.Run
        → text_in (H.content host.old) job.file ≡ Some text → IsAccepted text p → IsWithin p
        → EndsAsMeant p job (call_by (H.content host.old) (H.content host.new) (H.faults host.old) (H.faults host.new) (K.got out.old) (K.got out.new) (K.faults out.old) (K.faults out.new) result) result.end }

    // A text that is accepted within the limits and an image run to their end, and such a text is built and is found to be so, unless the
    // world outside has a fault or memory runs out.
    ensures run { (job : Job) (text : List ℕ) → job_by (map (λ word. word.now) words.now) ≡ Some job → job.mode ≡ Mode.Run
        → text_in (H.content host.old) job.file ≡ Some text → HasProgram text
        → ¬ (Faulted (H.faults host.old) (H.faults host.new)) → ¬ (Faulted (K.faults out.old) (K.faults out.new))
        → ((over : Ending) × (result.end ≡ End.Ran over)) ⊎ (result.end ≡ End.NoMemory) }
    ensures build { (job : Job) (text : List ℕ) → job_by (map (λ word. word.now) words.now) ≡ Some job → job.mode ≡ Mode.Build
        → text_in (H.content host.old) job.file ≡ Some text → HasProgram text
        → ¬ (Faulted (H.faults host.old) (H.faults host.new)) → ¬ (Faulted (K.faults out.old) (K.faults out.new))
        → (result.end ≡ End.Made) ⊎ (result.end ≡ End.NoMemory) }
    ensures exec { (job : Job) (text : List ℕ) (image : Contents) → job_by (map (λ word. word.now) words.now) ≡ Some job → job.mode ≡ Mode.Exec
        → text_in (H.content host.old) job.file ≡ Some text → IsImage text image
        → ¬ (Faulted (H.faults host.old) (H.faults host.new)) → ¬ (Faulted (K.faults out.old) (K.faults out.new))
        → ((over : Ending) × (result.end ≡ End.Ran over)) ⊎ (result.end ≡ End.NoMemory) }
    ensures check { (job : Job) (text : List ℕ) → job_by (map (λ word. word.now) words.now) ≡ Some job → job.mode ≡ Mode.Check
        → text_in (H.content host.old) job.file ≡ Some text → HasProgram text → ¬ (Faulted (H.faults host.old) (H.faults host.new))
        → (result.end ≡ End.Made) ⊎ (result.end ≡ End.NoMemory) }

    // The world after entries that are permitted is shown.
    ensures step { (job : Job) (text schedule : List ℕ) (p : Program) (h : List Entry) → job_by (map (λ word. word.now) words.now) ≡ Some job → job.mode ≡ Mode.Step
        → text_in (H.content host.old) job.file ≡ Some text → IsAccepted text p → IsWithin p
        → text_in (H.content host.old) job.schedule ≡ Some schedule → IsSchedule schedule h → job.number ≤ length h
        → IsSome (run p (bytes_of_region job) (first_of job h))
        → ¬ (Faulted (H.faults host.old) (H.faults host.new)) → ¬ (Faulted (K.faults out.old) (K.faults out.new))
        → (result.end ≡ End.Made) ⊎ (result.end ≡ End.NoMemory) }

    // The same of running along a schedule: the text is looked at first, then the schedule, and then the entries one after the other.
    ensures replay_refused { (job : Job) (text : List ℕ) → job_by (map (λ word. word.now) words.now) ≡ Some job → job.mode ≡ Mode.Replay
        → text_in (H.content host.old) job.file ≡ Some text → ¬ (HasProgram text)
        → ((reason : Reason) × (result.end ≡ End.Refused reason) × IsRefused text reason) ⊎ ((result.end ≡ End.ReadFault) ⊎ (result.end ≡ End.NoMemory)) }
    ensures replay_missing { (job : Job) (text : List ℕ) → job_by (map (λ word. word.now) words.now) ≡ Some job → job.mode ≡ Mode.Replay
        → text_in (H.content host.old) job.file ≡ Some text → HasProgram text → LacksText (H.content host.old) job.schedule
        → (result.end ≡ End.ReadFault) ⊎ (result.end ≡ End.NoMemory) }
    ensures replay_bad_schedule { (job : Job) (text schedule : List ℕ) (fault : ScheduleFault) → job_by (map (λ word. word.now) words.now) ≡ Some job → job.mode ≡ Mode.Replay
        → text_in (H.content host.old) job.file ≡ Some text → HasProgram text
        → text_in (H.content host.old) job.schedule ≡ Some schedule → IsBadSchedule fault schedule
        → (result.end ≡ End.BadSchedule fault) ⊎ ((result.end ≡ End.ReadFault) ⊎ (result.end ≡ End.NoMemory)) }
    ensures replay_meant { (job : Job) (text schedule : List ℕ) (p : Program) (h : List Entry) → job_by (map (λ word. word.now) words.now) ≡ Some job → job.mode ≡ Mode.Replay
        → text_in (H.content host.old) job.file ≡ Some text → IsAccepted text p → IsWithin p
        → text_in (H.content host.old) job.schedule ≡ Some schedule → IsSchedule schedule h
        → ReplaysAsMeant p job h (call_by (H.content host.old) (H.content host.new) (H.faults host.old) (H.faults host.new) (K.got out.old) (K.got out.new) (K.faults out.old) (K.faults out.new) result) result.end }
    ensures replay_bad_entry { (job : Job) (text schedule : List ℕ) (p : Program) (h : List Entry) (k : ℕ) → job_by (map (λ word. word.now) words.now) ≡ Some job → job.mode ≡ Mode.Replay
        → text_in (H.content host.old) job.file ≡ Some text → IsAccepted text p → IsWithin p
        → text_in (H.content host.old) job.schedule ≡ Some schedule → IsSchedule schedule h → IsEntryRefused p (bytes_of_region job) h k
        → ¬ (Faulted (H.faults host.old) (H.faults host.new)) → ¬ (Faulted (K.faults out.old) (K.faults out.new))
        → (result.end ≡ End.BadEntry k) ⊎ (result.end ≡ End.NoMemory) }
    ensures replay { (job : Job) (text schedule : List ℕ) (p : Program) (h : List Entry) → job_by (map (λ word. word.now) words.now) ≡ Some job → job.mode ≡ Mode.Replay
        → text_in (H.content host.old) job.file ≡ Some text → IsAccepted text p → IsWithin p
        → text_in (H.content host.old) job.schedule ≡ Some schedule → IsSchedule schedule h → IsSome (run p (bytes_of_region job) h)
        → ¬ (Faulted (H.faults host.old) (H.faults host.new)) → ¬ (Faulted (K.faults out.old) (K.faults out.new))
        → ((over : Ending) × (result.end ≡ End.Ran over)) ⊎ (result.end ≡ End.NoMemory) }

    // A recorded run is one that the text's meaning has, and all that is accepted, within the limits, is recorded.
    ensures record_refused { (job : Job) (text : List ℕ) → job_by (map (λ word. word.now) words.now) ≡ Some job → job.mode ≡ Mode.Recorded
        → text_in (H.content host.old) job.file ≡ Some text → ¬ (HasProgram text)
        → ((reason : Reason) × (result.end ≡ End.Refused reason) × IsRefused text reason) ⊎ ((result.end ≡ End.ReadFault) ⊎ (result.end ≡ End.NoMemory)) }
    ensures record_meant { (job : Job) (text : List ℕ) (p : Program) → job_by (map (λ word. word.now) words.now) ≡ Some job → job.mode ≡ Mode.Recorded
        → text_in (H.content host.old) job.file ≡ Some text → IsAccepted text p → IsWithin p
        → EndsAsMeant p job (unseen (call_by (H.content host.old) (H.content host.new) (H.faults host.old) (H.faults host.new) (K.got out.old) (K.got out.new) (K.faults out.old) (K.faults out.new) result)) result.end }
    ensures record { (job : Job) (text : List ℕ) → job_by (map (λ word. word.now) words.now) ≡ Some job → job.mode ≡ Mode.Recorded
        → text_in (H.content host.old) job.file ≡ Some text → HasProgram text
        → ¬ (Faulted (H.faults host.old) (H.faults host.new)) → ¬ (Faulted (K.faults out.old) (K.faults out.new))
        → ((over : Ending) × (result.end ≡ End.Ran over)) ⊎ (result.end ≡ End.NoMemory) }

    // A sample text that is accepted within the limits runs to its end.
    ensures sample { (job : Job) → job_by (map (λ word. word.now) words.now) ≡ Some job → job.mode ≡ Mode.Sample → HasProgram (sample_text job.number) → ¬ (Faulted (K.faults out.old) (K.faults out.new))
        → ((over : Ending) × (result.end ≡ End.Ran over)) ⊎ (result.end ≡ End.NoMemory) }
{
    let (report, line) = serve(rt, alloc, words, host, out, gate);
    write_line(&report.end, line, log);
    report
}
