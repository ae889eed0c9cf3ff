//! What holds of recorded schedules.

ghost use Rattle.std.specs.Prelude.{◌≡◌};
ghost use Rattle.al_base.specs.declared.over.Over.{Over};
ghost use Rattle.al_words.specs.declared.job.Job.{Job};
ghost use Rattle.al_typed.specs.declared.program.Program.{Program};
ghost use Rattle.alef_texts.specs.Call.{Call};
ghost use Rattle.alef_texts.specs.declared.report.End.{End};
ghost use Rattle.alef_texts.specs.declared.report.End.TheVariants.{Ran};
ghost use Rattle.alef_run.specs.Meant.{EndsAsMeant};
ghost use Rattle.alef_run.specs.MeantAlong.{ReplaysAsMeant};
ghost use Rattle.alef_run.specs.RecordMode.{unseen};
ghost use Rattle.alef_run.specs.Recorded.{ReplaysAsRecorded};

/// A replay along a recorded schedule, in the same region, ends as the recorded run did and writes what that run put out.
pub fn replays_are_as_recorded()
    ensures { (p : Program) (job again : Job) (recorded replayed : Call) (over : Over) (end : End) → again.region ≡ job.region
        → EndsAsMeant p job (unseen recorded) (Ran over) → ReplaysAsMeant p again recorded.schedule replayed end
        → ReplaysAsRecorded p job recorded replayed over end }
{}
