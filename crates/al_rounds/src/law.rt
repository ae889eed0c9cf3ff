//! What holds along every run.

ghost use Rattle.std.specs.Prelude.{List, IsSome};
ghost use Rattle.al_event.specs.declared.entry.Entry.{Entry};
ghost use Rattle.al_core.specs.History.{History, run_of};
ghost use Rattle.al_rounds.specs.Later.{followed_by, PutsOutMore};

/// What was put out stays put out: along each run the output only grows.
pub fn output_stays()
    ensures { (h : History) (more : List Entry) → IsSome (run_of (followed_by more h)) → PutsOutMore more h }
{}
