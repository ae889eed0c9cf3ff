// The law on what programs ask.

ghost use Rattle.std.specs.Prelude.{ℕ, List};
ghost use Rattle.al_event.specs.declared.act.Start.{Start};
ghost use Rattle.al_typed.specs.declared.program.Program.{Program};
ghost use Rattle.al_meaning.specs.Meant.{task_told};
ghost use Rattle.al_meaning.specs.Tasks.{Answer};
ghost use Rattle.al_sense.specs.Sense.{IsReal};

/// What the meaning of any program asks after any answers is never the trap Illegal.
pub fn meanings_never_trap_illegal()
    ensures { (p : Program) (n : ℕ) (start : Start) (privates : List ℕ) (answers : List Answer) → IsReal (task_told p n start privates answers) }
{}
