// The law on programs that were lowered.

ghost use Rattle.std.specs.Prelude.{◌≢◌, ℕ, List};
ghost use Rattle.al_event.specs.declared.act.Start.{Start};
ghost use Rattle.al_world.specs.Alike.{SimulatesFrom};
ghost use Rattle.al_typed.specs.declared.program.Program.{Program};
ghost use Rattle.al_meaning.specs.Meaning.{source};
ghost use Rattle.al_meaning.specs.Meant.{task_told};
ghost use Rattle.al_meaning.specs.Tasks.{Answer, Stuck};
ghost use Rattle.al_ir.specs.declared.ir.Ir.{Ir};
ghost use Rattle.al_ir.specs.Meaning.{tasks};
ghost use Rattle.al_lowered.specs.Rules.{AreGood, IsKnownStart, IsPrivate, rules};
ghost use Rattle.al_lowered.specs.Lowered.{Lowered};

/// Where the tasks of operations ask what the meaning of a program says that is told the answers, they ask what its tasks ask:
/// the runs are the same, from each start that the program has, for every region, all globals and every schedule. No such
/// program comes to what its meaning leaves without a sense.
pub fn lowered_programs_run_alike()
    ensures alike { (p : Program) (ir : Ir) (start : Start) → Lowered p ir → IsKnownStart p start → SimulatesFrom (source p) (tasks ir) start }
    ensures sense { (p : Program) (ir : Ir) (n : ℕ) (start : Start) (privates : List ℕ) (answers : List Answer) → Lowered p ir → IsKnownStart p start → IsPrivate p privates → AreGood (rules p) answers → task_told p n start privates answers ≢ Stuck }
{}
