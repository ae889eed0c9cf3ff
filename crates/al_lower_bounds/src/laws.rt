// The laws on what lowered programs keep of the bounds of operations.

ghost use Rattle.std.specs.Prelude.{◌≡◌, ℕ, ◌<◌, ◌≤◌, ◌⊎◌, All, List, length};
ghost use Rattle.al_typed.specs.declared.program.Program.{Program};
ghost use Rattle.al_typed.specs.Measures.{IsWithin};
ghost use Rattle.al_typed.specs.Sound.{HasSoundTypes};
ghost use Rattle.al_typed.specs.WellTyped.{IsWellTyped};
ghost use Rattle.al_ir.specs.declared.ir.Function.{Function};
ghost use Rattle.al_ir.specs.declared.ir.Operation.{Operation};
ghost use Rattle.al_ir.specs.Bounds.{IsLine};
ghost use Rattle.al_ir.specs.Control.{arguments_of, function_at};
ghost use Rattle.al_lower_code.specs.Functions.{lowered};
ghost use Rattle.al_lower_bounds.specs.Lines.{LinesOf};
ghost use Rattle.al_lower_bounds.specs.Parts.{HasRoom, EndsWell};

/// Within the limits, each function of a lowered program has room for what it is given and for what is set aside, private globals
/// have few words, and there are few functions, in all and of each type. The last operation of each function ends it. The main function of a
/// well-typed program is there, and takes nothing, or a count and a pointer. Operations have lines of a text where the names of
/// functions and the statements have.
pub fn lowered_programs_keep_bounds()
    ensures rooms { (p : Program) → IsWithin p → All HasRoom (lowered p).functions }
    ensures ends { (p : Program) → All EndsWell (lowered p).functions }
    ensures count { (p : Program) → IsWithin p → HasSoundTypes p → length (lowered p).functions ≤ 65536 }
    ensures classes { (p : Program) → IsWithin p → HasSoundTypes p → All (λ (fs : List ℕ). length fs ≤ 65536) (lowered p).classes }
    ensures privates { (p : Program) → IsWithin p → (lowered p).privates ≤ 16384 }
    ensures lines { (p : Program) → LinesOf IsLine p → All (λ (f : Function). IsLine f.line × All (λ (o : Operation). IsLine o.line) f.code) (lowered p).functions }
    ensures main { (p : Program) → IsWellTyped p → (lowered p).main < length (lowered p).functions }
    ensures main_words { (p : Program) → IsWellTyped p → (arguments_of (function_at (lowered p) (lowered p).main) ≡ 0) ⊎ (arguments_of (function_at (lowered p) (lowered p).main) ≡ 2) }
{}
