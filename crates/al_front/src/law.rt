//! What is known of accepted and refused texts.
ghost use Rattle.std.specs.Prelude.{◌≡◌, ℕ, List};
ghost use Rattle.al_typed.specs.declared.program.Program.{Program as SpecProgram};
ghost use Rattle.al_typed.specs.Measures.{IsWithin};
ghost use Rattle.al_front.specs.declared.refused.Refused.{Refused as Reason};
ghost use Rattle.al_front.specs.Accepted.{IsAccepted, IsRefused};

/// The laws of acceptance: an accepted text has one program, and where that is within the limits, the text is refused for nothing.
/// The function does nothing.
pub fn acceptance_laws()
    ensures one_program { (text : List ℕ) (p : SpecProgram) (q : SpecProgram) → IsAccepted text p → IsAccepted text q → p ≡ q }
    ensures never_both { (text : List ℕ) (p : SpecProgram) (r : Reason) → IsAccepted text p → IsWithin p → IsRefused text r → ⊥ }
{}
