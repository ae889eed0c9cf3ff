// A law on the typing rules.

ghost use Rattle.al_sound_flow.specs.Flow.{BodiesHaveTargets};
ghost use Rattle.al_sound_flow.specs.Numbers.{NumbersDiffer};

/// In a body whose jumps keep the rules each goto, raise, break and continue leads to a label, a rescue or a loop of its own function or branch, and
/// labels and rescues have numbers of their own.
pub fn bodies_have_targets()
    ensures { BodiesHaveTargets }
{}

/// The labels and rescues of a function or branch have numbers of their own, below how many there are, and there are as many as are gathered of its
/// body.
pub fn numbers_differ()
    ensures { NumbersDiffer }
{}
