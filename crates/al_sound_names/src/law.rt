// The law on texts that are accepted.

ghost use Rattle.al_sound_names.specs.WellTyped.{AcceptedAreWellTyped};

/// The program of a text that is accepted is well typed with its names.
pub fn accepted_texts_are_well_typed()
    ensures { AcceptedAreWellTyped }
{}
