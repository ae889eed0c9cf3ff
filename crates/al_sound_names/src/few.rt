// The law on the number of functions.

ghost use Rattle.al_sound_names.specs.Few.{TextsHaveFewFunctions};

/// A text that has at most 256 instances has at most 2^30 functions and branches of pars.
pub fn texts_have_few_functions()
    ensures { TextsHaveFewFunctions }
{}
