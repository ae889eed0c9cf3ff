// The law on the number of functions.

ghost use Rattle.al_weights.specs.Functions.{FunctionsAreFew};

/// A program of sound types within the limits has at most 65536 functions and branches of pars.
pub fn functions_are_few()
    ensures { FunctionsAreFew }
{}
