// Laws on the signatures of functions.

ghost use Rattle.al_sound_calls.specs.Calls.{FunctionsLead, MethodsLead, NoArrays};

/// The signature of a name outside of adts is that of the function that the text defines by the name, but for the capacities of channels. That of
/// main has the types of main.
pub fn functions_lead()
    ensures { FunctionsLead }
{}

/// The same of the functions of adts, where each instance of the text has a type.
pub fn methods_lead()
    ensures { MethodsLead }
{}

/// No parameter of a definition is an array, and no result is one.
pub fn definitions_have_no_arrays()
    ensures { NoArrays }
{}
