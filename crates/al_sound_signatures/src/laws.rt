// Laws on the signatures of definitions.

ghost use Rattle.al_sound_signatures.specs.Signatures.{SignaturesArePlain};

/// No parameter of a function that a text defines is an array, and a result is void, or complete and no array.
pub fn signatures_are_plain()
    ensures { SignaturesArePlain }
{}
