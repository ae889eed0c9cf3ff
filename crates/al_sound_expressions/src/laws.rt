// Laws on the typing rules.

ghost use Rattle.al_sound_expressions.specs.Expressions.{ExpressionsAreSound};

/// What each tree of an expression gives is well typed: as a value, as one that is dropped, as what stands on the left of `=`,
/// and as what is called.
pub fn expressions_are_sound()
    ensures { ExpressionsAreSound }
{}
