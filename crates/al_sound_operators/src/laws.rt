// Laws on the typing rules.

ghost use Rattle.al_sound_operators.specs.Operands.{OperandsAreSound};
ghost use Rattle.al_sound_operators.specs.Operators.{OperatorsAreSound};
ghost use Rattle.al_sound_operators.specs.Places.{PlacesAreSound};

/// Operands that are converted, taken or plain are well typed.
pub fn operands_are_sound()
    ensures { OperandsAreSound }
{}

/// What operators, casts, channel operations, print, terminate and sizeof give is well typed.
pub fn operators_are_sound()
    ensures { OperatorsAreSound }
{}

/// What is done with places, and what makes a place, is well typed.
pub fn places_are_sound()
    ensures { PlacesAreSound }
{}
