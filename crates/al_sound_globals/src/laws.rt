// A law on globals.

ghost use Rattle.al_sound_globals.specs.Globals.{GlobalsAreTyped};

/// The globals of a text have their numbers, private ones are none but those without initializers, what a global starts with stands in
/// ascending order, and the elements of channels are stored.
pub fn globals_are_typed()
    ensures { GlobalsAreTyped }
{}
