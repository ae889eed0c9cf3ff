// The law on written types.

ghost use Rattle.al_sound_written.specs.Written.{WrittenAreSound};

/// Where names stand for types that keep the rules, so does what is written of them, if no part of it breaks a rule at its place, and its bounds and
/// capacities are such as rule 17 asks: rules 7, 16, 17, 18 and 20 hold of the type as a whole.
pub fn written_types_are_sound()
    ensures { WrittenAreSound }
{}
