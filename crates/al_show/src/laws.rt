// The law on runs of programs whose types are sound.

ghost use Rattle.al_show.specs.Room.{NoneIsTooLarge};

/// No run of a program whose types are sound, which passes no limit and is short, needs a number that has no room in a word: not in a region of
/// at most 256 MiB, along as many entries as a schedule may have.
pub fn runs_have_room()
    ensures { NoneIsTooLarge }
{}
