// A law on the typing rules.

ghost use Rattle.al_sound_programs.specs.Programs.{ProgramsAreSound};

/// The program of a text that the typing rules accept has sound types: the terms of its bodies are well typed among any names of
/// sound types, its variables are stored, and its globals start within themselves.
pub fn programs_are_sound()
    ensures { ProgramsAreSound }
{}
