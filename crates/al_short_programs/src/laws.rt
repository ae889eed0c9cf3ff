// Laws on the programs of texts.

ghost use Rattle.al_short_programs.specs.Bytes.{StringsOfBytes};
ghost use Rattle.al_short_programs.specs.Short.{ProgramsAreShort};

/// The program of a text that is read and checked is short.
pub fn programs_are_short()
    ensures { ProgramsAreShort }
{}

/// The string constants of the program of an accepted text are of bytes where the text is.
pub fn strings_are_bytes()
    ensures { StringsOfBytes }
{}
