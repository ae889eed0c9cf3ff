// Laws on the typing rules.

ghost use Rattle.al_sound_statements.specs.Bodies.{BodiesAreSound};
ghost use Rattle.al_sound_statements.specs.Named.{BodiesAreNamed};
ghost use Rattle.al_sound_statements.specs.Gathered.{TypesAreGathered};
ghost use Rattle.al_sound_statements.specs.Statements.{StatementsAreSound};

/// What each tree of a statement gives is well typed, in the body of a switch, of an alt, and elsewhere.
pub fn statements_are_sound()
    ensures { StatementsAreSound }
{}

/// What the tree of a body gives is well typed among any names of sound types.
pub fn bodies_are_sound()
    ensures { BodiesAreSound }
{}

/// What the tree of a body gives is well typed among any names, where its names, jumps and pars lead to what is there.
pub fn bodies_are_named()
    ensures { BodiesAreNamed }
{}

/// The types that are written in a body are among those that are gathered of it, and are asked by the rules of types.
pub fn types_are_gathered()
    ensures { TypesAreGathered }
{}
