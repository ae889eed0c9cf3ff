// Laws on the trees of texts.

ghost use Rattle.al_tree_laws.specs.Bases.{BasesArePlain};
ghost use Rattle.al_tree_laws.specs.Counts.{DeclaredAreFew};
ghost use Rattle.al_tree_laws.specs.Unions.{UnionsHaveMembers};
ghost use Rattle.al_tree_laws.specs.Texts.{TextsAreFew};

/// No base type of a declaration is an array.
pub fn bases_are_plain()
    ensures { BasesArePlain }
{}

/// A union with a body has a member.
pub fn unions_have_members()
    ensures { UnionsHaveMembers }
{}

/// Globals and string constants are no more than tokens, and no string constant is longer than the text.
pub fn texts_are_few()
    ensures { TextsAreFew }
{}

/// The parameters, locals, labels and rescues of a function are no more than tokens.
pub fn declared_are_few()
    ensures { DeclaredAreFew }
{}
