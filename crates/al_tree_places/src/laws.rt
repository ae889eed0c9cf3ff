// Laws on the places in the trees of texts.

ghost use Rattle.al_tree_places.specs.Apart.{PlacesAreApart};
ghost use Rattle.al_tree_places.specs.Entries.{EntriesAreFound};
ghost use Rattle.al_tree_places.specs.Few.{BodiesAreFew};

/// In the tree of a text names stand at places of their own, and so do the jumps and labels of a body, and the branches of its pars.
pub fn places_are_apart()
    ensures { PlacesAreApart }
{}

/// Where the names of a text are resolved, there is an entry for each, which is found at its place.
pub fn entries_are_found()
    ensures { EntriesAreFound }
{}

/// The functions of a text, and the branches of pars in them, are no more than its tokens.
pub fn bodies_are_few()
    ensures { BodiesAreFew }
{}
