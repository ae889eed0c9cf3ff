ghost use Rattle.al_link_laws.specs.Laws.{OwnText};

/// One file whose names are all for all files gives its own tokens.
pub fn own_text_law()
    ensures { OwnText }
{}
