// Laws of code that is laid out piece by piece, and of the runs that it makes.

ghost use Rattle.rv_code.specs.Laws.{AskWhatTheyComeTo, HasItsLine};

/// What a hart at the start of a stretch comes to by its instructions, however many more would be left to it, is what it asks.
pub fn harts_ask_what_they_come_to()
    ensures { AskWhatTheyComeTo }
{}

/// In the line rows of pieces that stand behind one another, each word of a piece has the line of its piece.
pub fn each_piece_has_its_line()
    ensures { HasItsLine }
{}
