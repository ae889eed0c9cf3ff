// The law on texts that are accepted.

ghost use Rattle.al_sound_texts.specs.Texts.{AcceptedAreSound};

/// The program of a text that is accepted has sound types, and few strings and globals.
pub fn accepted_texts_are_sound()
    ensures { AcceptedAreSound }
{}
