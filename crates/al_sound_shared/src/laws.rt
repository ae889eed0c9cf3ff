// A law on the typing rules.

ghost use Rattle.al_sound_shared.specs.Marked.{SharedAreMarked};

/// A name in a branch of a par that stands for a local of the function that has the par, and a name behind `&` that stands for a local, mark the
/// local as shared.
pub fn shared_are_marked()
    ensures { SharedAreMarked }
{}
