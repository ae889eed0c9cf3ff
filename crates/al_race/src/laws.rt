//! What the definitions come to.

ghost use Rattle.std.specs.Prelude.{ℕ, List, ◌↔◌, IsTrue};
ghost use Rattle.al_seen.specs.declared.seen.Seen.{Seen};
ghost use Rattle.al_race.specs.Order.{IsBefore, is_before};

/// One entry is found to be before another exactly where a path of edges leads from it to the other.
pub fn paths_are_found()
    ensures { (run : List Seen) (i j : ℕ) → IsTrue (is_before run i j) ↔ IsBefore run i j }
{}
