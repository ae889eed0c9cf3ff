// What the definitions come to.

ghost use Rattle.std.specs.Prelude.{ℕ, List, ◌↔◌, ◌<◌, Some, ◌≡◌, ◌⊎◌, length};
ghost use Rattle.al_seen.specs.declared.seen.Seen.{Seen};
ghost use Rattle.al_race.specs.Order.{IsBefore, entry};
ghost use Rattle.al_clocks.specs.Clocks.{AllMade, clocks};

/// An entry that another one knows by its clock, and no other, is that entry or is before it.
pub fn clocks_tell_paths()
    ensures { (run : List Seen) (i j : ℕ) (d : Seen) → AllMade run → j < length run → entry run i ≡ Some d → i < (clocks run).entries j d.task.proc ↔ ((j ≡ i) ⊎ IsBefore run i j) }
{}
