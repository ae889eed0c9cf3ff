// The values that the lock takes.
ghost use Rattle.std.specs.Prelude.{◌≡◌, ◌<◌, ◌^◌, length};

/// A value that carries its own history, and that may lend something to each worker.
pub trait Kept {
    /// Plain data that no call under the lock changes.
    type Fixed;

    ghost use Rattle.std.specs.Prelude.{◌≡◌, ◌<◌, ◌^◌, length, ℕ, List, Option};
    ghost use base.Stored.{Gv};
    ghost use Rattle.al_event.specs.declared.entry.Entry.{Entry};
    ghost use Rattle.al_event.specs.declared.entry.Loan.{Loan};
    ghost use Rattle.store_lock.specs.Alike.{AreAlike};

    // Its history, from the first entry on. Each entry names the worker that made it.
    ghost entries: { Self → List Entry };

    // What stays the same.
    ghost fixed: { Self → Self.Fixed };

    // What it has lent to the worker of each number.
    ghost lent: { Self → ℕ → Option Loan };

    // The value without its type, so that a pass can know it and need not name the type.
    ghost memo: { Self → Gv };

    /// The length of its history.
    fn count(&self) -> u64
        ensures all { result ≡ length (entries self.now) }
        ensures few { result < 2 ^ 63 };

    ghost memo_tells: { (x y : Self) → memo x ≡ memo y → AreAlike entries fixed lent x y };
}
