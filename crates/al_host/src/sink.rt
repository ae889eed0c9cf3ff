ghost use Rattle.std.specs.Prelude.{◌≡◌, ◌≤◌, ◌<◌, ℕ, List, Option, length, OnErr, IfOk};
ghost use Rattle.al_host.specs.Outside.{Counts, Faulted, WhereTold, Gets};

use al_base::Failed;

/// Where bytes are written to.
pub trait Sink {
    /// The bytes that the sink got so far. A sink in memory tells them, a real one doesn't.
    ghost got: { Self → Option (List ℕ) };

    /// The count of faults. It never falls, and stands at 2^64 - 1 for good.
    ghost faults: { Self → ℕ };

    /// Takes a first part of a piece, and says its length. An empty part of a piece that is not empty is a fault.
    fn write(&mut self, piece: &[u8]) -> Result<usize, Failed>
        ensures within { IfOk result (λ n. n ≤ length piece.now) }
        ensures some { IfOk result (λ n. 0 < length piece.now → 0 < n) }
        ensures got { IfOk result (λ n. WhereTold (Gets n piece.now) (got self.old) (got self.new)) }
        ensures refused { OnErr result (got self.new ≡ got self.old) }
        ensures cause { OnErr result (Faulted (faults self.old) (faults self.new)) }
        ensures count { Counts (faults self.old) (faults self.new) result };
}
