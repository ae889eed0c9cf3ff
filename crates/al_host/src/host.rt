ghost use Rattle.std.specs.Prelude.{◌≡◌, ◌≤◌, ◌<◌, ◌⊎◌, ℕ, Option, length, OnOk, OnErr, IfOk};
ghost use Rattle.al_host.specs.Outside.{Content, Counts, Faulted, WhereTold, Finds, LeavesNothing, Reads, Lacks};

use al_base::Failed;

/// Where texts are read from: one text is found by its name, and then read piece by piece.
pub trait Host {
    /// What the host tells of its texts and of what is left to read. A host in memory tells it, a real one doesn't.
    ghost content: { Self → Option Content };

    /// The count of faults. It never falls, and stands at 2^64 - 1 for good.
    ghost faults: { Self → ℕ };

    /// Looks for the text of that name and stands at its beginning.
    fn find(&mut self, name: &str) -> Result<(), Failed>
        ensures found { OnOk result (WhereTold (Finds name.now) (content self.old) (content self.new)) }
        ensures refused { OnErr result (WhereTold LeavesNothing (content self.old) (content self.new)) }
        ensures cause { OnErr result (Faulted (faults self.old) (faults self.new)
            ⊎ (Lacks name.now (content self.old) × (faults self.new ≡ faults self.old))) }
        ensures count { Counts (faults self.old) (faults self.new) result };

    /// Moves a first part of what is left to the front of a buffer, and says its length.
    fn read(&mut self, buf: &mut [u8]) -> Result<usize, Failed>
        ensures within { IfOk result (λ n. n ≤ length buf.old) }
        ensures read { IfOk result (λ n. WhereTold (Reads n buf.new) (content self.old) (content self.new)) }
        ensures refused { OnErr result (content self.new ≡ content self.old) }
        ensures cause { OnErr result (Faulted (faults self.old) (faults self.new)) }
        ensures count { Counts (faults self.old) (faults self.new) result };
}
