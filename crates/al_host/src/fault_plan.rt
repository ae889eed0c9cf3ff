ghost use Rattle.std.specs.Prelude.{◌≡◌, ◌≤◌, ◌<◌, ◌^◌};
ghost use Rattle.al_host.specs.Memory.{fresh_plan, is_due, after_call, with_fault};

use std::marker::Model;

/// Which calls of an object in memory are faults, and how many calls and faults there were.
#[derive(Debug, Drop)]
pub(crate) struct FaultPlan {
    fail: Vec<u64>,
    calls: u64,
    faults: u64,
}

impl Model for FaultPlan {
    ghost use Rattle.std.specs.Prelude.{◌<◌, ◌^◌};
    ghost use Rattle.al_host.specs.Memory.{Plan};

    ghost Value = { Plan };

    ghost view = { λ p. record { fail = p.fail.items; calls = p.calls; faults = p.faults } };

    ghost invariant = { λ p. (p.calls < 2 ^ 64) × (p.faults < 2 ^ 64) };
}

impl FaultPlan {
    pub(crate) fn new(fail: Vec<u64>) -> FaultPlan
        ensures { result ≡ fresh_plan fail.items }
    {
        FaultPlan {
            fail,
            calls: 0,
            faults: 0,
        }
    }

    /// Counts a call, and says whether it is to be a fault, which it counts too.
    pub(crate) fn call(&mut self) -> bool
        ensures due { result ≡ is_due self.old }
        ensures counted { self.new ≡ after_call result self.old }
        ensures before { self.old.faults < 2 ^ 64 }
        ensures after { self.new.faults < 2 ^ 64 }
    {
        let number = self.calls as u128 + 1;
        let due = self.fail.iter().any(|due| *due as u128 == number);
        self.calls = self.calls.saturating_add(1);
        if due {
            self.faults = self.faults.saturating_add(1);
        }
        due
    }

    /// Counts a fault.
    pub(crate) fn fault(&mut self)
        ensures counted { self.new ≡ with_fault self.old }
        ensures before { self.old.faults < 2 ^ 64 }
        ensures after { self.new.faults < 2 ^ 64 }
    {
        self.faults = self.faults.saturating_add(1);
    }
}
