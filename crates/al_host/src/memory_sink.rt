ghost use Rattle.std.specs.Prelude.{◌≡◌, ◌≤◌, ◌<◌, ◌+◌, ◌-◌, ◌^◌, ◌++◌, [], length, take, min, IfOk};
ghost use Rattle.al_host.specs.Memory.{fresh_plan};

use crate::fault_plan::FaultPlan;
use crate::sink::Sink;
use al_base::{Failed, NoMemory};
use std::alloc::Global;
use std::marker::Model;

/// A sink that keeps what it gets in memory.
#[derive(Debug, Drop)]
pub struct MemSink {
    got: Vec<u8>,
    room: usize,
    most: usize,
    plan: FaultPlan,
}

impl Model for MemSink {
    ghost use Rattle.std.specs.Prelude.{◌-◌, ◌≤◌, vec_capacity, vec_len};
    ghost use Rattle.al_host.specs.Memory.{SinkState};

    ghost Value = { SinkState };

    ghost view = { λ s. record { got = s.got.items; room = s.room - vec_len s.got; most = s.most; plan = s.plan } };

    ghost invariant = { λ s. (vec_len s.got ≤ s.room) × (s.room ≤ vec_capacity s.got) };
}

impl MemSink {
    /// A sink that takes at most `most` bytes in a write, and `room` bytes in all, for which it takes memory here and
    /// never later. Its count of faults is 0, and rises at the writes whose numbers, from 1, are in `fail`, and at a
    /// write of a piece that is not empty where no room is left.
    pub fn new(alloc: Global, room: u32, most: u32, fail: Vec<u64>) -> Result<MemSink, NoMemory>
        requires { 1 ≤ most }
        ensures { IfOk result (λ sink. sink ≡ record { got = []; room = room; most = most; plan = fresh_plan fail.items }) }
    {
        let got = Vec::with_capacity(alloc, room as usize)?;
        Ok(MemSink {
            got,
            room: room as usize,
            most: most as usize,
            plan: FaultPlan::new(fail),
        })
    }

    /// What the sink got so far.
    pub fn got(&self) -> &[u8]
        ensures { result.now ≡ self.now.got }
    {
        self.got.as_slice()
    }
}

impl Sink for MemSink {
    ghost use Rattle.std.specs.Prelude.{◌≡◌, ◌≤◌, ◌<◌, ◌++◌, ◌-◌, ◌↔◌, length, take, Some, IsErr, IsTrue, IfOk, OnErr};
    ghost use Rattle.al_host.specs.Outside.{Counts, Faulted, WhereTold, Gets};
    ghost use Rattle.al_host.specs.Memory.{taken, refuses, plan_after};

    ghost got = { λ s. Some s.got };

    ghost faults = { λ s. s.plan.faults };

    fn write(&mut self, piece: &[u8]) -> Result<usize, Failed>
        // as every sink
        ensures within { IfOk result (λ n. n ≤ length piece.now) }
        ensures some { IfOk result (λ n. 0 < length piece.now → 0 < n) }
        ensures got { IfOk result (λ n. WhereTold (Gets n piece.now) (Some self.old.got) (Some self.new.got)) }
        ensures refused { OnErr result (Some self.new.got ≡ Some self.old.got) }
        ensures cause { OnErr result (Faulted self.old.plan.faults self.new.plan.faults) }
        ensures count { Counts self.old.plan.faults self.new.plan.faults result }

        // and exactly
        ensures answer { IsErr result ↔ IsTrue (refuses self.old (length piece.now)) }
        ensures len { IfOk result (λ n. n ≡ taken self.old (length piece.now)) }
        ensures room { IfOk result (λ n. self.new.room ≡ self.old.room - n) }
        ensures same { (self.new.most ≡ self.old.most) × (OnErr result (self.new.room ≡ self.old.room)) }
        ensures plan { self.new.plan ≡ plan_after self.old (length piece.now) }
    {
        if self.plan.call() {
            return Err(Failed);
        }
        let room = self.room - self.got.len();
        let len = piece.len().min(self.most).min(room);
        if len == 0 && !piece.is_empty() {
            self.plan.fault();
            return Err(Failed);
        }
        match self.got.extend_from_slice(&piece[..len]) {
            Ok(()) => Ok(len),
            Err(_) => unreachable!(),
        }
    }
}
