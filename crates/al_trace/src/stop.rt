ghost use Rattle.std.specs.Prelude.{◌≡◌};
ghost use Rattle.al_trace.specs.declared.stop.TraceStop.TheVariants as stops;

use al_base::{Failed, NoMemory};

/// Why a schedule was not read.
#[derive(Clone, Copy, Debug, PartialEq, Eq)]
pub enum TraceStop {
    /// The host had a fault.
    ReadFault,
    /// The first line that is not right, counted from 1.
    BadLine(u64),
    /// More bytes follow after as many lines as there can be.
    TooLong,
    NoMemory,
}

impl From<Failed> for TraceStop {
    ghost from_gives = { λ _ stop. stop ≡ stops.ReadFault };

    fn from(_error: Failed) -> TraceStop {
        TraceStop::ReadFault
    }
}

impl From<NoMemory> for TraceStop {
    ghost from_gives = { λ _ stop. stop ≡ stops.NoMemory };

    fn from(_error: NoMemory) -> TraceStop {
        TraceStop::NoMemory
    }
}
