use al_base::NoMemory;
use std::alloc::{AllocError, AllocFailed};

/// Why a text can't be cut into tokens.
#[derive(Clone, Copy, Debug, PartialEq, Eq)]
pub enum LexReason {
    /// A byte where no piece begins.
    BadChar = 1,
    /// The `/` of a `/*` that has no end.
    OpenComment = 2,
    /// The `"` of a string without its end on its line.
    OpenString = 3,
    /// A `\` that begins no escape.
    BadEscape = 4,
    /// The first byte of a number of 2^64 or more.
    NumberTooBig = 5,
}

/// A fault at a byte of the text. Bytes are counted from 0.
#[derive(Clone, Copy, Debug, PartialEq, Eq)]
pub struct LexFault {
    pub reason: LexReason,
    pub byte: u32,
}

/// Why `lex` has no tokens to give.
#[derive(Clone, Copy, Debug, PartialEq, Eq)]
pub enum LexStop {
    Fault(LexFault),
    NoMemory,
}

impl From<LexFault> for LexStop {
    ghost use Rattle.std.specs.Prelude.{◌≡◌};
    ghost use Rattle.al_lex.specs.declared.fault.LexStop.TheVariants as stops;

    ghost from_gives = { λ fault stop. stop ≡ stops.Fault fault };

    fn from(fault: LexFault) -> LexStop {
        LexStop::Fault(fault)
    }
}

impl From<AllocError> for LexStop {
    ghost use Rattle.std.specs.Prelude.{◌≡◌};
    ghost use Rattle.al_lex.specs.declared.fault.LexStop.TheVariants as stops;

    ghost from_gives = { λ _ stop. stop ≡ stops.NoMemory };

    fn from(_error: AllocError) -> LexStop {
        LexStop::NoMemory
    }
}

impl<T: Drop> From<AllocFailed<T>> for LexStop {
    ghost use Rattle.std.specs.Prelude.{◌≡◌};
    ghost use Rattle.al_lex.specs.declared.fault.LexStop.TheVariants as stops;

    ghost from_gives = { λ _ stop. stop ≡ stops.NoMemory };

    fn from(_error: AllocFailed<T>) -> LexStop {
        LexStop::NoMemory
    }
}

impl From<NoMemory> for LexStop {
    ghost use Rattle.std.specs.Prelude.{◌≡◌};
    ghost use Rattle.al_lex.specs.declared.fault.LexStop.TheVariants as stops;

    ghost from_gives = { λ _ stop. stop ≡ stops.NoMemory };

    fn from(_error: NoMemory) -> LexStop {
        LexStop::NoMemory
    }
}
