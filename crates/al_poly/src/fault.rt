ghost use Rattle.std.specs.Prelude.{◌≡◌};
ghost use Rattle.al_poly.specs.declared.fault.PolyStop.TheVariants as stop;

use al_base::{NoMemory, Place};

/// A use of a type's name that breaks a rule.
#[derive(Clone, Copy)]
pub(crate) enum Misuse {
    UnknownParameter(Place),
    WrongCount(Place),
}

/// Why a text has no list of instances.
#[derive(Clone, Copy, Debug, PartialEq, Eq)]
pub enum PolyFault {
    /// Type arguments stand after what is no adt with parameters (rule 13).
    UnknownParameter(Place),
    /// Type arguments are not as many as the adt's parameters, or are missing outside of it (rule 14).
    WrongCount(Place),
    /// There are more than 256.
    Limit,
}

/// Why no list of instances was found.
#[derive(Clone, Copy, Debug, PartialEq, Eq)]
pub enum PolyStop {
    Fault(PolyFault),
    NoMemory,
}

impl From<NoMemory> for PolyStop {
    ghost use Rattle.std.specs.Prelude.{◌≡◌};
    ghost use Rattle.al_poly.specs.declared.fault.PolyStop.TheVariants as stop;

    ghost from_gives = { λ _ s. s ≡ stop.NoMemory };

    fn from(_: NoMemory) -> PolyStop {
        PolyStop::NoMemory
    }
}
