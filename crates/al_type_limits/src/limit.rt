ghost use Rattle.std.specs.Prelude.{◌≡◌};
ghost use Rattle.al_type_limits.specs.Limits as spec;

use crate::size::{PAST_LEVELS, PAST_PARTS, Size};
use al_base::NoMemory;

/// A limit on types that a text passes. The number is the limit plus 1.
#[derive(Clone, Copy, Debug, PartialEq, Eq)]
pub enum TypeLimit {
    /// Levels of one type.
    Depth(u64),
    /// Parts of all types that the text writes.
    Parts(u64),
}

/// Why the types of a text were not found to be within the limits.
#[derive(Clone, Copy, Debug, PartialEq, Eq)]
pub enum TypesStop {
    Limit(TypeLimit),
    NoMemory,
}

impl From<NoMemory> for TypesStop {
    ghost use Rattle.std.specs.Prelude.{◌≡◌};
    ghost use Rattle.al_type_limits.specs.declared.limit.TypesStop.TheVariants as stop;

    ghost from_gives = { λ _ it. it ≡ stop.NoMemory };

    fn from(_: NoMemory) -> TypesStop {
        TypesStop::NoMemory
    }
}

/// The first limit that types of that size pass.
pub(crate) fn passed_by(size: Size) -> Option<TypeLimit>
    ensures { result ≡ spec.passed_by size }
{
    if PAST_LEVELS <= size.levels {
        Some(TypeLimit::Depth(PAST_LEVELS as u64))
    } else if PAST_PARTS <= size.parts {
        Some(TypeLimit::Parts(PAST_PARTS as u64))
    } else {
        None
    }
}
