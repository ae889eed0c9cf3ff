ghost use Rattle.std.specs.Prelude.{◌≡◌};
ghost use Rattle.al_rules.specs.declared.fault.TypeStop.TheVariants as stop;

use al_base::{NoMemory, Place};

/// The node at the place breaks the typing rule of that number.
#[derive(Clone, Copy, Debug, PartialEq, Eq)]
pub struct TypeFault {
    pub rule: u16,
    pub place: Place,
}

/// Why nothing was found.
#[derive(Clone, Copy, Debug, PartialEq, Eq)]
pub enum TypeStop {
    Fault(TypeFault),
    NoMemory,
}

impl From<NoMemory> for TypeStop {
    ghost use Rattle.std.specs.Prelude.{◌≡◌};
    ghost use Rattle.al_rules.specs.declared.fault.TypeStop.TheVariants as stop;

    ghost from_gives = { λ _ s. s ≡ stop.NoMemory };

    fn from(_: NoMemory) -> TypeStop {
        TypeStop::NoMemory
    }
}

/// The node at the place breaks that rule.
pub fn broken(rule: u16, place: Place) -> TypeStop
    ensures { result ≡ stop.Fault (record { rule = rule; place = place }) }
{
    TypeStop::Fault(TypeFault { rule, place })
}
