ghost use Rattle.std.specs.Prelude.{◌≡◌};
ghost use Rattle.al_front.specs.Stops as uses;

use al_base::NoMemory;
use al_lex::{LexFault, LexStop};
use al_poly::{PolyFault, PolyStop};
use al_rules::{TypeFault, TypeStop};
use al_tree::{ParseFault, ParseStop};
use al_type_limits::{TypeLimit, TypesStop};
use al_typed::Limit;

/// Why a text is refused.
#[derive(Clone, Copy, Debug, PartialEq, Eq)]
pub enum Refused {
    /// It can't be cut into tokens.
    Lex(LexFault),
    /// Its tokens have no tree of at most 200 levels.
    Parse(ParseFault),
    /// Its types have too many levels or parts.
    Types(TypeLimit),
    /// A node of its tree breaks a typing rule.
    Typing(TypeFault),
    /// It passes a limit.
    Limit(Limit),
}

/// Why there is no program of a text.
#[derive(Clone, Copy, Debug, PartialEq, Eq)]
pub enum FrontStop {
    Refused(Refused),
    NoMemory,
}

impl From<NoMemory> for FrontStop {
    ghost use Rattle.std.specs.Prelude.{◌≡◌};
    ghost use Rattle.al_front.specs.declared.refused.FrontStop.TheVariants as stops;

    ghost from_gives = { λ _ stop. stop ≡ stops.NoMemory };

    fn from(_: NoMemory) -> FrontStop {
        FrontStop::NoMemory
    }
}

impl From<LexStop> for FrontStop {
    ghost use Rattle.std.specs.Prelude.{◌≡◌};
    ghost use Rattle.al_front.specs.Stops.{of_lex};

    ghost from_gives = { λ stop it. it ≡ of_lex stop };

    fn from(stop: LexStop) -> FrontStop {
        match stop {
            LexStop::Fault(fault) => FrontStop::Refused(Refused::Lex(fault)),
            LexStop::NoMemory => FrontStop::NoMemory,
        }
    }
}

impl From<ParseStop> for FrontStop {
    ghost use Rattle.std.specs.Prelude.{◌≡◌};
    ghost use Rattle.al_front.specs.Stops.{of_parse};

    ghost from_gives = { λ stop it. it ≡ of_parse stop };

    fn from(stop: ParseStop) -> FrontStop {
        match stop {
            ParseStop::Fault(fault) => FrontStop::Refused(Refused::Parse(fault)),
            ParseStop::NoMemory => FrontStop::NoMemory,
        }
    }
}

impl From<TypesStop> for FrontStop {
    ghost use Rattle.std.specs.Prelude.{◌≡◌};
    ghost use Rattle.al_front.specs.Stops.{of_types};

    ghost from_gives = { λ stop it. it ≡ of_types stop };

    fn from(stop: TypesStop) -> FrontStop {
        match stop {
            TypesStop::Limit(limit) => FrontStop::Refused(Refused::Types(limit)),
            TypesStop::NoMemory => FrontStop::NoMemory,
        }
    }
}

impl From<TypeStop> for FrontStop {
    ghost use Rattle.std.specs.Prelude.{◌≡◌};
    ghost use Rattle.al_front.specs.Stops.{of_typing};

    ghost from_gives = { λ stop it. it ≡ of_typing stop };

    fn from(stop: TypeStop) -> FrontStop {
        match stop {
            TypeStop::Fault(fault) => FrontStop::Refused(Refused::Typing(fault)),
            TypeStop::NoMemory => FrontStop::NoMemory,
        }
    }
}

/// What a fault in the uses of adts with parameters refuses a text for.
fn of_uses(fault: PolyFault) -> Refused
    ensures { result ≡ uses.of_uses fault }
{
    match fault {
        PolyFault::UnknownParameter(place) => Refused::Typing(TypeFault { rule: 13, place }),
        PolyFault::WrongCount(place) => Refused::Typing(TypeFault { rule: 14, place }),
        PolyFault::Limit => Refused::Limit(Limit::Instances(257)),
    }
}

impl From<PolyStop> for FrontStop {
    ghost use Rattle.std.specs.Prelude.{◌≡◌};
    ghost use Rattle.al_front.specs.Stops.{of_instances};

    ghost from_gives = { λ stop it. it ≡ of_instances stop };

    fn from(stop: PolyStop) -> FrontStop {
        match stop {
            PolyStop::Fault(fault) => FrontStop::Refused(of_uses(fault)),
            PolyStop::NoMemory => FrontStop::NoMemory,
        }
    }
}
