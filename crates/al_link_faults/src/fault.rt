use al_base::{NoMemory, Place};
use al_lex::LexFault;
use al_rules::TypeFault;
use al_tree::ParseFault;

/// Why a file is no text by itself.
#[derive(Clone, Copy, Debug, PartialEq, Eq)]
pub enum FrontFault {
    /// It has more than 2^20 bytes.
    Long,
    /// It can't be cut into tokens.
    Lex(LexFault),
    /// Its tokens have no tree of at most 200 levels.
    Parse(ParseFault),
    /// A name or a bound in it breaks rule 1 or 22.
    Typing(TypeFault),
}

/// Why files are no one text.
#[derive(Clone, Copy, Debug, PartialEq, Eq)]
pub enum LinkReason {
    Front(FrontFault),
    /// A name contains `__`.
    Reserved,
    /// A name that type items of one file declare stands in another for something else.
    Differs,
    /// A function is defined in two files.
    Twice,
}

/// Files are no one text for that reason, which is told at a place of one of them. Files are numbered from 1.
#[derive(Clone, Copy, Debug, PartialEq, Eq)]
pub struct LinkFault {
    pub reason: LinkReason,
    pub file: u32,
    pub place: Place,
}

/// Why there is no one text.
#[derive(Clone, Copy, Debug, PartialEq, Eq)]
pub enum LinkStop {
    Fault(LinkFault),
    NoMemory,
}

impl From<NoMemory> for LinkStop {
    ghost use Rattle.std.specs.Prelude.{◌≡◌};
    ghost use Rattle.al_link_faults.specs.declared.fault.LinkStop.TheVariants as stops;

    ghost from_gives = { λ _ stop. stop ≡ stops.NoMemory };

    fn from(_error: NoMemory) -> LinkStop {
        LinkStop::NoMemory
    }
}
