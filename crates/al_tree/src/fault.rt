ghost use Rattle.std.specs.Prelude.{◌≡◌, ◌<◌, ◌-◌, length};
ghost use Rattle.al_tree.specs.Parts as parts;

use crate::cursor::ParseError;
use al_base::Place;
use al_lex::Tokens;

/// Why tokens are no tree.
#[derive(Clone, Copy, Debug, PartialEq, Eq)]
pub enum ParseReason {
    /// No tree of any height begins with the tokens up to and with this one.
    Unexpected = 1,
    /// All tokens are a proper prefix of some tree and are none.
    EndOfText = 2,
    /// Some tree begins with the tokens up to and with this one, and every such tree is higher than 200.
    Deep = 3,
}

/// A fault at a token. Tokens are counted from 0, the End token included.
#[derive(Clone, Copy, Debug, PartialEq, Eq)]
pub struct ParseFault {
    pub reason: ParseReason,
    pub token: u32,
    pub place: Place,
}

/// Why a parser has no tree to give.
#[derive(Clone, Copy, Debug, PartialEq, Eq)]
pub enum ParseStop {
    Fault(ParseFault),
    NoMemory,
}

impl ParseStop {
    ghost use Rattle.std.specs.Prelude.{◌≡◌};
    ghost use Rattle.al_tree.specs.Parts as parts;

    /// What a parser of these tokens has found where it read nothing.
    #[tactic(auto, unfolding(crate::specs::Parts::stop_of))]
    pub fn of(toks: &Tokens, error: ParseError) -> ParseStop
        ensures { result ≡ parts.stop_of toks.now error }
    {
        let count = toks.len() - 1;
        match error {
            ParseError::NoMemory => ParseStop::NoMemory,
            ParseError::Stuck(left) => {
                let reason = if left == 0 {
                    ParseReason::EndOfText
                } else {
                    ParseReason::Unexpected
                };
                fault_at(toks, reason, count.saturating_sub(left))
            }
            ParseError::Deep(left) => {
                let number = count.saturating_sub(left).saturating_sub(1);
                fault_at(toks, ParseReason::Deep, number)
            }
        }
    }
}

/// A fault at the token of this number.
fn fault_at(toks: &Tokens, reason: ParseReason, number: usize) -> ParseStop
    requires { number < length toks.now.list }
    ensures { result ≡ parts.fault_at toks.now reason number }
{
    let place = match toks.as_slice().get(number) {
        None => Place { line: 1, col: 1 },
        Some(token) => token.place,
    };
    ParseStop::Fault(ParseFault {
        reason,
        token: number as u32,
        place,
    })
}
