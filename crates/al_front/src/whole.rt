//! The front end.
ghost use Rattle.std.specs.Prelude.{◌≡◌, ◌≢◌, Ok, Err, IfOk};
ghost use Rattle.al_typed.specs.declared.program.Program.{Program as SpecProgram};
ghost use Rattle.al_typed.specs.Layout.{IsLaidOut};
ghost use Rattle.al_typed.specs.Measures.{IsWithin};
ghost use Rattle.al_front.specs.declared.refused.Refused.{Refused as Reason};
ghost use Rattle.al_front.specs.Accepted.{IsAccepted, IsRefused};

use crate::refused::{FrontStop, Refused};
use crate::stage::{program_of, tree_of};
use al_typed::{Limit, Program};
use std::alloc::Global;

/// A text has at most so many bytes.
const MOST_BYTES: usize = 1 << 20;

/// The typed program of a text, where it is accepted and within the limits; else why it is refused, and the first that holds of:
/// more than 2^20 bytes, no tokens, no tree of at most 200 levels, a type of too many levels, types of too many parts, more than 256 instances, a typing rule that is broken, a
/// value too wide, a program or a function too heavy, a function with too many slots.
pub fn front(alloc: Global, text: &[u8]) -> Result<Program, FrontStop>
    ensures program { IfOk result (λ p. IsAccepted text.now p × IsWithin p) }
    ensures laid { IfOk result (λ p. IsLaidOut p.aggregates) }
    ensures refused { (r : Reason) → result ≡ Err (FrontStop.Refused r) → IsRefused text.now r }
    ensures made { (p : SpecProgram) → IsAccepted text.now p → IsWithin p → result ≢ Err FrontStop.NoMemory → result ≡ Ok p }
{
    if text.len() > MOST_BYTES {
        let limit = Limit::Long(MOST_BYTES as u64 + 1);
        return Err(FrontStop::Refused(Refused::Limit(limit)));
    }
    let tree = tree_of(alloc, text)?;
    program_of(alloc, &tree)
}
