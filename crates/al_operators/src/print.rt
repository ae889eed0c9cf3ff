//! Print and terminate.
ghost use Rattle.std.specs.Prelude.{◌≡◌, IfOk};
ghost use Rattle.al_rules.specs.Outcome.{Answers};
ghost use Rattle.al_operators.specs.Operators as spec;
ghost use Rattle.al_operators.specs.Formats as format;

use al_base::{Kind, NoMemory, Place};
use al_convert::is_integer;
use al_items::{Boxed, Items};
use al_operands::{Operand, asked, in_kind, present, promoted_kind, rule_36_prints, taken};
use al_rules::TypeStop;
use al_typed::{PrintPiece, TExpr, Ty};
use std::alloc::Global;

/// What a byte behind `%` means.
fn verb(byte: u8) -> Option<PrintPiece>
    ensures { result ≡ format.verb byte }
{
    if byte == b'd' {
        Some(PrintPiece::Signed)
    } else if byte == b'u' {
        Some(PrintPiece::Unsigned)
    } else if byte == b'x' {
        Some(PrintPiece::Hexadecimal)
    } else if byte == b'c' {
        Some(PrintPiece::Character)
    } else if byte == b's' {
        Some(PrintPiece::Text)
    } else if byte == b'%' {
        Some(PrintPiece::Percent)
    } else {
        None
    }
}

/// The pieces of a print's format. They are missing where a `%` is followed by no verb.
#[tactic(auto, using(crate::proofs::FormatsAre::pieces_are))]
pub fn pieces(alloc: Global, bytes: &[u8]) -> Result<Option<Items<PrintPiece>>, NoMemory>
    ensures { IfOk result (λ p. p ≡ format.pieces bytes.now) }
{
    let mut done = Items::new(alloc);
    let mut is_verb = false;
    for byte in bytes {
        if is_verb {
            match verb(*byte) {
                None => return Ok(None),
                Some(piece) => done.push(piece)?,
            }
            is_verb = false;
            continue;
        }
        if *byte == b'%' {
            is_verb = true;
            continue;
        }
        done.push(PrintPiece::Byte(*byte))?;
    }
    if is_verb {
        return Ok(None);
    }
    Ok(Some(done))
}

/// An argument of a print: an integer is promoted.
#[tactic(auto, unfolding(crate::specs::Operators::printable))]
pub fn printable(alloc: Global, e: TExpr) -> Result<TExpr, NoMemory>
    ensures { IfOk result (λ t. t ≡ spec.printable e) }
{
    if is_integer(e.ty()) {
        let kind = promoted_kind(e.ty());
        in_kind(alloc, kind, e)
    } else {
        Ok(e)
    }
}

#[tactic(auto, unfolding(crate::specs::Operators::printed_as), using(al_operands::proofs::Asking::asking))]
fn printed_as(
    at: Place,
    format: Items<PrintPiece>,
    arguments: Items<TExpr>,
) -> Result<TExpr, TypeStop>
    ensures { Answers result (spec.printed_as at format arguments) }
{
    let holds = rule_36_prints(format.as_slice(), arguments.as_slice());
    let (format, arguments) = asked(36, at, holds, (format, arguments))?;
    let ty = Ty::Void;
    Ok(TExpr::Print {
        ty,
        format,
        arguments,
    })
}

/// A print with these pieces of its format and these arguments, integers promoted.
#[tactic(auto, unfolding(crate::specs::Operators::printed), using(al_operands::proofs::Asking::asking))]
pub fn printed(
    at: Place,
    format: Option<Items<PrintPiece>>,
    arguments: Items<TExpr>,
) -> Result<TExpr, TypeStop>
    ensures { Answers result (spec.printed at format arguments) }
{
    let (format, arguments) = present(36, at, format, arguments)?;
    printed_as(at, format, arguments)
}

/// `terminate` of a status.
#[tactic(auto, unfolding(crate::specs::Operators::terminated), using(al_rules::proofs::Permits::permitted))]
pub fn terminated(alloc: Global, at: Place, x: Operand) -> Result<TExpr, TypeStop>
    ensures { Answers result (spec.terminated at x) }
{
    let int = Ty::Integer(Kind::Int);
    let status = taken(alloc, 37, at, &int, x)?;
    let status = Boxed::new(alloc, status)?;
    let ty = Ty::Void;
    Ok(TExpr::Terminate { ty, status })
}
