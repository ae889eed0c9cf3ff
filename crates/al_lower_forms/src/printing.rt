//! The pieces of a print's format, behind its arguments.
ghost use Rattle.std.specs.Prelude.{◌≡◌, ◌∷◌, ◌++◌, List, map, drop, IfOk, OnOk, MatchOption};
ghost use Rattle.al_typed.specs.Layout.{IsLaidOut};
ghost use Rattle.al_typed.specs.Typed.{type_of};
ghost use Rattle.al_typed.specs.declared.expression.PrintPiece.{PrintPiece as PieceSpec};
ghost use Rattle.al_lower_code.specs.Actions as acts;
ghost use Rattle.al_lower_forms.specs.Pieces as spec;
ghost use Rattle.al_lower_base.specs.Spots.{spot_of};

use al_base::{Kind, NoMemory};
use al_ir::Op;
use al_items::Items;
use al_lower_base::{Code, Spot, is_long, push, slot_behind, words};
use al_typed::{PrintPiece, TExpr, Ty};
use al_variables::kind_of;

/// An integer of a kind in decimal.
fn put_decimal(
    code: &mut Code,
    s: Spot<'_>,
    signed: bool,
    kind: Kind,
    at: u32,
) -> Result<(), NoMemory>
    ensures { OnOk result (code.new ≡ code.old ++ acts.put_decimal (spot_of s.entry) signed kind at) }
{
    if is_long(kind) {
        return push(code, s.line, Op::PutLongDecimal { signed, from: at });
    }
    push(code, s.line, Op::PutDecimal { signed, from: at })
}

/// An integer of a kind in hexadecimal.
fn put_hex(code: &mut Code, s: Spot<'_>, kind: Kind, at: u32) -> Result<(), NoMemory>
    ensures { OnOk result (code.new ≡ code.old ++ acts.put_hex (spot_of s.entry) kind at) }
{
    if is_long(kind) {
        return push(code, s.line, Op::PutLongHex { from: at });
    }
    push(code, s.line, Op::PutHex { from: at })
}

/// A piece that takes an argument, which is of a type and stands from `at` on.
fn put_argument(
    code: &mut Code,
    s: Spot<'_>,
    piece: PrintPiece,
    ty: &Ty,
    at: u32,
) -> Result<(), NoMemory>
    ensures { OnOk result (code.new ≡ code.old ++ spec.argument_code (spot_of s.entry) piece ty.now at) }
{
    match piece {
        PrintPiece::Text => push(code, s.line, Op::PutText { at }),
        PrintPiece::Character => push(code, s.line, Op::PutCharacter { from: at }),
        PrintPiece::Signed => put_decimal(code, s, true, kind_of(ty), at),
        PrintPiece::Unsigned => put_decimal(code, s, false, kind_of(ty), at),
        PrintPiece::Hexadecimal => put_hex(code, s, kind_of(ty), at),
        PrintPiece::Percent | PrintPiece::Byte(_) => Ok(()),
    }
}

/// The byte that a piece is, where it takes no argument.
fn byte_of(piece: PrintPiece) -> Option<u8>
    ensures { result ≡ spec.byte_of piece }
{
    match piece {
        PrintPiece::Byte(byte) => Some(byte),
        PrintPiece::Percent => Some(37),
        PrintPiece::Text
        | PrintPiece::Character
        | PrintPiece::Signed
        | PrintPiece::Unsigned
        | PrintPiece::Hexadecimal => None,
    }
}

/// The arguments that are left, by the number of the first, and where this one stands.
#[derive(Clone, Copy)]
struct Left {
    next: usize,
    at: u32,
}

/// One piece, and the arguments that are left behind it; none where the format ends for want of one.
fn put_piece(
    code: &mut Code,
    s: Spot<'_>,
    piece: PrintPiece,
    arguments: &[TExpr],
    left: Left,
) -> Result<Option<Left>, NoMemory>
    requires { IsLaidOut s.program.now.aggregates }
    ensures { (rest : List PieceSpec) → IfOk result (λ behind. MatchOption behind (code.new ≡ code.old ++ acts.pieces_code (spot_of s.entry) (piece ∷ rest) (map type_of (drop left.next arguments.now)) left.at) (λ it. code.new ++ acts.pieces_code (spot_of s.entry) rest (map type_of (drop it.next arguments.now)) it.at ≡ code.old ++ acts.pieces_code (spot_of s.entry) (piece ∷ rest) (map type_of (drop left.next arguments.now)) left.at)) }
{
    if let Some(byte) = byte_of(piece) {
        push(code, s.line, Op::PutByte { byte })?;
        return Ok(Some(left));
    }
    if left.next >= arguments.len() {
        return Ok(None);
    }
    let ty = arguments[left.next].ty();
    put_argument(code, s, piece, ty, left.at)?;
    Ok(Some(Left {
        next: left.next + 1,
        at: slot_behind(left.at, words(s, ty)?)?,
    }))
}

/// The pieces of a format, whose arguments stand from `at` on.
fn put_pieces(
    code: &mut Code,
    s: Spot<'_>,
    format: &[PrintPiece],
    arguments: &[TExpr],
    at: u32,
) -> Result<(), NoMemory>
    requires { IsLaidOut s.program.now.aggregates }
    ensures { OnOk result (code.new ≡ code.old ++ acts.pieces_code (spot_of s.entry) format.now (map type_of arguments.now) at) }
{
    let mut left = Left { next: 0, at };
    for piece in format {
        match put_piece(code, s, *piece, arguments, left)? {
            None => return Ok(()),
            Some(behind) => left = behind,
        }
    }
    push(code, s.line, Op::Print)
}

/// The same of lists.
pub fn print_pieces(
    code: &mut Code,
    s: Spot<'_>,
    format: &Items<PrintPiece>,
    arguments: &Items<TExpr>,
    at: u32,
) -> Result<(), NoMemory>
    requires { IsLaidOut s.program.now.aggregates }
    ensures { OnOk result (code.new ≡ code.old ++ acts.pieces_code (spot_of s.entry) format.now (map type_of arguments.now) at) }
{
    put_pieces(code, s, format.as_slice(), arguments.as_slice(), at)
}
