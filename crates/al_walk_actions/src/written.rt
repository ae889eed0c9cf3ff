//! What the verbs of a print write.
ghost use Rattle.std.specs.Prelude.{◌≡◌, true, false, [], ◌∷◌, decimal, IfOk};
ghost use Rattle.std.specs.Fmt.{digits, signed_decimal};
ghost use Rattle.al_base.specs.Arith.{value_of, width_of};
ghost use Rattle.al_base.specs.declared.arith.Kind.TheVariants as kind;
ghost use Rattle.al_meaning.specs.Shown as spec;

use al_base::{Kind, NoMemory};
use al_control_values::bits;
use al_event::Bytes;
use al_items::Items;
use al_typed::{PrintPiece, Ty};
use al_variables::kind_of;
use itoa::Buffer;
use std::alloc::Global;

fn byte_value(bits: u64) -> i64
    ensures { result ≡ value_of true 8 bits }
{
    let low = (bits % 0x100) as i64;
    if low >= 0x80 { low - 0x100 } else { low }
}

fn short_value(bits: u64) -> i64
    ensures { result ≡ value_of true 16 bits }
{
    let low = (bits % 0x1_0000) as i64;
    if low >= 0x8000 { low - 0x1_0000 } else { low }
}

fn word_value(bits: u64) -> i64
    ensures { result ≡ value_of true 32 bits }
{
    let low = (bits % 0x1_0000_0000) as i64;
    if low >= 0x8000_0000 {
        low - 0x1_0000_0000
    } else {
        low
    }
}

/// The integer of the width of a kind that has a sign and these bits.
fn signed_value(kind: Kind, bits: u64) -> i64
    ensures { result ≡ value_of true (width_of kind) bits }
{
    match kind {
        Kind::Byte => byte_value(bits),
        Kind::Sint => short_value(bits),
        Kind::Usint => short_value(bits),
        Kind::Int => word_value(bits),
        Kind::Uint => word_value(bits),
        Kind::Lint => bits.cast_signed(),
        Kind::Ulint => bits.cast_signed(),
    }
}

fn signed_text(alloc: Global, value: i64) -> Result<Bytes, NoMemory>
    ensures { IfOk result (λ text. text ≡ signed_decimal value) }
{
    let mut digits = Buffer::new();
    Items::from_slice(alloc, digits.format(value).as_bytes())
}

fn decimal_text(alloc: Global, value: u64) -> Result<Bytes, NoMemory>
    ensures { IfOk result (λ text. text ≡ decimal value) }
{
    let mut digits = Buffer::new();
    Items::from_slice(alloc, digits.format(value).as_bytes())
}

fn hexadecimal_text(alloc: Global, value: u64) -> Result<Bytes, NoMemory>
    ensures { IfOk result (λ text. text ≡ digits 16 false value) }
{
    let digits = format!(in alloc; "{value:x}")?;
    Items::from_slice(alloc, digits.as_bytes())
}

/// A text of one byte.
pub fn one_byte(alloc: Global, byte: u8) -> Result<Bytes, NoMemory>
    ensures { IfOk result (λ text. text ≡ byte ∷ []) }
{
    let mut text = Items::new(alloc);
    text.push(byte)?;
    Ok(text)
}

/// What a verb but `%s` writes of an argument of a type.
pub fn written(alloc: Global, verb: PrintPiece, ty: &Ty, words: &[u32]) -> Result<Bytes, NoMemory>
    ensures { IfOk result (λ text. text ≡ spec.written verb ty.now words.now) }
{
    match verb {
        PrintPiece::Signed => signed_text(alloc, signed_value(kind_of(ty), bits(words))),
        PrintPiece::Unsigned => decimal_text(alloc, bits(words)),
        PrintPiece::Hexadecimal => hexadecimal_text(alloc, bits(words)),
        PrintPiece::Character => one_byte(alloc, (bits(words) % 256) as u8),
        PrintPiece::Byte(_) => Ok(Items::new(alloc)),
        PrintPiece::Percent => Ok(Items::new(alloc)),
        PrintPiece::Text => Ok(Items::new(alloc)),
    }
}
