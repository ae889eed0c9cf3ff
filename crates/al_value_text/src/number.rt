//! Single numbers as text.
ghost use Rattle.std.specs.Prelude.{◌≡◌, ◌++◌, replicate, decimal, OnOk};
ghost use Rattle.std.specs.Fmt.{signed_decimal};
ghost use Rattle.al_base.specs.Arith.{integer_of};
ghost use Rattle.al_base.specs.declared.arith.Kind.TheVariants as kind;
ghost use Rattle.al_value_text.specs.Numbers as spec;

use al_base::{Kind, NoMemory};
use al_items::Items;
use itoa::Buffer;
use std::alloc::Global;

/// A number in decimal digits.
pub fn put_decimal(out: &mut Items<u8>, number: u64) -> Result<(), NoMemory>
    ensures { OnOk result (out.new ≡ out.old ++ decimal number) }
{
    let mut digits = Buffer::new();
    out.extend_from_slice(digits.format(number).as_bytes())
}

/// A number that may lie below 0, in decimal digits behind its sign.
fn put_signed(out: &mut Items<u8>, number: i64) -> Result<(), NoMemory>
    ensures { OnOk result (out.new ≡ out.old ++ signed_decimal number) }
{
    let mut digits = Buffer::new();
    out.extend_from_slice(digits.format(number).as_bytes())
}

fn sint(bits: u64) -> i64
    ensures { result ≡ integer_of kind.Sint bits }
{
    let low = (bits % 0x1_0000) as i64;
    if low >= 0x8000 { low - 0x1_0000 } else { low }
}

fn int(bits: u64) -> i64
    ensures { result ≡ integer_of kind.Int bits }
{
    let low = (bits % 0x1_0000_0000) as i64;
    if low >= 0x8000_0000 {
        low - 0x1_0000_0000
    } else {
        low
    }
}

/// The integer of a kind that has these bits.
pub(crate) fn put_integer(out: &mut Items<u8>, kind: Kind, bits: u64) -> Result<(), NoMemory>
    ensures { OnOk result (out.new ≡ out.old ++ signed_decimal (integer_of kind bits)) }
{
    match kind {
        Kind::Byte => put_decimal(out, bits % 0x100),
        Kind::Usint => put_decimal(out, bits % 0x1_0000),
        Kind::Uint => put_decimal(out, bits % 0x1_0000_0000),
        Kind::Ulint => put_decimal(out, bits),
        Kind::Sint => put_signed(out, sint(bits)),
        Kind::Int => put_signed(out, int(bits)),
        Kind::Lint => put_signed(out, bits.cast_signed()),
    }
}

fn put_zeros(out: &mut Items<u8>, count: usize) -> Result<(), NoMemory>
    ensures { OnOk result (out.new ≡ out.old ++ replicate count 48) }
{
    for _ in 0..count {
        out.push(b'0')?;
    }
    Ok(())
}

/// An address, or the number of a channel, as `0x` with eight hexadecimal digits.
pub fn put_pointer(alloc: Global, out: &mut Items<u8>, bits: u64) -> Result<(), NoMemory>
    ensures { OnOk result (out.new ≡ out.old ++ spec.pointer bits) }
{
    let digits = format!(in alloc; "{bits:x}")?;
    out.extend_from_slice(b"0x")?;
    put_zeros(out, 8usize.saturating_sub(digits.len()))?;
    out.extend_from_slice(digits.as_bytes())
}
