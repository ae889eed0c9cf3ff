//! Values of one type as values of another, and parts of values, in slots.
ghost use Rattle.std.specs.Prelude.{◌≡◌, ◌+◌, ◌++◌, ◌≤◌, ◌<◌, ◌^◌, IfOk, OnOk, true};
ghost use Rattle.al_typed.specs.Layout.{IsLaidOut};
ghost use Rattle.al_typed.specs.declared.ty.Ty.TheVariants as ty;
ghost use Rattle.al_lower_code.specs.Moving as moving;
ghost use Rattle.al_lower_code.specs.Operators as spec;
ghost use Rattle.al_lower_base.specs.Spots.{spot_of};

use crate::code::{Code, copies, push, slot_behind};
use crate::operators::is_long;
use crate::spot::{Spot, words};
use al_base::{Kind, NoMemory};
use al_ir::Op;
use al_items::Items;
use al_typed::{Ty, Unit};

/// Whether the bits of an integer stay as they are.
pub fn keeps_bits(from: Kind, into: Kind) -> bool
    ensures { result ≡ spec.keeps_bits from into }
{
    from.width() == into.width()
        || (from.width() < into.width() && !is_long(into) && !from.is_signed())
}

/// Whether an integer stays as it is as a value of a type.
#[tactic(auto, using(crate::proofs::Unconverted::integers_stay))]
fn integer_stays(kind: Kind, into: &Ty) -> bool
    ensures { result ≡ spec.stays (ty.Integer kind) into.now }
{
    match into {
        Ty::Integer(other) => keeps_bits(kind, *other),
        Ty::Void
        | Ty::Pointer(_)
        | Ty::Array { .. }
        | Ty::Chan { .. }
        | Ty::Tuple(_)
        | Ty::Aggregate(_)
        | Ty::Function { .. } => true,
    }
}

/// Whether the parts of a tuple do.
#[cycle(stays)]
pub fn parts_stay(from: &[Ty], into: &[Ty]) -> bool
    ensures { result ≡ spec.stays (ty.Tuple from.now) (ty.Tuple into.now) }
{
    for (i, part) in from.iter().enumerate() {
        if i >= into.len() {
            return true;
        }
        if !stays(part, &into[i]) {
            return false;
        }
    }
    true
}

#[cycle(stays)]
#[tactic(auto, using(crate::proofs::Unconverted::tuples_stay))]
fn tuple_stays(from: &Items<Ty>, into: &Ty) -> bool
    ensures { result ≡ spec.stays (ty.Tuple from.now) into.now }
{
    match into {
        Ty::Tuple(parts) => parts_stay(from.as_slice(), parts.as_slice()),
        Ty::Void
        | Ty::Integer(_)
        | Ty::Pointer(_)
        | Ty::Array { .. }
        | Ty::Chan { .. }
        | Ty::Aggregate(_)
        | Ty::Function { .. } => true,
    }
}

/// Whether a value of one type is one of another as it is.
#[cycle(stays)]
#[tactic(auto, using(crate::proofs::Unconverted::others_stay))]
pub fn stays(from: &Ty, into: &Ty) -> bool
    ensures { result ≡ spec.stays from.now into.now }
{
    match from {
        Ty::Integer(kind) => integer_stays(*kind, into),
        Ty::Tuple(parts) => tuple_stays(parts, into),
        Ty::Void
        | Ty::Pointer(_)
        | Ty::Array { .. }
        | Ty::Chan { .. }
        | Ty::Aggregate(_)
        | Ty::Function { .. } => true,
    }
}

/// An integer in slots as a value of a type.
#[tactic(auto, using(crate::proofs::Converting::integers_convert))]
fn convert_integer(
    code: &mut Code,
    s: Spot<'_>,
    kind: Kind,
    into: &Ty,
    to: u32,
    at: u32,
) -> Result<(), NoMemory>
    requires { IsLaidOut s.program.now.aggregates }
    ensures { OnOk result (code.new ≡ code.old ++ spec.convert_code (spot_of s.entry) (ty.Integer kind) into.now to at) }
{
    match into {
        Ty::Integer(other) => push(
            code,
            s.line,
            Op::Convert {
                from: kind,
                into: *other,
                to,
                of: at,
            },
        ),
        Ty::Void
        | Ty::Pointer(_)
        | Ty::Array { .. }
        | Ty::Chan { .. }
        | Ty::Tuple(_)
        | Ty::Aggregate(_)
        | Ty::Function { .. } => copies(code, s.line, to, at, words(s, &Ty::Integer(kind))?),
    }
}

/// The parts of a tuple as those of another.
#[cycle(convert)]
pub fn convert_parts(
    code: &mut Code,
    s: Spot<'_>,
    from: &[Ty],
    into: &[Ty],
    to: u32,
    at: u32,
) -> Result<(), NoMemory>
    requires { IsLaidOut s.program.now.aggregates }
    ensures { OnOk result (code.new ≡ code.old ++ spec.convert_code (spot_of s.entry) (ty.Tuple from.now) (ty.Tuple into.now) to at) }
{
    let (mut slot, mut old) = (to, at);
    for (i, part) in from.iter().enumerate() {
        if i >= into.len() {
            return Ok(());
        }
        let other = &into[i];
        convert(code, s, part, other, slot, old)?;
        slot = slot_behind(slot, words(s, other)?)?;
        old = slot_behind(old, words(s, part)?)?;
    }
    Ok(())
}

/// A value in slots as one of another type, in slots apart from its own.
#[cycle(convert)]
#[tactic(auto, using(crate::proofs::Converting::tuples_convert, crate::proofs::Converting::others_convert))]
pub fn convert(
    code: &mut Code,
    s: Spot<'_>,
    from: &Ty,
    into: &Ty,
    to: u32,
    at: u32,
) -> Result<(), NoMemory>
    requires { IsLaidOut s.program.now.aggregates }
    ensures { OnOk result (code.new ≡ code.old ++ spec.convert_code (spot_of s.entry) from.now into.now to at) }
{
    match from {
        Ty::Integer(kind) => convert_integer(code, s, *kind, into, to, at),
        Ty::Tuple(parts) => match into {
            Ty::Tuple(others) => {
                convert_parts(code, s, parts.as_slice(), others.as_slice(), to, at)
            }
            Ty::Void
            | Ty::Integer(_)
            | Ty::Pointer(_)
            | Ty::Array { .. }
            | Ty::Chan { .. }
            | Ty::Aggregate(_)
            | Ty::Function { .. } => copies(code, s.line, to, at, words(s, from)?),
        },
        Ty::Void
        | Ty::Pointer(_)
        | Ty::Array { .. }
        | Ty::Chan { .. }
        | Ty::Aggregate(_)
        | Ty::Function { .. } => copies(code, s.line, to, at, words(s, from)?),
    }
}

/// Which unit of a value has a byte, and how far the byte stands in it.
#[derive(Clone, Copy)]
struct Held {
    index: u32,
    skip: u8,
}

/// The unit that has the byte at this offset, by its number from `index` on; behind the last where none has it.
fn unit_with(index: u32, at: u32, units: &[Unit]) -> Result<Held, NoMemory>
    ensures { IfOk result (λ h. (h.index ≡ (moving.holder index at units.now).index) × (h.skip ≡ (moving.holder index at units.now).skip)) }
{
    let mut number = index;
    for unit in units {
        if unit.at <= at && at - unit.at < unit.size as u32 {
            return Ok(Held {
                index: number,
                skip: (at - unit.at) as u8,
            });
        }
        number = slot_behind(number, 1)?;
    }
    Ok(Held {
        index: number,
        skip: 0,
    })
}

/// These units of a value, whose words stand from `from` on. Each lies in one unit of the whole.
pub fn extracts(
    code: &mut Code,
    line: u32,
    to: u32,
    from: u32,
    whole: &[Unit],
    part: &[Unit],
) -> Result<(), NoMemory>
    ensures { OnOk result (code.new ≡ code.old ++ moving.extracts line to from whole.now part.now) }
{
    let mut slot = to;
    for unit in part {
        let held = unit_with(0, unit.at, whole)?;
        push(
            code,
            line,
            Op::Extract {
                to: slot,
                from: slot_behind(from, held.index)?,
                skip: held.skip,
                size: unit.size,
            },
        )?;
        slot = slot_behind(slot, 1)?;
    }
    Ok(())
}
