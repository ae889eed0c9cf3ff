//! Values as text.
ghost use Rattle.std.specs.Prelude.{◌≡◌, ◌++◌, map, replicate, decimal, OnOk};
ghost use Rattle.al_typed.specs.declared.ty.Ty.TheVariants as variant;
ghost use Rattle.al_value_text.specs.Values as spec;

use crate::number::{put_decimal, put_integer, put_pointer};
use crate::width::{cut, row, width};
use al_base::NoMemory;
use al_control_values::bits;
use al_items::Items;
use al_typed::{Aggregate, Ty};
use std::alloc::Global;

/// A comma, but not before the first part.
fn put_comma(out: &mut Items<u8>, is_first: bool) -> Result<(), NoMemory>
    ensures { OnOk result (out.new ≡ out.old ++ spec.before is_first) }
{
    if is_first {
        return Ok(());
    }
    out.push(b',')
}

/// Units as unsigned numbers.
fn put_units(out: &mut Items<u8>, units: &[u32]) -> Result<(), NoMemory>
    ensures { OnOk result (out.new ≡ out.old ++ spec.in_parentheses (map decimal units.now)) }
{
    out.push(b'(')?;
    let mut is_first = true;
    for unit in units {
        put_comma(out, is_first)?;
        put_decimal(out, u64::from(*unit))?;
        is_first = false;
    }
    out.push(b')')
}

/// Values of these types, one after another.
#[cycle(put)]
fn put_parts(
    alloc: Global,
    out: &mut Items<u8>,
    aggregates: &[Aggregate],
    types: &[Ty],
    words: &[u32],
) -> Result<(), NoMemory>
    ensures { OnOk result (out.new ≡ out.old ++ spec.in_parentheses (spec.shown_parts (map (spec.shown_in aggregates.now) types.now) words.now)) }
{
    out.push(b'(')?;
    let mut rest = words;
    let mut is_first = true;
    for ty in types {
        let (own, behind) = cut(rest, width(aggregates, ty));
        put_comma(out, is_first)?;
        put_value(alloc, out, aggregates, ty, own)?;
        rest = behind;
        is_first = false;
    }
    out.push(b')')
}

/// So many values of one type, one after another.
#[cycle(put)]
fn put_elements(
    alloc: Global,
    out: &mut Items<u8>,
    aggregates: &[Aggregate],
    element: &Ty,
    count: u32,
    words: &[u32],
) -> Result<(), NoMemory>
    ensures { OnOk result (out.new ≡ out.old ++ spec.in_parentheses (spec.shown_parts (replicate count (spec.shown_in aggregates.now element.now)) words.now)) }
{
    let own_width = width(aggregates, element);
    out.push(b'(')?;
    let mut rest = words;
    let mut is_first = true;
    for _ in 0..count {
        let (own, behind) = cut(rest, own_width);
        put_comma(out, is_first)?;
        put_value(alloc, out, aggregates, element, own)?;
        rest = behind;
        is_first = false;
    }
    out.push(b')')
}

/// A value of the aggregate of that number. Its members are of types that stand before it in the list.
#[cycle(put)]
fn put_aggregate(
    alloc: Global,
    out: &mut Items<u8>,
    aggregates: &[Aggregate],
    number: u32,
    words: &[u32],
) -> Result<(), NoMemory>
    ensures { OnOk result (out.new ≡ out.old ++ spec.shown aggregates.now (variant.Aggregate number) words.now) }
{
    match row(aggregates, number) {
        None => Ok(()),
        Some(aggregate) => {
            if aggregate.is_union {
                let (own, _) = cut(words, u64::from(aggregate.units));
                return put_units(out, own);
            }
            match &aggregate.members {
                None => out.extend_from_slice(b"()"),
                Some(members) => {
                    let before = &aggregates[..number as usize];
                    put_parts(alloc, out, before, members.as_slice(), words)
                }
            }
        }
    }
}

/// Puts the text of a value of a type, which has these words, behind what stands.
#[cycle(put)]
#[tactic(auto, using(crate::proofs::Shapes::shown_is))]
pub fn put_value(
    alloc: Global,
    out: &mut Items<u8>,
    aggregates: &[Aggregate],
    ty: &Ty,
    words: &[u32],
) -> Result<(), NoMemory>
    ensures { OnOk result (out.new ≡ out.old ++ spec.shown aggregates.now ty.now words.now) }
{
    match ty {
        Ty::Void => Ok(()),
        Ty::Function { .. } => Ok(()),
        Ty::Integer(kind) => put_integer(out, *kind, bits(words)),
        Ty::Pointer(_) => put_pointer(alloc, out, bits(words)),
        Ty::Chan { .. } => put_pointer(alloc, out, bits(words)),
        Ty::Array { element, count } => {
            put_elements(alloc, out, aggregates, element.get(), *count, words)
        }
        Ty::Tuple(parts) => put_parts(alloc, out, aggregates, parts.as_slice(), words),
        Ty::Aggregate(number) => put_aggregate(alloc, out, aggregates, *number, words),
    }
}
