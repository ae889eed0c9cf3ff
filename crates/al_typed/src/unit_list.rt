//! The accesses that make a whole value.
ghost use Rattle.std.specs.Prelude.{◌≡◌, ◌≤◌, ◌<◌, ◌+◌, ◌*◌, ◌/◌, ◌^◌, ◌++◌, [], ◌∷◌, map, IfOk, OnOk, Option, Some, slice_get};
ghost use Rattle.std.specs.List.{range_with_len};
ghost use Rattle.al_typed.specs.Layout as spec;
ghost use Rattle.al_typed.specs.Layout.{IsLaidOut, layout, moved, size_of, unit_at, units_of};
ghost use Rattle.al_typed.specs.Types.{bytes_of};
ghost use Rattle.al_typed.specs.declared.ty.Ty.TheVariants as variant;

use crate::layout::{Unit, room_of, rounded, row};
use crate::program::{Aggregate, Program};
use crate::ty::Ty;
use al_base::{Kind, NoMemory};
use al_items::Items;
use std::alloc::Global;

/// The units of the values of a type, in their order: an integer of at most 4 bytes, a pointer and a channel are one, a
/// longer integer is two with the low word first, a union is as many of its alignment as fit, and all else is those of its
/// parts.
pub fn units(alloc: Global, p: &Program, ty: &Ty) -> Result<Vec<Unit>, NoMemory>
    requires laid_out { IsLaidOut p.now.aggregates }
    requires small { size_of p.now.aggregates ty.now ≤ 2 ^ 28 }
    ensures { IfOk result (λ units. units.items ≡ units_of p.now.aggregates ty.now) }
{
    let mut out = Items::new(alloc);
    put(p.aggregates.as_slice(), ty, 0, &mut out)?;
    Ok(out.into_vec())
}

/// One unit.
fn put_unit(at: u64, size: u8, out: &mut Items<Unit>) -> Result<(), NoMemory>
    requires { at < 2 ^ 32 }
    ensures { OnOk result (out.new ≡ out.old ++ unit_at at size ∷ []) }
{
    out.push(Unit {
        at: at as u32,
        size,
    })
}

/// The units of an integer that stands at `at`.
fn put_integer(kind: Kind, at: u64, out: &mut Items<Unit>) -> Result<(), NoMemory>
    requires { at + bytes_of kind ≤ 2 ^ 28 }
    ensures { OnOk result (out.new ≡ out.old ++ moved at (spec.of_bytes (bytes_of kind)).units) }
{
    match kind {
        Kind::Byte => put_unit(at, 1, out),
        Kind::Sint | Kind::Usint => put_unit(at, 2, out),
        Kind::Int | Kind::Uint => put_unit(at, 4, out),
        Kind::Lint | Kind::Ulint => {
            put_unit(at, 4, out)?;
            put_unit(at + 4, 4, out)
        }
    }
}

/// The units of a union that stands at `at`.
fn put_union(size: u32, align: u32, at: u64, out: &mut Items<Unit>) -> Result<(), NoMemory>
    requires align { (1 ≤ align) × (align ≤ 4) }
    requires room { at + size ≤ 2 ^ 28 }
    ensures { OnOk result (out.new ≡ out.old ++ moved at (map (λ i. unit_at (i * align) align) (range_with_len 0 (size / align)))) }
{
    let mut next = at;
    for _ in 0..size / align {
        put_unit(next, align as u8, out)?;
        next += align as u64;
    }
    Ok(())
}

/// The units of so many elements, the first of which stands at `at`.
#[cycle(put)]
fn put_elements(
    aggregates: &[Aggregate],
    element: &Ty,
    count: u32,
    at: u64,
    out: &mut Items<Unit>,
) -> Result<(), NoMemory>
    requires laid_out { IsLaidOut aggregates.now }
    requires room { at + count * size_of aggregates.now element.now ≤ 2 ^ 28 }
    ensures { OnOk result (out.new ≡ out.old ++ moved at (spec.repeated count (layout aggregates.now element.now)).units) }
{
    let size = room_of(aggregates, element).size;
    let mut next = at;
    for _ in 0..count {
        put(aggregates, element, next, out)?;
        next += size;
    }
    Ok(())
}

/// The units of members one after another, which stand at `at`.
#[cycle(put)]
fn put_in_order(
    aggregates: &[Aggregate],
    types: &[Ty],
    at: u64,
    out: &mut Items<Unit>,
) -> Result<(), NoMemory>
    requires laid_out { IsLaidOut aggregates.now }
    requires room { at + (spec.in_order (map (layout aggregates.now) types.now)).size ≤ 2 ^ 28 }
    ensures { OnOk result (out.new ≡ out.old ++ moved at (spec.in_order (map (layout aggregates.now) types.now)).units) }
{
    let mut end: u64 = 0;
    for ty in types {
        let room = room_of(aggregates, ty);
        let start = rounded(end, room.align);
        put(aggregates, ty, at + start, out)?;
        end = start + room.size;
    }
    Ok(())
}

/// The units of an aggregate that stands at `at`. Its members are of types that stand before it in the list.
#[cycle(put)]
fn put_aggregate(
    aggregates: &[Aggregate],
    number: u32,
    at: u64,
    out: &mut Items<Unit>,
) -> Result<(), NoMemory>
    requires laid_out { IsLaidOut aggregates.now }
    requires room { at + size_of aggregates.now (variant.Aggregate number) ≤ 2 ^ 28 }
    ensures { OnOk result (out.new ≡ out.old ++ moved at (units_of aggregates.now (variant.Aggregate number))) }
{
    match row(aggregates, number) {
        None => Ok(()),
        Some(aggregate) => match &aggregate.members {
            None => Ok(()),
            Some(members) => {
                if aggregate.is_union {
                    put_union(aggregate.size, aggregate.align, at, out)
                } else {
                    put_in_order(&aggregates[..number as usize], members.as_slice(), at, out)
                }
            }
        },
    }
}

/// The units of a value that stands at `at`.
#[cycle(put)]
#[tactic(auto, using(crate::proofs::Layouts::layout_is))]
fn put(aggregates: &[Aggregate], ty: &Ty, at: u64, out: &mut Items<Unit>) -> Result<(), NoMemory>
    requires laid_out { IsLaidOut aggregates.now }
    requires room { at + size_of aggregates.now ty.now ≤ 2 ^ 28 }
    ensures { OnOk result (out.new ≡ out.old ++ moved at (units_of aggregates.now ty.now)) }
{
    match ty {
        Ty::Void => Ok(()),
        Ty::Function { .. } => Ok(()),
        Ty::Integer(kind) => put_integer(*kind, at, out),
        Ty::Pointer(_) | Ty::Chan { .. } => put_unit(at, 4, out),
        Ty::Array { element, count } => put_elements(aggregates, element.get(), *count, at, out),
        Ty::Tuple(parts) => put_in_order(aggregates, parts.as_slice(), at, out),
        Ty::Aggregate(number) => put_aggregate(aggregates, *number, at, out),
    }
}
