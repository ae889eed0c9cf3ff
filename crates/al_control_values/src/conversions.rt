//! Values of one type as values of another.
ghost use Rattle.std.specs.Prelude.{◌≡◌, List, IfOk};
ghost use Rattle.al_typed.specs.declared.program.Aggregate.{Aggregate};
ghost use Rattle.al_typed.specs.Types as types;
ghost use Rattle.al_typed.specs.Capped.{capped};
ghost use Rattle.al_typed.specs.Layout.{IsLaidOut, words_of};
ghost use Rattle.al_typed.specs.declared.ty.Ty.TheVariants as ty;
ghost use Rattle.al_meaning.specs.Words as spec;

use crate::words::{bits, integer_words};
use al_base::{Kind, NoMemory, convert};
use al_event::Words;
use al_items::Items;
use al_typed::{Aggregate, Ty, room_of};
use std::alloc::Global;

/// Whether a value is the address of an array.
#[tactic(auto, unfolding(al_typed::specs::Types::is_array))]
fn is_array(ty: &Ty) -> bool
    ensures { result ≡ types.is_array ty.now }
{
    matches!(ty, Ty::Array { .. })
}

/// The words that a value takes privately, at most 2^64 - 1.
#[tactic(auto, unfolding(al_typed::specs::Layout::words_of))]
pub fn words_in(rows: &[Aggregate], ty: &Ty) -> u64
    requires { IsLaidOut rows.now }
    ensures { result ≡ capped (words_of rows.now ty.now) }
{
    if is_array(ty) {
        1
    } else {
        room_of(rows, ty).units
    }
}

/// An integer of a kind as a value of a type.
#[tactic(auto, using(crate::proofs::TypesConverted::integer_conversions))]
fn converted_integer(alloc: Global, kind: Kind, to: &Ty, words: &[u32]) -> Result<Words, NoMemory>
    ensures { IfOk result (λ ws. (rows : List Aggregate) → ws ≡ spec.converted rows (ty.Integer kind) to.now words.now) }
{
    match to {
        Ty::Integer(other) => integer_words(alloc, *other, convert(kind, *other, bits(words))),
        Ty::Void
        | Ty::Pointer(_)
        | Ty::Array { .. }
        | Ty::Chan { .. }
        | Ty::Tuple(_)
        | Ty::Aggregate(_)
        | Ty::Function { .. } => Items::from_slice(alloc, words),
    }
}

/// The parts of a tuple as those of another.
#[cycle(converted)]
fn converted_parts(
    alloc: Global,
    rows: &[Aggregate],
    from: &[Ty],
    to: &[Ty],
    words: &[u32],
) -> Result<Words, NoMemory>
    requires { IsLaidOut rows.now }
    ensures { IfOk result (λ ws. ws ≡ spec.converted rows.now (ty.Tuple from.now) (ty.Tuple to.now) words.now) }
{
    let mut out = Items::new(alloc);
    let mut rest = words;
    for (i, part) in from.iter().enumerate() {
        if i >= to.len() {
            return Ok(out);
        }
        let count = words_in(rows, part).min(rest.len() as u64) as usize;
        let cut = rest.split_at(count);
        out.append(converted(alloc, rows, part, &to[i], cut.0)?)?;
        rest = cut.1;
    }
    Ok(out)
}

/// A tuple as a value of a type.
#[cycle(converted)]
#[tactic(auto, using(crate::proofs::TypesConverted::tuple_conversions))]
fn converted_tuple(
    alloc: Global,
    rows: &[Aggregate],
    from: &Items<Ty>,
    to: &Ty,
    words: &[u32],
) -> Result<Words, NoMemory>
    requires { IsLaidOut rows.now }
    ensures { IfOk result (λ ws. ws ≡ spec.converted rows.now (ty.Tuple from.now) to.now words.now) }
{
    match to {
        Ty::Tuple(parts) => converted_parts(alloc, rows, from.as_slice(), parts.as_slice(), words),
        Ty::Void
        | Ty::Integer(_)
        | Ty::Pointer(_)
        | Ty::Array { .. }
        | Ty::Chan { .. }
        | Ty::Aggregate(_)
        | Ty::Function { .. } => Items::from_slice(alloc, words),
    }
}

/// A value of one type as one of another: integers wrap, tuples go part by part, all else stays as it is.
#[cycle(converted)]
#[tactic(auto, using(crate::proofs::TypesConverted::conversions))]
pub fn converted(
    alloc: Global,
    rows: &[Aggregate],
    from: &Ty,
    to: &Ty,
    words: &[u32],
) -> Result<Words, NoMemory>
    requires { IsLaidOut rows.now }
    ensures { IfOk result (λ ws. ws ≡ spec.converted rows.now from.now to.now words.now) }
{
    match from {
        Ty::Integer(kind) => converted_integer(alloc, *kind, to, words),
        Ty::Tuple(parts) => converted_tuple(alloc, rows, parts, to, words),
        Ty::Void
        | Ty::Pointer(_)
        | Ty::Array { .. }
        | Ty::Chan { .. }
        | Ty::Aggregate(_)
        | Ty::Function { .. } => Items::from_slice(alloc, words),
    }
}
