//! Members of aggregates, and the parts of values that they are.
ghost use Rattle.std.specs.Prelude.{◌≡◌, ◌+◌, ◌≤◌, ◌<◌, ◌∷◌, ◌++◌, [], length, map, replicate, slice_get, slice_index, IfOk, OnOk, IsTrue, ◌↔◌};
ghost use Rattle.std.specs.Option.{option_copied};
ghost use Rattle.al_event.specs.Store.{bytes_of, number_of, overwritten};
ghost use Rattle.al_typed.specs.Capped.{capped};
ghost use Rattle.al_typed.specs.Layout as layouts;
ghost use Rattle.al_typed.specs.Layout.{IsLaidOut, layout};
ghost use Rattle.al_meaning.specs.Words as spec;
ghost use Rattle.al_meaning.specs.Here.{type_at};
ghost use Rattle.al_control_values.specs.Fits.{IsSmall};
ghost use Rattle.al_control_values.specs.Reaches.{Finds, places};
ghost use Rattle.al_control_values.specs.Units.{AreShort};
ghost use Rattle.al_typed.specs.declared.layout.Unit.{Unit};

use crate::words::split_word;
use al_base::NoMemory;
use al_event::Words;
use al_items::Items;
use al_typed::{Aggregate, Program, Ty, Unit, room_of, size, units};
use std::alloc::Global;

/// What a path of members leads to.
#[derive(Clone, Copy)]
pub struct Reached<'p> {
    pub ty: &'p Ty,
    /// Where it stands in the value, at most 2^64 - 1.
    pub at: u64,
}

/// The aggregate of that number.
fn numbered(rows: &[Aggregate], number: u32) -> Option<&Aggregate>
    ensures { option_copied result ≡ slice_get rows.now number }
{
    rows.get(number as usize)
}

/// The aggregate that a type is.
#[tactic(auto, unfolding(al_typed::specs::Layout::row_of))]
fn row_of<'p>(rows: &'p [Aggregate], ty: &Ty) -> Option<&'p Aggregate>
    ensures { option_copied result ≡ layouts.row_of rows.now ty.now }
{
    match ty {
        Ty::Aggregate(number) => numbered(rows, *number),
        Ty::Void
        | Ty::Integer(_)
        | Ty::Pointer(_)
        | Ty::Array { .. }
        | Ty::Chan { .. }
        | Ty::Tuple(_)
        | Ty::Function { .. } => None,
    }
}

/// The next multiple of an alignment, at most 2^64 - 1.
#[tactic(auto, unfolding(al_typed::specs::Layout::rounded))]
pub fn rounded(at: u64, align: u32) -> u64
    requires { 1 ≤ align }
    ensures { result ≡ capped (layouts.rounded at align) }
{
    at.div_ceil(align as u64).saturating_mul(align as u64)
}

/// Where the member of that number stands among members one after another, at most 2^64 - 1.
fn offset(rows: &[Aggregate], members: &[Ty], number: usize) -> u64
    requires laid_out { IsLaidOut rows.now }
    requires there { number < length members.now }
    ensures { result ≡ capped (slice_index (layouts.offsets_from 0 (map (layout rows.now) members.now)) number) }
{
    let mut end: u64 = 0;
    for i in 0..number {
        let room = room_of(rows, &members[i]);
        end = rounded(end, room.align).saturating_add(room.size);
    }
    rounded(end, room_of(rows, &members[number]).align)
}

/// Where the member of that number stands in an aggregate, at most 2^64 - 1. Those of a union stand at 0.
fn place(rows: &[Aggregate], is_union: bool, members: &[Ty], number: usize) -> u64
    requires laid_out { IsLaidOut rows.now }
    requires there { number < length members.now }
    ensures { result ≡ capped (slice_index (places rows.now is_union members.now) number) }
{
    if is_union {
        0
    } else {
        offset(rows, members, number)
    }
}

/// The member of that number.
fn member<'p>(rows: &'p [Aggregate], ty: &Ty, number: u32) -> Option<Reached<'p>>
    requires { IsLaidOut rows.now }
    ensures { Finds result (layouts.member rows.now (number ∷ []) ty.now) }
{
    match row_of(rows, ty) {
        None => None,
        Some(row) => match &row.members {
            None => None,
            Some(members) => {
                let number = number as usize;
                match members.get(number) {
                    None => None,
                    Some(ty) => {
                        let at = place(rows, row.is_union, members.as_slice(), number);
                        Some(Reached { ty, at })
                    }
                }
            }
        },
    }
}

/// What a path of members leads to.
pub fn member_at<'p>(rows: &'p [Aggregate], ty: &'p Ty, path: &[u32]) -> Option<Reached<'p>>
    requires { IsLaidOut rows.now }
    ensures { Finds result (layouts.member rows.now path.now ty.now) }
{
    let mut reached = ty;
    let mut at: u64 = 0;
    for number in path {
        match member(rows, reached, *number) {
            None => return None,
            Some(next) => {
                reached = next.ty;
                at = at.saturating_add(next.at);
            }
        }
    }
    Some(Reached { ty: reached, at })
}

/// So many bytes of 0.
fn zero_bytes(alloc: Global, count: u32) -> Result<Items<u8>, NoMemory>
    ensures { IfOk result (λ bytes. bytes ≡ replicate count 0) }
{
    Ok(Items::from_vec(vec![in alloc; 0; count as usize]?))
}

/// The lowest bytes of a word, put behind others.
fn put_bytes(word: u32, size: u8, out: &mut Items<u8>) -> Result<(), NoMemory>
    ensures { OnOk result (out.new ≡ out.old ++ bytes_of size word) }
{
    let mut left = word;
    for _ in 0..size {
        out.push((left % 256) as u8)?;
        left /= 256;
    }
    Ok(())
}

/// Bytes with the lowest ones of a word in the place of those from `at` on.
fn with_unit(
    alloc: Global,
    bytes: &[u8],
    at: usize,
    size: u8,
    word: u32,
) -> Result<Items<u8>, NoMemory>
    ensures { IfOk result (λ it. it ≡ overwritten bytes.now at (bytes_of size word)) }
{
    let start = at.min(bytes.len());
    let end = at.saturating_add(size as usize).min(bytes.len());
    let mut out = Items::from_slice(alloc, &bytes[..start])?;
    put_bytes(word, size, &mut out)?;
    out.extend_from_slice(&bytes[end..])?;
    Ok(out)
}

/// The bytes of a value: its units where they stand, and 0 in the padding.
fn value_bytes(alloc: Global, p: &Program, ty: &Ty, words: &[u32]) -> Result<Items<u8>, NoMemory>
    requires laid_out { IsLaidOut p.now.aggregates }
    requires small { IsSmall p.now ty.now }
    ensures { IfOk result (λ bytes. bytes ≡ spec.value_bytes p.now.aggregates ty.now words.now) }
{
    let bytes = zero_bytes(alloc, size(p, ty))?;
    let units = units(alloc, p, ty)?;
    spelled(alloc, &units, words, bytes)
}

/// Bytes with units where they stand.
fn spelled(
    alloc: Global,
    units: &[Unit],
    words: &[u32],
    bytes: Items<u8>,
) -> Result<Items<u8>, NoMemory>
    ensures { IfOk result (λ it. it ≡ spec.spelled units.now words.now bytes) }
{
    let mut bytes = bytes;
    let mut rest = words;
    for unit in units {
        let cut = split_word(rest);
        bytes = with_unit(alloc, bytes.as_slice(), unit.at as usize, unit.size, cut.0)?;
        rest = cut.1;
    }
    Ok(bytes)
}

/// The number that at most four bytes spell, the lowest first.
fn number_of(bytes: &[u8]) -> u32
    requires { length bytes.now ≤ 4 }
    ensures { result ≡ number_of bytes.now }
{
    match bytes {
        [] => 0,
        [a] => *a as u32,
        [a, b] => *a as u32 + 256 * *b as u32,
        [a, b, c] => *a as u32 + 256 * (*b as u32 + 256 * *c as u32),
        [a, b, c, d, ..] => { *a as u32 + 256 * (*b as u32 + 256 * (*c as u32 + 256 * *d as u32)) }
    }
}

/// The word of a unit that stands at `at` in the bytes of a value.
fn unit_in(bytes: &[u8], at: u64, size: u8) -> u32
    requires { size ≤ 4 }
    ensures { result ≡ spec.unit_in bytes.now (layouts.unit_at at size) }
{
    let start = at.min(bytes.len() as u64) as usize;
    let end = start.saturating_add(size as usize).min(bytes.len());
    number_of(&bytes[start..end])
}

/// Whether the values of a type have a size of at most 2^28 bytes, as all types of well-typed programs.
pub fn is_small(p: &Program, ty: &Ty) -> bool
    requires { IsLaidOut p.now.aggregates }
    ensures { IsTrue result ↔ IsSmall p.now ty.now }
{
    room_of(p.aggregates.as_slice(), ty).size <= 0x1000_0000
}

/// Whether what a path leads to has such a size; where it leads to no member, it has none.
fn has_small_end(p: &Program, ty: &Ty, path: &[u32]) -> bool
    requires { IsLaidOut p.now.aggregates }
    ensures { IsTrue result ↔ IsSmall p.now (type_at (layouts.member p.now.aggregates path.now ty.now)) }
{
    match member_at(p.aggregates.as_slice(), ty, path) {
        None => true,
        Some(reached) => is_small(p, reached.ty),
    }
}

/// Whether the sizes of a value and of its member that a path leads to are such.
pub fn has_small_part(p: &Program, ty: &Ty, path: &[u32]) -> bool
    requires { IsLaidOut p.now.aggregates }
    ensures { IsTrue result ↔ (IsSmall p.now ty.now × IsSmall p.now (type_at (layouts.member p.now.aggregates path.now ty.now))) }
{
    if is_small(p, ty) {
        has_small_end(p, ty, path)
    } else {
        false
    }
}

/// The member of a value that a path leads to, by its words; none where it leads to no member.
pub fn part_of(
    alloc: Global,
    p: &Program,
    ty: &Ty,
    path: &[u32],
    words: &[u32],
) -> Result<Words, NoMemory>
    requires laid_out { IsLaidOut p.now.aggregates }
    requires small { IsSmall p.now ty.now }
    requires small_part { IsSmall p.now (type_at (layouts.member p.now.aggregates path.now ty.now)) }
    ensures { IfOk result (λ ws. ws ≡ spec.part_of p.now.aggregates ty.now path.now words.now) }
{
    match member_at(p.aggregates.as_slice(), ty, path) {
        None => Ok(Items::new(alloc)),
        Some(reached) => {
            let bytes = value_bytes(alloc, p, ty, words)?;
            let units = units(alloc, p, reached.ty)?;
            words_of_units(alloc, bytes.as_slice(), reached.at, &units)
        }
    }
}

/// The words of units of which the value stands at `at` in these bytes.
fn words_of_units(alloc: Global, bytes: &[u8], at: u64, units: &[Unit]) -> Result<Words, NoMemory>
    requires { AreShort units.now }
    ensures { IfOk result (λ ws. ws ≡ map (λ (u : Unit). spec.unit_in bytes.now (layouts.unit_at (at + u.at) u.size)) units.now) }
{
    let mut words = Items::with_capacity(alloc, units.len())?;
    for unit in units {
        words.push(unit_in(bytes, at.saturating_add(unit.at as u64), unit.size))?;
    }
    Ok(words)
}
