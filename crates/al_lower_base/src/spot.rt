//! Where operations are made, the slots of variables, and the sizes of values there.
ghost use Rattle.std.specs.Prelude.{◌≡◌, ◌+◌, IfOk, Some, slice_get};
ghost use Rattle.al_typed.specs.Layout.{IsLaidOut};
ghost use Rattle.al_lower_code.specs.Homes as spec;
ghost use Rattle.al_lower_code.specs.Moving as moving;
ghost use Rattle.al_lower_base.specs.Spots.{spot_of};

use crate::code::slot_behind;
use al_base::NoMemory;
use al_control_values::is_small;
use al_typed::{Local, Program, Ty, Unit, room_of, size, units};
use al_variables::{few_words, local_offset, locals_of, round_of, small_size, word_of};
use std::alloc::Global;

/// In a function of a program, in a line. The turn of the statement's first iterator stands in the slot `turns`, and those of
/// the others in the slots behind it.
#[derive(Clone, Copy)]
pub struct Spot<'p> {
    pub alloc: Global,
    pub program: &'p Program,
    pub function: u32,
    pub line: u32,
    pub turns: u32,
}

/// What there is, or else want of memory: numbers without room in a word stand for more slots or bytes than there can be.
pub fn some(number: Option<u32>) -> Result<u32, NoMemory>
    ensures { IfOk result (λ n. number ≡ Some n) }
{
    match number {
        Some(n) => Ok(n),
        None => Err(NoMemory),
    }
}

/// How many words a value of a type takes.
pub fn words(s: Spot<'_>, ty: &Ty) -> Result<u32, NoMemory>
    requires { IsLaidOut s.program.now.aggregates }
    ensures { IfOk result (λ n. n ≡ spec.words (spot_of s.entry) ty.now) }
{
    some(few_words(s.program.aggregates.as_slice(), ty))
}

/// How many bytes.
pub fn bytes(s: Spot<'_>, ty: &Ty) -> Result<u32, NoMemory>
    requires { IsLaidOut s.program.now.aggregates }
    ensures { IfOk result (λ n. n ≡ spec.size (spot_of s.entry) ty.now) }
{
    some(small_size(s.program, ty))
}

/// The units of a value of a type.
pub fn units_of(s: Spot<'_>, ty: &Ty) -> Result<Vec<Unit>, NoMemory>
    requires { IsLaidOut s.program.now.aggregates }
    ensures { IfOk result (λ us. us.items ≡ spec.units (spot_of s.entry) ty.now) }
{
    if !is_small(s.program, ty) {
        return Err(NoMemory);
    }
    units(s.alloc, s.program, ty)
}

/// The layout by which a value of a type is loaded and stored in one operation, if it is.
#[tactic(auto, unfolding(al_lower_code::specs::Moving::layout_number))]
pub fn layout_number(s: Spot<'_>, ty: &Ty) -> Option<u32>
    requires { IsLaidOut s.program.now.aggregates }
    ensures { result ≡ moving.layout_number (spot_of s.entry) ty.now }
{
    match ty {
        Ty::Aggregate(number) => {
            let room = room_of(s.program.aggregates.as_slice(), ty);
            if room.units > 16 && room.size <= 1024 {
                Some(*number)
            } else {
                None
            }
        }
        Ty::Void
        | Ty::Integer(_)
        | Ty::Pointer(_)
        | Ty::Array { .. }
        | Ty::Chan { .. }
        | Ty::Tuple(_)
        | Ty::Function { .. } => None,
    }
}

/// The words that a local has in slots, where so many parameters are left.
fn local_slots(s: Spot<'_>, parameters: u32, local: &Local) -> Result<u32, NoMemory>
    requires { IsLaidOut s.program.now.aggregates }
    ensures { IfOk result (λ n. n ≡ spec.local_slots s.entry.program.now parameters local.now) }
{
    if local.is_shared && parameters == 0 {
        return Ok(0);
    }
    words(s, &local.ty)
}

/// The slot behind the first so many locals, the first of which stands at `at`.
#[tactic(auto, using(crate::proofs::Behind::behind_rules))]
fn behind_locals(
    s: Spot<'_>,
    at: u32,
    parameters: u32,
    number: u32,
    locals: &[Local],
) -> Result<u32, NoMemory>
    requires { IsLaidOut s.program.now.aggregates }
    ensures { IfOk result (λ slot. slot ≡ spec.behind_locals s.entry.program.now at parameters number locals.now) }
{
    let (mut slot, mut first, mut left) = (at, parameters, number);
    for local in locals {
        if left == 0 {
            return Ok(slot);
        }
        slot = slot_behind(slot, local_slots(s, first, local)?)?;
        first = first.saturating_sub(1);
        left -= 1;
    }
    Ok(slot)
}

/// How many of the locals of a function are parameters.
fn parameters_of(p: &Program, function: u32) -> u32
    ensures { result ≡ spec.parameters_of (slice_get p.now.functions function) }
{
    let functions = p.functions.as_slice();
    let number = function as usize;
    if number < functions.len() {
        functions[number].parameters
    } else {
        0
    }
}

/// The slot where a local of the function begins.
pub fn local_home(s: Spot<'_>, number: u32) -> Result<u32, NoMemory>
    requires { IsLaidOut s.program.now.aggregates }
    ensures { IfOk result (λ slot. slot ≡ spec.local_home s.entry.program.now s.entry.function number) }
{
    let round = round_of(s.program, s.function);
    let at = some(word_of(round.len() as u64))?;
    behind_locals(
        s,
        at,
        parameters_of(s.program, s.function),
        number,
        locals_of(s.program, s.function),
    )
}

/// The slot of the address of the shared block.
pub fn block_home(s: Spot<'_>) -> Result<u32, NoMemory>
    requires { IsLaidOut s.program.now.aggregates }
    ensures { IfOk result (λ slot. slot ≡ spec.block_home s.entry.program.now s.entry.function) }
{
    let count = some(word_of(locals_of(s.program, s.function).len() as u64))?;
    local_home(s, count)
}

/// Where a shared local of a function stands in the block.
pub fn offset_in(p: &Program, function: u32, number: u32) -> Result<u32, NoMemory>
    requires { IsLaidOut p.now.aggregates }
    ensures { IfOk result (λ at. at ≡ spec.offset_in p.now function number) }
{
    some(word_of(local_offset(p, locals_of(p, function), number)))
}
