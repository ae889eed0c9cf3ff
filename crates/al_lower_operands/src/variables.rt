//! Places of variables.
ghost use Rattle.std.specs.Prelude.{◌≡◌, ℕ, Bool, slice_get, slice_index, IfOk};
ghost use Rattle.al_typed.specs.Capped.{capped};
ghost use Rattle.al_typed.specs.Layout.{IsLaidOut};
ghost use Rattle.al_meaning.specs.Evaluate.{is_shared_local, is_private_global};
ghost use Rattle.al_meaning.specs.Places as places;
ghost use Rattle.al_lower_code.specs.Values as spec;
ghost use Rattle.al_lower_base.specs.Spots.{spot_of, where_of};

use al_base::NoMemory;
use al_control_values::words_in;
use al_lower_base::{Spot, Where, block_home, local_home, offset_in, some};
use al_typed::{Global, Program};
use al_variables::{global_place, locals_of, round_of, word_at, word_of};

/// Whether a local lies in the shared block of its function.
fn is_shared(p: &Program, function: u32, number: u32) -> bool
    ensures { result ≡ is_shared_local (slice_get (places.locals_of (places.function_at p.now function)) number) }
{
    match locals_of(p, function).get(number as usize) {
        None => false,
        Some(local) => local.is_shared,
    }
}

/// Where a local is.
pub fn local_at(s: Spot<'_>, number: u32) -> Result<Where, NoMemory>
    requires { IsLaidOut s.program.now.aggregates }
    ensures { (lasting : Bool) → (to : ℕ) → IfOk result (λ at. where_of at ≡ (spec.local_placed (spot_of s.entry) number).at lasting to) }
{
    if is_shared(s.program, s.function, number) {
        let slot = block_home(s)?;
        let offset = offset_in(s.program, s.function, number)?;
        Ok(Where::Stored { slot, offset })
    } else {
        Ok(Where::Slotted(local_home(s, number)?))
    }
}

/// Where a local of a function round the branch is.
pub fn outer_at(s: Spot<'_>, around: u32, number: u32) -> Result<Where, NoMemory>
    requires { IsLaidOut s.program.now.aggregates }
    ensures { (lasting : Bool) → (to : ℕ) → IfOk result (λ at. where_of at ≡ (spec.outer_placed (spot_of s.entry) around number).at lasting to) }
{
    let outer = word_at(round_of(s.program, s.function), around);
    let offset = offset_in(s.program, outer, number)?;
    Ok(Where::Stored {
        slot: around,
        offset,
    })
}

/// Whether a global is private.
pub fn is_private(p: &Program, number: u32) -> bool
    ensures { result ≡ is_private_global (slice_get p.now.globals number) }
{
    match p.globals.get(number as usize) {
        None => false,
        Some(global) => global.is_private,
    }
}

/// How many words a global takes in each proc, at most 2^64 - 1. A shared one takes none.
fn words_of(p: &Program, global: &Global) -> u64
    requires { IsLaidOut p.now.aggregates }
    ensures { result ≡ capped (places.private_words_of p.now global.now) }
{
    if global.is_private {
        words_in(p.aggregates.as_slice(), &global.ty)
    } else {
        0
    }
}

/// Where the words of a private global stand, at most 2^64 - 1.
fn private_place(p: &Program, number: u32) -> u64
    requires { IsLaidOut p.now.aggregates }
    ensures { result ≡ capped (places.private_place p.now number) }
{
    let globals = p.globals.as_slice();
    let before = &globals[..(number as usize).min(globals.len())];
    let mut place: u64 = 0;
    for global in before {
        place = place.saturating_add(words_of(p, global));
    }
    place
}

/// The address of a shared global.
pub fn global_address(p: &Program, number: u32) -> Result<u32, NoMemory>
    requires { IsLaidOut p.now.aggregates }
    ensures { IfOk result (λ at. at ≡ places.global_place p.now number) }
{
    some(word_of(global_place(p, number as usize)))
}

/// Where a global is, when its address, if it has one, stands in the slot `to`.
pub fn global_at(s: Spot<'_>, number: u32, to: u32) -> Result<Where, NoMemory>
    requires { IsLaidOut s.program.now.aggregates }
    ensures { (lasting : Bool) → IfOk result (λ at. where_of at ≡ (spec.global_placed (spot_of s.entry) number).at lasting to) }
{
    if is_private(s.program, number) {
        Ok(Where::Kept(some(word_of(private_place(s.program, number)))?))
    } else {
        Ok(Where::Stored {
            slot: to,
            offset: 0,
        })
    }
}
