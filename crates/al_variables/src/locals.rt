//! Locals that lie in the shared block of their function.
ghost use Rattle.std.specs.Prelude.{◌≡◌, ℕ, [], ◌∷◌};
ghost use Rattle.al_typed.specs.Capped.{capped};
ghost use Rattle.al_typed.specs.Layout.{IsLaidOut};
ghost use Rattle.al_meaning.specs.Evaluate as spec;
ghost use Rattle.al_meaning.specs.Places as places;
ghost use Rattle.al_variables.specs.Placing as placing;

use al_control_values::rounded;
use al_typed::{Aggregate, Local, Program, room_of};

/// The locals of the function of that number; none where there is no such function.
pub fn locals_of(p: &Program, function: u32) -> &[Local]
    ensures { result.now ≡ places.locals_of (places.function_at p.now function) }
{
    let functions = p.functions.as_slice();
    let number = function as usize;
    if number < functions.len() {
        functions[number].locals.as_slice()
    } else {
        &[]
    }
}

/// The functions round a function, the outermost first; none where there is no such function.
pub fn round_of(p: &Program, function: u32) -> &[u32]
    ensures { result.now ≡ spec.round_of (places.function_at p.now function) }
{
    let functions = p.functions.as_slice();
    let number = function as usize;
    if number < functions.len() {
        functions[number].around.as_slice()
    } else {
        &[]
    }
}

/// Where a local ends behind what ends at `end`, at most 2^64 - 1. A private one takes no room.
fn end_behind(rows: &[Aggregate], end: u64, local: &Local) -> u64
    requires { IsLaidOut rows.now }
    ensures { (at : ℕ) → end ≡ capped at → result ≡ capped (placing.end_of rows.now at (local.now ∷ [])) }
{
    if !local.is_shared {
        return end;
    }
    let room = room_of(rows, &local.ty);
    rounded(end, room.align).saturating_add(room.size)
}

/// Where these locals end in their block, at most 2^64 - 1.
fn end_of(rows: &[Aggregate], locals: &[Local]) -> u64
    requires { IsLaidOut rows.now }
    ensures { result ≡ capped (placing.end_of rows.now 0 locals.now) }
{
    let mut end: u64 = 0;
    for local in locals {
        end = end_behind(rows, end, local);
    }
    end
}

/// Where the first shared one of these locals stands behind what ends at `end`, at most 2^64 - 1; 0 where none is shared.
fn first_of(rows: &[Aggregate], end: u64, locals: &[Local]) -> u64
    requires { IsLaidOut rows.now }
    ensures { (at : ℕ) → end ≡ capped at → result ≡ capped (placing.first_of rows.now at locals.now) }
{
    for local in locals {
        if local.is_shared {
            return rounded(end, room_of(rows, &local.ty).align);
        }
    }
    0
}

/// Where a shared local stands in its function's block, at most 2^64 - 1: that of this number, or else the next one.
pub fn local_offset(p: &Program, locals: &[Local], number: u32) -> u64
    requires { IsLaidOut p.now.aggregates }
    ensures { result ≡ capped (places.local_offset p.now locals.now number) }
{
    let rows = p.aggregates.as_slice();
    let parts = locals.split_at((number as usize).min(locals.len()));
    first_of(rows, end_of(rows, parts.0), parts.1)
}
