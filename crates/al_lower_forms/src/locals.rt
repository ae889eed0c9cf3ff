//! Places of locals.
ghost use Rattle.std.specs.Prelude.{◌≡◌, ℕ, Bool, slice_get, IfOk};
ghost use Rattle.al_typed.specs.Layout.{IsLaidOut};
ghost use Rattle.al_meaning.specs.Evaluate.{is_shared_local};
ghost use Rattle.al_meaning.specs.Places as places;
ghost use Rattle.al_lower_code.specs.Values as spec;
ghost use Rattle.al_lower_base.specs.Spots.{spot_of, where_of};

use al_base::NoMemory;
use al_lower_base::{Spot, Where, block_home, local_home, offset_in};
use al_typed::Program;
use al_variables::locals_of;

/// Whether a local lies in the shared block of its function.
fn is_shared(p: &Program, function: u32, number: u32) -> bool
    ensures { result ≡ is_shared_local (slice_get (places.locals_of (places.function_at p.now function)) number) }
{
    match locals_of(p, function).get(number as usize) {
        None => false,
        Some(local) => local.is_shared,
    }
}

/// Where a local is.
pub fn local_at(s: Spot<'_>, number: u32) -> Result<Where, NoMemory>
    requires { IsLaidOut s.program.now.aggregates }
    ensures { (lasting : Bool) → (to : ℕ) → IfOk result (λ at. where_of at ≡ (spec.local_placed (spot_of s.entry) number).at lasting to) }
{
    if is_shared(s.program, s.function, number) {
        let slot = block_home(s)?;
        let offset = offset_in(s.program, s.function, number)?;
        Ok(Where::Stored { slot, offset })
    } else {
        Ok(Where::Slotted(local_home(s, number)?))
    }
}
