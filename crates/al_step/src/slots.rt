//! The words that functions take on the stack of a task.
ghost use Rattle.std.specs.Prelude.{◌≡◌, IfOk};
ghost use Rattle.al_typed.specs.Layout.{IsLaidOut};
ghost use Rattle.al_walk_calls.specs.Slots.{slots_in};

use al_base::NoMemory;
use al_items::Items;
use al_typed::{Program, function_slots};
use std::alloc::Global;

/// The words that each function of a program takes on the stack of a task, at most 2^64 - 1.
pub(crate) fn slots_of(alloc: Global, p: &Program) -> Result<Items<u64>, NoMemory>
    requires { IsLaidOut p.now.aggregates }
    ensures { IfOk result (λ slots. slots ≡ slots_in p.now) }
{
    let mut slots = Items::with_capacity(alloc, p.functions.len())?;
    for f in p.functions.as_slice() {
        slots.push(function_slots(p, f))?;
    }
    Ok(slots)
}
