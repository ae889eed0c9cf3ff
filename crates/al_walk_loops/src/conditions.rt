//! Conditions of checks and ifs that were found.
ghost use Rattle.std.specs.Prelude.{◌≡◌, if◌then◌else◌, IfOk};
ghost use Rattle.al_base.specs.declared.trap.Trap.TheVariants as trap;
ghost use Rattle.al_meaning.specs.Execute as spec;
ghost use Rattle.al_meaning.specs.Here as here;
ghost use Rattle.al_meaning.specs.Items as item;
ghost use Rattle.al_meaning.specs.Step as step;
ghost use Rattle.al_control.specs.Models.{here_of, next_of};

use crate::loops::starts;
use al_base::{NoMemory, Trap};
use al_control::{Here, Next, Taken, moves, traps, value};
use al_control_values::is_zero;
use al_items::Boxed;
use al_typed::TStmt;
use std::alloc::Global;

/// A check, where its condition is zero or not.
fn test_goes<'p>(is_zero: bool, h: Here<'p>) -> Result<Next<'p>, NoMemory>
    ensures { IfOk result (λ n. next_of n ≡ (if is_zero then here.traps (here_of h.entry) trap.Check else here.moves (here_of h.entry))) }
{
    if is_zero {
        traps(h, Trap::Check)
    } else {
        moves(h)
    }
}

/// The condition of a check was found.
pub fn test<'p>(h: Here<'p>) -> Result<Next<'p>, NoMemory>
    ensures { IfOk result (λ n. next_of n ≡ step.step_work item.Test (here_of h.entry)) }
{
    match value(h)? {
        Taken::Lost(next) => Ok(next),
        Taken::Took(a, h) => test_goes(is_zero(a.as_slice()), h),
    }
}

/// The other statement of an if, where it has one.
fn starts_other<'p>(
    alloc: Global,
    other: &'p Option<Boxed<TStmt>>,
    h: Here<'p>,
) -> Result<Next<'p>, NoMemory>
    ensures { IfOk result (λ n. next_of n ≡ spec.starts_other (here_of h.entry) other.now) }
{
    match other {
        None => moves(h),
        Some(other) => starts(alloc, other.get(), h),
    }
}

/// One of the statements of an if, where its condition is zero or not.
fn choose_goes<'p>(
    alloc: Global,
    is_zero: bool,
    chosen: &'p TStmt,
    other: &'p Option<Boxed<TStmt>>,
    h: Here<'p>,
) -> Result<Next<'p>, NoMemory>
    ensures { IfOk result (λ n. next_of n ≡ (if is_zero then spec.starts_other (here_of h.entry) other.now else spec.starts (here_of h.entry) chosen.now)) }
{
    if is_zero {
        starts_other(alloc, other, h)
    } else {
        starts(alloc, chosen, h)
    }
}

/// The condition of an if was found.
pub fn choose<'p>(
    alloc: Global,
    chosen: &'p TStmt,
    other: &'p Option<Boxed<TStmt>>,
    h: Here<'p>,
) -> Result<Next<'p>, NoMemory>
    ensures { IfOk result (λ n. next_of n ≡ step.step_work (item.Choose chosen.now other.now) (here_of h.entry)) }
{
    match value(h)? {
        Taken::Lost(next) => Ok(next),
        Taken::Took(a, h) => choose_goes(alloc, is_zero(a.as_slice()), chosen, other, h),
    }
}
