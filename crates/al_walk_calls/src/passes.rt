//! What a function of an adt gets of the object before its name.
ghost use Rattle.std.specs.Prelude.{◌≡◌, IfOk, IfErr};
ghost use Rattle.al_typed.specs.Layout.{IsLaidOut};
ghost use Rattle.al_typed.specs.declared.expression.Passed.TheVariants as passed;
ghost use Rattle.al_meaning.specs.Evaluate as spec;
ghost use Rattle.al_meaning.specs.Here as here;
ghost use Rattle.al_meaning.specs.Items as item;
ghost use Rattle.al_meaning.specs.Step as step;
ghost use Rattle.al_control.specs.Fits.{Explains, PartFits};
ghost use Rattle.al_control.specs.Models.{here_of, next_of};

use al_base::NoMemory;
use al_control::{
    Found, Here, Next, Storage, Taken, Unmade, Work, address, does, gives, lost, moves, part,
    value, word,
};
use al_control_values::{one_word, sum};
use al_typed::{Passed, Ty};
use std::alloc::Global;

/// The value of the place at an address is read.
fn reads<'p>(ty: &'p Ty, at: u32, h: Here<'p>) -> Result<Next<'p>, NoMemory>
    ensures { IfOk result (λ n. next_of n ≡ spec.passes_place passed.Value ty.now at (here_of h.entry)) }
{
    let mut h = h;
    h.frame.found.push(Found::Address(at))?;
    does(h, Work::Storage(Storage::Read(ty)))
}

/// What the function gets of an object at an address.
fn passes_place<'p>(
    alloc: Global,
    passed: Passed,
    ty: &'p Ty,
    at: u32,
    h: Here<'p>,
) -> Result<Next<'p>, NoMemory>
    ensures { IfOk result (λ n. next_of n ≡ spec.passes_place passed ty.now at (here_of h.entry)) }
{
    match passed {
        Passed::Address => {
            let words = one_word(alloc, at)?;
            gives(h, words)
        }
        Passed::Value => reads(ty, at, h),
        Passed::Nothing => moves(h),
    }
}

/// What the function gets of the member of a place that was found.
pub fn pass_place<'p>(
    alloc: Global,
    passed: Passed,
    ty: &'p Ty,
    offset: u32,
    h: Here<'p>,
) -> Result<Next<'p>, NoMemory>
    ensures { IfOk result (λ n. next_of n ≡ step.step_work (item.PassPlace passed ty.now offset) (here_of h.entry)) }
{
    match address(h)? {
        Taken::Lost(next) => Ok(next),
        Taken::Took(at, h) => passes_place(alloc, passed, ty, sum(at as u64, offset as u64), h),
    }
}

/// What the function gets of the member of what a pointer leads to.
pub fn pass_pointer<'p>(
    alloc: Global,
    passed: Passed,
    ty: &'p Ty,
    offset: u32,
    h: Here<'p>,
) -> Result<Next<'p>, NoMemory>
    ensures { IfOk result (λ n. next_of n ≡ step.step_work (item.PassPointer passed ty.now offset) (here_of h.entry)) }
{
    match word(h)? {
        Taken::Lost(next) => Ok(next),
        Taken::Took(at, h) => passes_place(alloc, passed, ty, sum(at as u64, offset as u64), h),
    }
}

/// The object's value is dropped.
fn passes_nothing<'p>(h: Here<'p>) -> Result<Next<'p>, NoMemory>
    ensures { IfOk result (λ n. next_of n ≡ here.with_value (here_of h.entry) (λ _ at. here.moves at)) }
{
    match value(h)? {
        Taken::Lost(next) => Ok(next),
        Taken::Took(_, h) => moves(h),
    }
}

/// A value has no address.
fn passes_address<'p>(h: Here<'p>) -> Result<Next<'p>, NoMemory>
    ensures { IfOk result (λ n. next_of n ≡ here.with_value (here_of h.entry) (λ _ at. here.lost at)) }
{
    match value(h)? {
        Taken::Lost(next) => Ok(next),
        Taken::Took(_, h) => lost(h),
    }
}

/// What the function gets of the member of a value.
pub fn pass_part<'p>(
    alloc: Global,
    passed: Passed,
    ty: &Ty,
    path: &[u32],
    h: Here<'p>,
) -> Result<Next<'p>, Unmade>
    requires { IsLaidOut h.program.now.aggregates }
    ensures next { IfOk result (λ n. next_of n ≡ step.step_work (item.PassPart passed ty.now path.now) (here_of h.entry)) }
    ensures why { IfErr result (λ e. Explains e (PartFits h.entry.program.now ty.now path.now)) }
{
    match passed {
        Passed::Address => Ok(passes_address(h)?),
        Passed::Value => part(alloc, ty, path, h),
        Passed::Nothing => Ok(passes_nothing(h)?),
    }
}
