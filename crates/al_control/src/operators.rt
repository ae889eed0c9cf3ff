//! What is done with operands that were found.
ghost use Rattle.std.specs.Prelude.{◌≡◌, IfOk, IfErr};
ghost use Rattle.al_typed.specs.Layout.{IsLaidOut};
ghost use Rattle.al_control.specs.Fits.{Explains, PartFits};
ghost use Rattle.al_meaning.specs.Items as item;
ghost use Rattle.al_meaning.specs.Step as step;
ghost use Rattle.al_control.specs.Models.{here_of, next_of, operator_of};

use crate::control::{Here, Next};
use crate::here::{does_two, gives, traps};
use crate::take::{Taken, joined, two_values, value, values};
use crate::unmade::Unmade;
use crate::work::{Operator, ValueStage, Work};
use al_base::{Kind, NoMemory, Trap};
use al_control_values::{
    bits, converted, elements_between, has_small_part, is_zero, one_word, operated, operated_once,
    part_of, stepped_by, truth,
};
use al_typed::{BinaryOp, TExpr, Ty, UnaryOp};
use std::alloc::Global;

fn unary<'p>(alloc: Global, op: UnaryOp, kind: Kind, h: Here<'p>) -> Result<Next<'p>, NoMemory>
    ensures { IfOk result (λ n. next_of n ≡ step.step_work (item.Unary op kind) (here_of h.entry)) }
{
    match value(h)? {
        Taken::Lost(next) => Ok(next),
        Taken::Took(a, h) => {
            let words = operated_once(alloc, op, kind, a)?;
            gives(h, words)
        }
    }
}

fn negate<'p>(alloc: Global, h: Here<'p>) -> Result<Next<'p>, NoMemory>
    ensures { IfOk result (λ n. next_of n ≡ step.step_work item.Negate (here_of h.entry)) }
{
    match value(h)? {
        Taken::Lost(next) => Ok(next),
        Taken::Took(a, h) => {
            let words = truth(alloc, is_zero(a.as_slice()))?;
            gives(h, words)
        }
    }
}

/// The value of a condition that is true of all but 0.
fn truth_of<'p>(alloc: Global, h: Here<'p>) -> Result<Next<'p>, NoMemory>
    ensures { IfOk result (λ n. next_of n ≡ step.step_work item.Truth (here_of h.entry)) }
{
    match value(h)? {
        Taken::Lost(next) => Ok(next),
        Taken::Took(a, h) => {
            let words = truth(alloc, !is_zero(a.as_slice()))?;
            gives(h, words)
        }
    }
}

fn binary<'p>(alloc: Global, op: BinaryOp, kind: Kind, h: Here<'p>) -> Result<Next<'p>, NoMemory>
    ensures { IfOk result (λ n. next_of n ≡ step.step_work (item.Binary op kind) (here_of h.entry)) }
{
    match two_values(h)? {
        Taken::Lost(next) => Ok(next),
        Taken::Took(both, h) => {
            let (a, b) = both;
            match operated(alloc, op, kind, a.as_slice(), b.as_slice())? {
                Some(words) => gives(h, words),
                None => traps(h, Trap::Divide),
            }
        }
    }
}

/// The right side of `&&`, where the left was found.
pub fn and_then<'p>(alloc: Global, right: &'p TExpr, h: Here<'p>) -> Result<Next<'p>, NoMemory>
    ensures { IfOk result (λ n. next_of n ≡ step.step_work (item.AndThen right.now) (here_of h.entry)) }
{
    match value(h)? {
        Taken::Lost(next) => Ok(next),
        Taken::Took(a, h) => {
            if is_zero(a.as_slice()) {
                let words = truth(alloc, false)?;
                gives(h, words)
            } else {
                does_two(
                    h,
                    Work::Value(ValueStage::Eval, right),
                    Work::Operator(Operator::Truth),
                )
            }
        }
    }
}

/// The right side of `||`, where the left was found.
pub fn or_else<'p>(alloc: Global, right: &'p TExpr, h: Here<'p>) -> Result<Next<'p>, NoMemory>
    ensures { IfOk result (λ n. next_of n ≡ step.step_work (item.OrElse right.now) (here_of h.entry)) }
{
    match value(h)? {
        Taken::Lost(next) => Ok(next),
        Taken::Took(a, h) => {
            if is_zero(a.as_slice()) {
                does_two(
                    h,
                    Work::Value(ValueStage::Eval, right),
                    Work::Operator(Operator::Truth),
                )
            } else {
                let words = truth(alloc, true)?;
                gives(h, words)
            }
        }
    }
}

fn advance<'p>(alloc: Global, back: bool, size: u32, h: Here<'p>) -> Result<Next<'p>, NoMemory>
    ensures { IfOk result (λ n. next_of n ≡ step.step_work (item.Advance back size) (here_of h.entry)) }
{
    match two_values(h)? {
        Taken::Lost(next) => Ok(next),
        Taken::Took(both, h) => {
            let (pointer, count) = both;
            let word = stepped_by(back, size, bits(pointer.as_slice()), bits(count.as_slice()));
            gives(h, one_word(alloc, word)?)
        }
    }
}

fn advance_counted<'p>(alloc: Global, size: u32, h: Here<'p>) -> Result<Next<'p>, NoMemory>
    ensures { IfOk result (λ n. next_of n ≡ step.step_work (item.AdvanceCounted size) (here_of h.entry)) }
{
    match two_values(h)? {
        Taken::Lost(next) => Ok(next),
        Taken::Took(both, h) => {
            let (count, pointer) = both;
            let word = stepped_by(
                false,
                size,
                bits(pointer.as_slice()),
                bits(count.as_slice()),
            );
            gives(h, one_word(alloc, word)?)
        }
    }
}

fn between<'p>(alloc: Global, size: u32, h: Here<'p>) -> Result<Next<'p>, NoMemory>
    ensures { IfOk result (λ n. next_of n ≡ step.step_work (item.Between size) (here_of h.entry)) }
{
    match two_values(h)? {
        Taken::Lost(next) => Ok(next),
        Taken::Took(both, h) => {
            let (a, b) = both;
            let word = elements_between(size, bits(a.as_slice()), bits(b.as_slice()));
            gives(h, one_word(alloc, word)?)
        }
    }
}

fn convert<'p>(alloc: Global, from: &Ty, to: &Ty, h: Here<'p>) -> Result<Next<'p>, NoMemory>
    requires { IsLaidOut h.program.now.aggregates }
    ensures { IfOk result (λ n. next_of n ≡ step.step_work (item.Convert from.now to.now) (here_of h.entry)) }
{
    match value(h)? {
        Taken::Lost(next) => Ok(next),
        Taken::Took(a, h) => {
            let rows = h.program.aggregates.as_slice();
            let words = converted(alloc, rows, from, to, a.as_slice())?;
            gives(h, words)
        }
    }
}

fn join<'p>(alloc: Global, count: usize, h: Here<'p>) -> Result<Next<'p>, NoMemory>
    ensures { IfOk result (λ n. next_of n ≡ step.step_work (item.Join count) (here_of h.entry)) }
{
    match values(alloc, count, h)? {
        Taken::Lost(next) => Ok(next),
        Taken::Took(values, h) => {
            let words = joined(alloc, values)?;
            gives(h, words)
        }
    }
}

/// A member of a value, where the sizes of both fit.
fn small_part<'p>(alloc: Global, ty: &Ty, path: &[u32], h: Here<'p>) -> Result<Next<'p>, NoMemory>
    requires laid_out { IsLaidOut h.program.now.aggregates }
    requires fits { PartFits h.program.now ty.now path.now }
    ensures { IfOk result (λ n. next_of n ≡ step.step_work (item.Part ty.now path.now) (here_of h.entry)) }
{
    match value(h)? {
        Taken::Lost(next) => Ok(next),
        Taken::Took(a, h) => {
            let words = part_of(alloc, h.program, ty, path, a.as_slice())?;
            gives(h, words)
        }
    }
}

/// A member of a value.
pub fn part<'p>(alloc: Global, ty: &Ty, path: &[u32], h: Here<'p>) -> Result<Next<'p>, Unmade>
    requires { IsLaidOut h.program.now.aggregates }
    ensures next { IfOk result (λ n. next_of n ≡ step.step_work (item.Part ty.now path.now) (here_of h.entry)) }
    ensures why { IfErr result (λ e. Explains e (PartFits h.entry.program.now ty.now path.now)) }
{
    if !has_small_part(h.program, ty, path) {
        return Err(Unmade::TooLarge);
    }
    Ok(small_part(alloc, ty, path, h)?)
}

/// What an operator does with the operands that were found.
pub fn operate<'p>(alloc: Global, operator: Operator<'p>, h: Here<'p>) -> Result<Next<'p>, NoMemory>
    requires { IsLaidOut h.program.now.aggregates }
    ensures { IfOk result (λ n. next_of n ≡ step.step_work (operator_of operator.entry) (here_of h.entry)) }
{
    match operator {
        Operator::Unary(op, kind) => unary(alloc, op, kind, h),
        Operator::Negate => negate(alloc, h),
        Operator::Binary(op, kind) => binary(alloc, op, kind, h),
        Operator::Truth => truth_of(alloc, h),
        Operator::Advance { back, size } => advance(alloc, back, size, h),
        Operator::AdvanceCounted { size } => advance_counted(alloc, size, h),
        Operator::Between { size } => between(alloc, size, h),
        Operator::Convert { from, to } => convert(alloc, from, to, h),
        Operator::Join { count } => join(alloc, count, h),
    }
}
