//! Loops, at each of their stages.
ghost use Rattle.std.specs.Prelude.{◌≡◌, [], ◌∷◌, ◌++◌, false, if◌then◌else◌, IfOk};
ghost use Rattle.al_meaning.specs.Execute as spec;
ghost use Rattle.al_meaning.specs.Here as here;
ghost use Rattle.al_meaning.specs.Items as item;
ghost use Rattle.al_meaning.specs.Step as step;
ghost use Rattle.al_control.specs.Models.{here_of, next_of, work_of};
ghost use Rattle.al_walk_loops.specs.Rounds.{begins_round};

use crate::bodies::with_statement;
use crate::evaluations::{evaluation, with_dropped};
use al_base::NoMemory;
use al_control::{
    Here, Next, Stage, Taken, Work, control_at, does_two, lost, moves, staged, turns, value,
    with_work,
};
use al_control_values::is_zero;
use al_typed::{TExpr, TStmt};
use std::alloc::Global;

/// A statement, and then work in the line of the one round it.
pub fn starts_then<'p>(
    alloc: Global,
    s: &'p TStmt,
    work: Work<'p>,
    h: Here<'p>,
) -> Result<Next<'p>, NoMemory>
    ensures { IfOk result (λ n. next_of n ≡ spec.starts_then (here_of h.entry) s.now (work_of work.entry ∷ [])) }
{
    let h = with_work(h, work)?;
    moves(with_statement(alloc, s, h)?)
}

/// A statement.
pub fn starts<'p>(alloc: Global, s: &'p TStmt, h: Here<'p>) -> Result<Next<'p>, NoMemory>
    ensures { IfOk result (λ n. next_of n ≡ spec.starts (here_of h.entry) s.now) }
{
    moves(with_statement(alloc, s, h)?)
}

/// A jump back: a turn, and then the statement again.
pub fn again<'p>(alloc: Global, s: &'p TStmt, h: Here<'p>) -> Result<Next<'p>, NoMemory>
    ensures { IfOk result (λ n. next_of n ≡ step.step_work (item.WhileAgain s.now) (here_of h.entry)) }
{
    let line = h.line;
    let h = with_statement(alloc, s, h)?;
    let (control, privates) = control_at(h)?;
    Ok(Next::Turns(line, control, privates))
}

/// The body of a while whose condition holds.
#[tactic(auto, using(crate::proofs::LoopRounds::rounds))]
fn while_body<'p>(alloc: Global, s: &'p TStmt, h: Here<'p>) -> Result<Next<'p>, NoMemory>
    ensures { IfOk result (λ n. next_of n ≡ spec.while_test s.now false (here_of h.entry)) }
{
    match s {
        TStmt::While { body, .. } => {
            let again = staged(alloc, Stage::WhileAgain, s)?;
            starts_then(alloc, body.get(), again, h)
        }
        _ => lost(h),
    }
}

/// The body of a while, where its condition is not zero.
fn while_goes<'p>(
    alloc: Global,
    is_over: bool,
    s: &'p TStmt,
    h: Here<'p>,
) -> Result<Next<'p>, NoMemory>
    ensures { IfOk result (λ n. next_of n ≡ spec.while_test s.now is_over (here_of h.entry)) }
{
    if is_over {
        moves(h)
    } else {
        while_body(alloc, s, h)
    }
}

/// The condition of a while was found.
pub fn while_test<'p>(alloc: Global, s: &'p TStmt, h: Here<'p>) -> Result<Next<'p>, NoMemory>
    ensures { IfOk result (λ n. next_of n ≡ step.step_work (item.WhileTest s.now) (here_of h.entry)) }
{
    match value(h)? {
        Taken::Lost(next) => Ok(next),
        Taken::Took(a, h) => while_goes(alloc, is_zero(a.as_slice()), s, h),
    }
}

/// The condition of a do is to be asked.
#[tactic(auto, using(crate::proofs::LoopRounds::rounds))]
pub fn do_condition<'p>(alloc: Global, s: &'p TStmt, h: Here<'p>) -> Result<Next<'p>, NoMemory>
    ensures { IfOk result (λ n. next_of n ≡ spec.do_condition s.now (here_of h.entry)) }
{
    match s {
        TStmt::Do { condition, .. } => {
            let test = staged(alloc, Stage::DoTest, s)?;
            does_two(h, evaluation(condition), test)
        }
        _ => lost(h),
    }
}

/// A do again, where its condition is not zero.
fn do_goes<'p>(
    alloc: Global,
    is_over: bool,
    s: &'p TStmt,
    h: Here<'p>,
) -> Result<Next<'p>, NoMemory>
    ensures { IfOk result (λ n. next_of n ≡ (if is_over then here.moves (here_of h.entry) else step.step_work (item.WhileAgain s.now) (here_of h.entry))) }
{
    if is_over {
        moves(h)
    } else {
        again(alloc, s, h)
    }
}

/// The condition of a do was found.
pub fn do_test<'p>(alloc: Global, s: &'p TStmt, h: Here<'p>) -> Result<Next<'p>, NoMemory>
    ensures { IfOk result (λ n. next_of n ≡ step.step_work (item.DoTest s.now) (here_of h.entry)) }
{
    match value(h)? {
        Taken::Lost(next) => Ok(next),
        Taken::Took(a, h) => do_goes(alloc, is_zero(a.as_slice()), s, h),
    }
}

/// The condition of the for `s` is to be asked, or its body begins where it has none.
fn begin_round<'p>(
    alloc: Global,
    s: &'p TStmt,
    condition: &'p Option<TExpr>,
    body: &'p TStmt,
    h: Here<'p>,
) -> Result<Next<'p>, NoMemory>
    ensures { IfOk result (λ n. next_of n ≡ begins_round condition.now body.now s.now (here_of h.entry)) }
{
    match condition {
        Some(condition) => {
            let test = staged(alloc, Stage::ForTest, s)?;
            does_two(h, evaluation(condition), test)
        }
        None => {
            let next = staged(alloc, Stage::ForNext, s)?;
            starts_then(alloc, body, next, h)
        }
    }
}

/// The condition of a for is to be asked, where it has one.
#[tactic(auto, using(crate::proofs::LoopRounds::rounds))]
pub fn for_condition<'p>(alloc: Global, s: &'p TStmt, h: Here<'p>) -> Result<Next<'p>, NoMemory>
    ensures { IfOk result (λ n. next_of n ≡ spec.for_condition s.now (here_of h.entry)) }
{
    match s {
        TStmt::For {
            condition,
            body,
            ..
        } => begin_round(alloc, s, condition, body.get(), h),
        _ => lost(h),
    }
}

/// The body of a for whose condition holds.
#[tactic(auto, using(crate::proofs::LoopRounds::rounds))]
fn for_body<'p>(alloc: Global, s: &'p TStmt, h: Here<'p>) -> Result<Next<'p>, NoMemory>
    ensures { IfOk result (λ n. next_of n ≡ spec.for_test s.now false (here_of h.entry)) }
{
    match s {
        TStmt::For { body, .. } => {
            let next = staged(alloc, Stage::ForNext, s)?;
            starts_then(alloc, body.get(), next, h)
        }
        _ => lost(h),
    }
}

/// The body of a for, where its condition is not zero.
fn for_goes<'p>(
    alloc: Global,
    is_over: bool,
    s: &'p TStmt,
    h: Here<'p>,
) -> Result<Next<'p>, NoMemory>
    ensures { IfOk result (λ n. next_of n ≡ spec.for_test s.now is_over (here_of h.entry)) }
{
    if is_over {
        moves(h)
    } else {
        for_body(alloc, s, h)
    }
}

/// The condition of a for was found.
pub fn for_test<'p>(alloc: Global, s: &'p TStmt, h: Here<'p>) -> Result<Next<'p>, NoMemory>
    ensures { IfOk result (λ n. next_of n ≡ step.step_work (item.ForTest s.now) (here_of h.entry)) }
{
    match value(h)? {
        Taken::Lost(next) => Ok(next),
        Taken::Took(a, h) => for_goes(alloc, is_zero(a.as_slice()), s, h),
    }
}

/// An expression whose value is dropped, where there is one, before the rest.
fn with_optional<'p>(e: &'p Option<TExpr>, h: Here<'p>) -> Result<Here<'p>, NoMemory>
    ensures { IfOk result (λ r. here_of r ≡ here.with_work (spec.optionally e.now) (here_of h.entry)) }
{
    match e {
        None => Ok(h),
        Some(e) => with_dropped(e, h),
    }
}

/// An expression whose value is dropped, where there is one, and then work.
pub fn optional_then<'p>(
    e: &'p Option<TExpr>,
    work: Work<'p>,
    h: Here<'p>,
) -> Result<Next<'p>, NoMemory>
    ensures { IfOk result (λ n. next_of n ≡ here.does (here_of h.entry) (spec.optionally e.now ++ work_of work.entry ∷ [])) }
{
    let h = with_work(h, work)?;
    moves(with_optional(e, h)?)
}

/// The third expression of a for, and then its jump back.
#[tactic(auto, using(crate::proofs::LoopRounds::rounds))]
pub fn for_next<'p>(alloc: Global, s: &'p TStmt, h: Here<'p>) -> Result<Next<'p>, NoMemory>
    ensures { IfOk result (λ n. next_of n ≡ spec.for_next s.now (here_of h.entry)) }
{
    match s {
        TStmt::For { step, .. } => {
            let again = staged(alloc, Stage::ForAgain, s)?;
            optional_then(step, again, h)
        }
        _ => lost(h),
    }
}

/// The jump back of a for, to its condition.
pub fn for_again<'p>(alloc: Global, s: &'p TStmt, h: Here<'p>) -> Result<Next<'p>, NoMemory>
    ensures { IfOk result (λ n. next_of n ≡ step.step_work (item.ForAgain s.now) (here_of h.entry)) }
{
    let condition = staged(alloc, Stage::ForCondition, s)?;
    turns(h, condition)
}
