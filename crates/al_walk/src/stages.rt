//! Statements at each of their stages.
ghost use Rattle.std.specs.Prelude.{◌≡◌, IfOk, IfErr};
ghost use Rattle.al_typed.specs.Layout.{IsLaidOut};
ghost use Rattle.al_meaning.specs.Execute as spec;
ghost use Rattle.al_meaning.specs.Step as step;
ghost use Rattle.al_control.specs.Fits.{Explains};
ghost use Rattle.al_control.specs.Models.{choose_of, here_of, next_of, stage_of};
ghost use Rattle.al_walk.specs.Works.{StatementFits, WorkFits};

use crate::calls::{do_become, do_procs, do_tasks};
use al_control::{Here, Next, Stage, Unmade, moves};
use al_typed::TStmt;
use al_walk_cases::{alt_talk, alt_went, select};
use al_walk_jumps::jumps;
use al_walk_loops::{
    again, choose, do_condition, do_test, for_again, for_condition, for_next, for_test, starts,
    while_test,
};
use al_walk_statements::{
    do_alloc, do_alt, do_block, do_break, do_check, do_continue, do_declare, do_do, do_for, do_par,
    do_return, do_unalloc, do_value, evaluates_then,
};
use std::alloc::Global;

/// What a statement does.
pub fn do_statement<'p>(alloc: Global, s: &'p TStmt, h: Here<'p>) -> Result<Next<'p>, Unmade>
    requires { IsLaidOut h.program.now.aggregates }
    ensures next { IfOk result (λ n. next_of n ≡ spec.do_statement s.now (here_of h.entry)) }
    ensures why { IfErr result (λ e. Explains e (StatementFits h.entry.program.now s.now)) }
{
    match s {
        TStmt::Empty { .. } => Ok(moves(h)?),
        TStmt::Case { .. } => Ok(moves(h)?),
        TStmt::Default => Ok(moves(h)?),
        TStmt::AltCase { .. } => Ok(moves(h)?),
        TStmt::Rescue { .. } => Ok(moves(h)?),
        TStmt::Block { body, .. } => Ok(do_block(alloc, body.as_slice(), h)?),
        TStmt::Declare { initializers, .. } => Ok(do_declare(initializers.as_slice(), h)?),
        TStmt::Value {
            iterators,
            value,
            ..
        } => Ok(do_value(iterators.as_slice(), value, h)?),
        TStmt::Label { body, .. } => Ok(starts(alloc, body.get(), h)?),
        TStmt::If { condition, .. } => Ok(evaluates_then(alloc, condition, Stage::Choose, s, h)?),
        TStmt::While { condition, .. } => {
            Ok(evaluates_then(alloc, condition, Stage::WhileTest, s, h)?)
        }
        TStmt::Do { body, .. } => Ok(do_do(alloc, body.get(), s, h)?),
        TStmt::For { start, .. } => Ok(do_for(alloc, start, s, h)?),
        TStmt::Switch { value, .. } => Ok(evaluates_then(alloc, value, Stage::Select, s, h)?),
        TStmt::Alt { body, .. } => Ok(do_alt(alloc, body.as_slice(), s, h)?),
        TStmt::Par { branches, .. } => Ok(do_par(alloc, branches.as_slice(), h)?),
        TStmt::Raise { rescue, .. } => Ok(jumps(alloc, *rescue, h)?),
        TStmt::Goto { label, .. } => Ok(jumps(alloc, *label, h)?),
        TStmt::Return { value, .. } => Ok(do_return(value, h)?),
        TStmt::Become { call, .. } => do_become(call, h),
        TStmt::Break { levels, .. } => Ok(do_break(*levels, h)?),
        TStmt::Continue { levels, .. } => Ok(do_continue(*levels, h)?),
        TStmt::Alloc { places, .. } => Ok(do_alloc(places.as_slice(), h)?),
        TStmt::Unalloc { values, .. } => Ok(do_unalloc(values.as_slice(), h)?),
        TStmt::Check { value, .. } => Ok(do_check(value, h)?),
        TStmt::Proc { calls, .. } => do_procs(calls.as_slice(), h),
        TStmt::Task { calls, .. } => do_tasks(calls.as_slice(), h),
    }
}

/// The condition of the statement `s` was found, where it is an if.
fn choose_in<'p>(alloc: Global, s: &'p TStmt, h: Here<'p>) -> Result<Next<'p>, Unmade>
    requires { IsLaidOut h.program.now.aggregates }
    ensures next { IfOk result (λ n. next_of n ≡ step.step_work (choose_of s.now) (here_of h.entry)) }
    ensures why { IfErr result (λ e. Explains e (WorkFits (here_of h.entry) (choose_of s.now))) }
{
    match s {
        TStmt::If { then, other, .. } => Ok(choose(alloc, then.get(), other, h)?),
        _ => do_statement(alloc, s, h),
    }
}

/// What is done with a statement at a stage.
pub fn step_statement<'p>(
    alloc: Global,
    stage: Stage,
    s: &'p TStmt,
    h: Here<'p>,
) -> Result<Next<'p>, Unmade>
    requires { IsLaidOut h.program.now.aggregates }
    ensures next { IfOk result (λ n. next_of n ≡ step.step_work (stage_of stage s.now) (here_of h.entry)) }
    ensures why { IfErr result (λ e. Explains e (WorkFits (here_of h.entry) (stage_of stage s.now))) }
{
    match stage {
        Stage::Do => do_statement(alloc, s, h),
        Stage::Choose => choose_in(alloc, s, h),
        Stage::WhileTest => Ok(while_test(alloc, s, h)?),
        Stage::WhileAgain => Ok(again(alloc, s, h)?),
        Stage::DoCondition => Ok(do_condition(alloc, s, h)?),
        Stage::DoTest => Ok(do_test(alloc, s, h)?),
        Stage::ForCondition => Ok(for_condition(alloc, s, h)?),
        Stage::ForTest => Ok(for_test(alloc, s, h)?),
        Stage::ForNext => Ok(for_next(alloc, s, h)?),
        Stage::ForAgain => Ok(for_again(alloc, s, h)?),
        Stage::Select => Ok(select(alloc, s, h)?),
        Stage::AltTalk => alt_talk(alloc, s, h),
        Stage::AltWent => alt_went(alloc, s, h),
    }
}
