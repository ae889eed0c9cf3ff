//! One item of what a task has still to do.
ghost use Rattle.std.specs.Prelude.{◌≡◌, IfOk, IfErr};
ghost use Rattle.al_typed.specs.Layout.{IsLaidOut};
ghost use Rattle.al_meaning.specs.Items as item;
ghost use Rattle.al_meaning.specs.Step as step;
ghost use Rattle.al_control.specs.Fits.{Explains};
ghost use Rattle.al_control.specs.Models.{action_of, calling_of, here_of, next_of, storage_of, target_of, value_of, work_of};
ghost use Rattle.al_walk_calls.specs.Slots.{slots_in};
ghost use Rattle.al_walk.specs.Works.{WorkFits};

use crate::gathers::gather;
use crate::stages::step_statement;
use al_base::NoMemory;
use al_control::{
    Action, Calling, Here, Next, Storage, Taken, TargetStage, Unmade, ValueStage, Work, and_then,
    gives, moves, operate, or_else, part, value,
};
use al_typed::{TExpr, TTarget};
use al_walk_actions::act;
use al_walk_calls::{
    count_return, enter, invoke, invoke_instead, invoke_pointer, leave, pass_part, pass_place,
    pass_pointer, replace, returns, set_block, take_block,
};
use al_walk_loops::test;
use al_walk_places::{aim, assign, find_declared, find_place, store, store_parameter};
use al_walk_statements::{bound, iterate, next_turn};
use al_walk_values::eval;
use std::alloc::Global;

/// An expression at a stage.
fn step_value<'p>(
    alloc: Global,
    stage: ValueStage,
    e: &'p TExpr,
    h: Here<'p>,
) -> Result<Next<'p>, Unmade>
    requires { IsLaidOut h.program.now.aggregates }
    ensures next { IfOk result (λ n. next_of n ≡ step.step_work (value_of stage e.now) (here_of h.entry)) }
    ensures why { IfErr result (λ x. Explains x (WorkFits (here_of h.entry) (value_of stage e.now))) }
{
    match stage {
        ValueStage::Eval => eval(alloc, e, h),
        ValueStage::AndThen => Ok(and_then(alloc, e, h)?),
        ValueStage::OrElse => Ok(or_else(alloc, e, h)?),
        ValueStage::Gather => gather(alloc, e, h),
        ValueStage::Bound { count } => bound(alloc, count, e, h),
        ValueStage::Iterate { number, bounds } => iterate(alloc, number, bounds, e, h),
        ValueStage::NextTurn {
            number,
            bounds,
            rest,
        } => Ok(next_turn(number, bounds, rest, e, h)?),
    }
}

/// A target at a stage.
fn step_target<'p>(
    alloc: Global,
    stage: TargetStage,
    target: &'p TTarget,
    h: Here<'p>,
) -> Result<Next<'p>, NoMemory>
    requires { IsLaidOut h.program.now.aggregates }
    ensures { IfOk result (λ n. next_of n ≡ step.step_work (target_of stage target.now) (here_of h.entry)) }
{
    match stage {
        TargetStage::Aim => aim(target, h),
        TargetStage::Assign => assign(alloc, target, h),
    }
}

/// What is done with places.
fn step_storage<'p>(alloc: Global, storage: Storage<'p>, h: Here<'p>) -> Result<Next<'p>, Unmade>
    requires { IsLaidOut h.program.now.aggregates }
    ensures next { IfOk result (λ n. next_of n ≡ step.step_work (storage_of storage.entry) (here_of h.entry)) }
    ensures why { IfErr result (λ x. Explains x (WorkFits (here_of h.entry) (storage_of storage.entry))) }
{
    store(alloc, storage, h)
}

/// A text that is composed, and what is asked of the world.
fn step_action<'p>(alloc: Global, action: Action<'p>, h: Here<'p>) -> Result<Next<'p>, Unmade>
    requires { IsLaidOut h.program.now.aggregates }
    ensures next { IfOk result (λ n. next_of n ≡ step.step_work (action_of action.entry) (here_of h.entry)) }
    ensures why { IfErr result (λ x. Explains x (WorkFits (here_of h.entry) (action_of action.entry))) }
{
    act(alloc, action, h)
}

/// A step of a call, or of the start or the end of a function.
fn step_calling<'p>(
    alloc: Global,
    slots: &[u64],
    calling: Calling<'p>,
    h: Here<'p>,
) -> Result<Next<'p>, Unmade>
    requires laid_out { IsLaidOut h.program.now.aggregates }
    requires slots { slots.now ≡ slots_in h.program.now }
    ensures next { IfOk result (λ n. next_of n ≡ step.step_work (calling_of calling.entry) (here_of h.entry)) }
    ensures why { IfErr result (λ x. Explains x (WorkFits (here_of h.entry) (calling_of calling.entry))) }
{
    match calling {
        Calling::PassPlace { passed, ty, offset } => Ok(pass_place(alloc, passed, ty, offset, h)?),
        Calling::PassPointer { passed, ty, offset } => Ok(pass_pointer(
            alloc, passed, ty, offset, h,
        )?),
        Calling::PassPart { passed, ty, path } => pass_part(alloc, passed, ty, path, h),
        Calling::Invoke { function, count } => Ok(invoke(alloc, function, count, h)?),
        Calling::InvokePointer { ty, count } => Ok(invoke_pointer(alloc, ty, count, h)?),
        Calling::Enter { function, words } => enter(alloc, slots, function, words, h),
        Calling::InvokeInstead { function, count } => {
            Ok(invoke_instead(alloc, function, count, h)?)
        }
        Calling::Replace { function, words } => Ok(replace(function, words, h)?),
        Calling::TakeBlock => take_block(alloc, h),
        Calling::SetBlock => Ok(set_block(h)?),
        Calling::StoreParameter { number, words } => store_parameter(alloc, number, words, h),
        Calling::Returns { is_valued } => Ok(returns(alloc, is_valued, h)?),
        Calling::CountReturn(given) => Ok(count_return(given, h)?),
        Calling::Leave(given) => Ok(leave(given, h)?),
    }
}

/// A value is dropped.
fn forget<'p>(h: Here<'p>) -> Result<Next<'p>, NoMemory>
    ensures { IfOk result (λ n. next_of n ≡ step.step_work item.Drop (here_of h.entry)) }
{
    match value(h)? {
        Taken::Lost(next) => Ok(next),
        Taken::Took(_, h) => moves(h),
    }
}

/// One item of what a task has still to do.
pub fn step_work<'p>(
    alloc: Global,
    slots: &[u64],
    work: Work<'p>,
    h: Here<'p>,
) -> Result<Next<'p>, Unmade>
    requires laid_out { IsLaidOut h.program.now.aggregates }
    requires slots { slots.now ≡ slots_in h.program.now }
    ensures next { IfOk result (λ n. next_of n ≡ step.step_work (work_of work.entry) (here_of h.entry)) }
    ensures why { IfErr result (λ x. Explains x (WorkFits (here_of h.entry) (work_of work.entry))) }
{
    match work {
        Work::Value(stage, e) => step_value(alloc, stage, e, h),
        Work::Target(stage, target) => Ok(step_target(alloc, stage, target, h)?),
        Work::Statement(stage, s) => step_statement(alloc, stage, s.into_inner(), h),
        Work::Find(place) => find_place(place, h),
        Work::FindDeclared { number, .. } => find_declared(number, h),
        Work::Operator(operator) => Ok(operate(alloc, operator, h)?),
        Work::Part { ty, path } => part(alloc, ty, path, h),
        Work::Storage(storage) => step_storage(alloc, storage, h),
        Work::Calling(calling) => step_calling(alloc, slots, calling, h),
        Work::Action(action) => step_action(alloc, action, h),
        Work::Answered => Ok(moves(h)?),
        Work::Give(words) => Ok(gives(h, words)?),
        Work::Forget => Ok(forget(h)?),
        Work::Test => Ok(test(h)?),
        Work::CasesEnd => Ok(moves(h)?),
    }
}
