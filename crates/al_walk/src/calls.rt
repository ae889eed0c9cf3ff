//! Statements that call functions by their names, without a value: become, proc and task.
ghost use Rattle.std.specs.Prelude.{◌≡◌, IfOk, IfErr};
ghost use Rattle.std.specs.List.{flat_map};
ghost use Rattle.al_typed.specs.declared.expression.TExpr.{TExpr as Expression};
ghost use Rattle.al_typed.specs.Layout.{IsLaidOut};
ghost use Rattle.al_meaning.specs.Calls as calling;
ghost use Rattle.al_meaning.specs.Here as here;
ghost use Rattle.al_meaning.specs.Items as item;
ghost use Rattle.al_control.specs.Fits.{Explains};
ghost use Rattle.al_control.specs.Models.{here_of, next_of};
ghost use Rattle.al_walk_values.specs.CallForms.{then_of};
ghost use Rattle.al_walk_values.specs.Fits.{CallFits};
ghost use Rattle.al_walk.specs.Works.{CallsFit};

use al_control::{Here, Next, Unmade, moves};
use al_typed::TExpr;
use al_walk_values::{Then, with_call};

/// Calls of functions by their names, each with its object and arguments, before the rest.
fn with_calls<'p>(calls: &'p [TExpr], then: Then, h: Here<'p>) -> Result<Here<'p>, Unmade>
    requires { IsLaidOut h.program.now.aggregates }
    ensures next { IfOk result (λ r. here_of r ≡ here.with_work (flat_map (λ (e : Expression). calling.call_work h.entry.program.now e (then_of then)) calls.now) (here_of h.entry)) }
    ensures why { IfErr result (λ x. Explains x (CallsFit h.entry.program.now calls.now)) }
{
    let mut h = h;
    let mut rest = calls;
    while let Some((e, front)) = rest.split_last() {
        h = with_call(e, then, h)?;
        rest = front;
    }
    Ok(h)
}

/// A become: a call in the place of the function at hand.
pub fn do_become<'p>(call: &'p TExpr, h: Here<'p>) -> Result<Next<'p>, Unmade>
    requires { IsLaidOut h.program.now.aggregates }
    ensures next { IfOk result (λ n. next_of n ≡ here.does (here_of h.entry) (calling.call_work h.entry.program.now call.now item.InvokeInstead)) }
    ensures why { IfErr result (λ e. Explains e (CallFits h.entry.program.now call.now)) }
{
    let h = with_call(call, Then::InvokeInstead, h)?;
    Ok(moves(h)?)
}

/// Calls of functions that start as procs.
pub fn do_procs<'p>(calls: &'p [TExpr], h: Here<'p>) -> Result<Next<'p>, Unmade>
    requires { IsLaidOut h.program.now.aggregates }
    ensures next { IfOk result (λ n. next_of n ≡ here.does (here_of h.entry) (flat_map (λ (e : Expression). calling.call_work h.entry.program.now e item.StartProc) calls.now)) }
    ensures why { IfErr result (λ e. Explains e (CallsFit h.entry.program.now calls.now)) }
{
    let h = with_calls(calls, Then::StartProc, h)?;
    Ok(moves(h)?)
}

/// Calls of functions that start as tasks.
pub fn do_tasks<'p>(calls: &'p [TExpr], h: Here<'p>) -> Result<Next<'p>, Unmade>
    requires { IsLaidOut h.program.now.aggregates }
    ensures next { IfOk result (λ n. next_of n ≡ here.does (here_of h.entry) (flat_map (λ (e : Expression). calling.call_work h.entry.program.now e item.StartTask) calls.now)) }
    ensures why { IfErr result (λ e. Explains e (CallsFit h.entry.program.now calls.now)) }
{
    let h = with_calls(calls, Then::StartTask, h)?;
    Ok(moves(h)?)
}
