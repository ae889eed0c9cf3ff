//! Calls that start procs and tasks, or take the place of the function at hand.
ghost use Rattle.std.specs.Prelude.{◌≡◌, ◌++◌, map, IfOk, OnOk};
ghost use Rattle.al_lower_base.specs.Spots.{spot_of};
ghost use Rattle.al_lower_code.specs.Homes as homes;
ghost use Rattle.al_lower_code.specs.Simple as spec;
ghost use Rattle.al_lower_simple.specs.Parts as parts;
ghost use Rattle.al_typed.specs.Layout.{IsLaidOut};
ghost use Rattle.al_typed.specs.Typed.{type_of};

use crate::block::frees_block;
use al_base::NoMemory;
use al_ir::Op;
use al_items::{Boxed, Items};
use al_lower_base::{Code, Spot, push, slot_behind, words};
use al_lower_expr::arguments;
use al_lower_parts::object_words;
use al_typed::{TExpr, TReceiver};

/// What a call starts.
#[derive(Clone, Copy)]
pub enum Started {
    Proc,
    Task,
}

/// The operation that starts it, with so many words from `arguments` on.
fn start_op(what: Started, function: u32, arguments: u32, words: u32) -> Op
    ensures { result ≡ parts.start_op what function arguments words }
{
    match what {
        Started::Proc => Op::Proc {
            function,
            arguments,
            words,
        },
        Started::Task => Op::Task {
            function,
            arguments,
            words,
        },
    }
}

/// The number of the function that a call by a name names.
fn called(call: &TExpr) -> u32
    ensures { result ≡ spec.start_function call.now }
{
    match call {
        TExpr::Call { function, .. } => *function,
        _ => 0,
    }
}

/// The words of a call, from `to` on.
fn start_code(code: &mut Code, s: Spot<'_>, call: &TExpr, to: u32) -> Result<(), NoMemory>
    requires { IsLaidOut s.program.now.aggregates }
    ensures { OnOk result (code.new ≡ code.old ++ spec.start_code (spot_of s.entry) call.now to) }
{
    match call {
        TExpr::Call {
            receiver,
            arguments: row,
            ..
        } => arguments(code, s, receiver, row, to),
        _ => Ok(()),
    }
}

/// How many words expressions in a row have.
fn row_words(s: Spot<'_>, row: &[TExpr]) -> Result<u32, NoMemory>
    requires { IsLaidOut s.program.now.aggregates }
    ensures { IfOk result (λ n. n ≡ spec.words_of_types (spot_of s.entry) (map type_of row.now)) }
{
    let mut count: u32 = 0;
    for e in row {
        count = slot_behind(count, words(s, e.ty())?)?;
    }
    Ok(count)
}

/// How many words a call has: those of the object, and those of the arguments.
fn call_words(
    s: Spot<'_>,
    object: &Option<Boxed<TReceiver>>,
    arguments: &Items<TExpr>,
) -> Result<u32, NoMemory>
    requires { IsLaidOut s.program.now.aggregates }
    ensures { IfOk result (λ n. n ≡ parts.call_words (spot_of s.entry) object.now arguments.now) }
{
    let first = object_words(s, object)?;
    slot_behind(first, row_words(s, arguments.as_slice())?)
}

/// How many words a call by a name has.
fn start_words(s: Spot<'_>, call: &TExpr) -> Result<u32, NoMemory>
    requires { IsLaidOut s.program.now.aggregates }
    ensures { IfOk result (λ n. n ≡ spec.start_words (spot_of s.entry) call.now) }
{
    match call {
        TExpr::Call {
            receiver,
            arguments,
            ..
        } => call_words(s, receiver, arguments),
        _ => Ok(0),
    }
}

/// A call starts a proc or a task.
fn start(code: &mut Code, s: Spot<'_>, what: Started, call: &TExpr) -> Result<(), NoMemory>
    requires { IsLaidOut s.program.now.aggregates }
    ensures { OnOk result (code.new ≡ code.old ++ parts.start_one (spot_of s.entry) (parts.start_op what) call.now) }
{
    start_code(code, s, call, s.turns)?;
    let words = start_words(s, call)?;
    push(code, s.line, start_op(what, called(call), s.turns, words))
}

/// Each of these calls starts one.
pub fn starts(code: &mut Code, s: Spot<'_>, what: Started, calls: &[TExpr]) -> Result<(), NoMemory>
    requires { IsLaidOut s.program.now.aggregates }
    ensures { OnOk result (code.new ≡ code.old ++ spec.starts_code (spot_of s.entry) (parts.start_op what) calls.now) }
{
    for call in calls {
        start(code, s, what, call)?;
    }
    Ok(())
}

/// A call in the place of the function at hand.
pub fn become_call(code: &mut Code, s: Spot<'_>, call: &TExpr) -> Result<(), NoMemory>
    requires { IsLaidOut s.program.now.aggregates }
    ensures { OnOk result (code.new ≡ code.old ++ spec.become_code (spot_of s.entry) call.now) }
{
    start_code(code, s, call, s.turns)?;
    frees_block(code, s)?;
    push(
        code,
        s.line,
        Op::Become {
            function: called(call),
            arguments: s.turns,
        },
    )
}
