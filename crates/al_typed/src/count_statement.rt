//! The pieces of statements, counted.
ghost use Rattle.std.specs.Prelude.{◌≡◌, false};
ghost use Rattle.std.specs.List.{flat_map};
ghost use Rattle.al_typed.specs.Layout.{IsLaidOut};
ghost use Rattle.al_typed.specs.Measures as spec;
ghost use Rattle.al_typed.specs.Measures.{tallied, statement_pieces};

use crate::count::{assigned, expression, expressions, location};
use crate::expression::{TExpr, TPlace};
use crate::program::Program;
use crate::statement::{TBounds, TCommunication, TInitializer, TStmt};
use crate::tally;
use crate::tally::{Tally, alt_branch, copied, par_branch, started, talk, value};
use crate::ty::Ty;

/// An expression that may be missing.
#[tactic(auto, using(crate::proofs::Steps::lists))]
fn optional(p: &Program, e: &Option<TExpr>, tally: &mut Tally)
    requires { IsLaidOut p.now.aggregates }
    ensures { tally.new ≡ tallied p.now tally.old (spec.optional_pieces e.now) }
{
    if let Some(e) = e {
        expression(p, false, e, tally);
    }
}

/// The bounds of an iterator.
#[tactic(auto, using(crate::proofs::Steps::lists))]
fn bound(p: &Program, iterator: &TBounds, tally: &mut Tally)
    requires { IsLaidOut p.now.aggregates }
    ensures { tally.new ≡ tallied p.now tally.old (spec.bounds_pieces iterator.now) }
{
    expression(p, false, &iterator.from, tally);
    expression(p, false, &iterator.to, tally);
}

/// The bounds of iterators.
fn bounds(p: &Program, iterators: &[TBounds], tally: &mut Tally)
    requires { IsLaidOut p.now.aggregates }
    ensures { tally.new ≡ tallied p.now tally.old (flat_map spec.bounds_pieces iterators.now) }
{
    for iterator in iterators {
        bound(p, iterator, tally);
    }
}

/// The value that a declaration gives to a local.
#[tactic(auto, using(crate::proofs::Steps::lists))]
fn initialized(p: &Program, initializer: &TInitializer, tally: &mut Tally)
    requires { IsLaidOut p.now.aggregates }
    ensures { tally.new ≡ tallied p.now tally.old (spec.initializer_pieces initializer.now) }
{
    copied(p, initializer.value.ty(), tally);
    expression(p, false, &initializer.value, tally);
}

/// The values that a declaration gives to locals.
fn initializers(p: &Program, list: &[TInitializer], tally: &mut Tally)
    requires { IsLaidOut p.now.aggregates }
    ensures { tally.new ≡ tallied p.now tally.old (flat_map spec.initializer_pieces list.now) }
{
    for initializer in list {
        initialized(p, initializer, tally);
    }
}

/// Places in a row.
fn locations(p: &Program, places: &[TPlace], tally: &mut Tally)
    requires { IsLaidOut p.now.aggregates }
    ensures { tally.new ≡ tallied p.now tally.old (flat_map (spec.place_pieces false) places.now) }
{
    for place in places {
        location(p, false, place, tally);
    }
}

/// The call of a proc or a task.
#[tactic(auto, using(crate::proofs::Steps::lists))]
fn start(p: &Program, call: &TExpr, tally: &mut Tally)
    requires { IsLaidOut p.now.aggregates }
    ensures { tally.new ≡ tallied p.now tally.old (spec.start_pieces call.now) }
{
    if let Some(function) = call.callee() {
        started(p, function, tally);
    }
    expression(p, false, call, tally);
}

/// The calls of procs or tasks.
fn starts(p: &Program, calls: &[TExpr], tally: &mut Tally)
    requires { IsLaidOut p.now.aggregates }
    ensures { tally.new ≡ tallied p.now tally.old (flat_map spec.start_pieces calls.now) }
{
    for call in calls {
        start(p, call, tally);
    }
}

/// The branches of a par.
fn branches(p: &Program, numbers: &[u32], tally: &mut Tally)
    ensures { tally.new ≡ tallied p.now tally.old (flat_map spec.branch_pieces numbers.now) }
{
    for number in numbers {
        par_branch(p, *number, tally);
    }
}

/// A receive from a channel.
#[tactic(auto, using(crate::proofs::Steps::lists))]
fn receive(p: &Program, ty: &Ty, chan: &TExpr, tally: &mut Tally)
    requires { IsLaidOut p.now.aggregates }
    ensures { tally.new ≡ tallied p.now tally.old (spec.receive_pieces ty.now chan.now) }
{
    value(p, ty, tally);
    talk(p, ty, tally);
    copied(p, ty, tally);
    expression(p, false, chan, tally);
}

/// The communication of a case of an alt.
#[tactic(auto, using(crate::proofs::Steps::lists))]
fn communication(p: &Program, c: &TCommunication, tally: &mut Tally)
    requires { IsLaidOut p.now.aggregates }
    ensures { tally.new ≡ tallied p.now tally.old (spec.communication_pieces c.now) }
{
    match c {
        TCommunication::Receive { ty, chan } => {
            alt_branch(p, ty, tally);
            receive(p, ty, chan, tally);
        }
        TCommunication::ReceiveInto { ty, target, chan } => {
            alt_branch(p, ty, tally);
            value(p, target.ty(), tally);
            copied(p, target.ty(), tally);
            assigned(p, target, tally);
            receive(p, ty, chan, tally);
        }
        TCommunication::Send { chan, value: sent } => {
            alt_branch(p, sent.ty(), tally);
            value(p, &Ty::Void, tally);
            talk(p, sent.ty(), tally);
            copied(p, sent.ty(), tally);
            expression(p, false, chan, tally);
            expression(p, false, sent, tally);
        }
    }
}

/// A statement.
#[cycle(count_statement)]
#[tactic(auto, using(crate::proofs::StatementTallies::statement_tallies))]
pub fn statement(p: &Program, s: &TStmt, tally: &mut Tally)
    requires { IsLaidOut p.now.aggregates }
    ensures { tally.new ≡ tallied p.now tally.old (statement_pieces s.now) }
{
    match s {
        TStmt::Default => {}
        TStmt::Case { label, .. } => expression(p, false, label, tally),
        TStmt::AltCase { communication: c } => communication(p, c, tally),
        TStmt::Declare {
            initializers: list,
            ..
        } => {
            tally::declaration(p, tally);
            initializers(p, list.as_slice(), tally);
        }
        TStmt::Empty { .. }
        | TStmt::Raise { .. }
        | TStmt::Goto { .. }
        | TStmt::Break { .. }
        | TStmt::Continue { .. } => tally::statement(p, tally),
        TStmt::Block { body, .. } | TStmt::Alt { body, .. } => {
            tally::statement(p, tally);
            statements(p, body.as_slice(), tally);
        }
        TStmt::Value {
            iterators,
            value,
            ..
        } => {
            tally::statement(p, tally);
            bounds(p, iterators.as_slice(), tally);
            expression(p, false, value, tally);
        }
        TStmt::Label { body, .. } | TStmt::Rescue { body, .. } => {
            tally::statement(p, tally);
            statement(p, body.get(), tally);
        }
        TStmt::If {
            condition,
            then,
            other,
            ..
        } => {
            tally::statement(p, tally);
            expression(p, false, condition, tally);
            statement(p, then.get(), tally);
            if let Some(other) = other {
                statement(p, other.get(), tally);
            }
        }
        TStmt::While {
            condition,
            body,
            ..
        } => {
            tally::statement(p, tally);
            expression(p, false, condition, tally);
            statement(p, body.get(), tally);
        }
        TStmt::Do {
            body,
            condition,
            ..
        } => {
            tally::statement(p, tally);
            statement(p, body.get(), tally);
            expression(p, false, condition, tally);
        }
        TStmt::For {
            start,
            condition,
            step,
            body,
            ..
        } => {
            tally::statement(p, tally);
            optional(p, start, tally);
            optional(p, condition, tally);
            optional(p, step, tally);
            statement(p, body.get(), tally);
        }
        TStmt::Switch { value, body, .. } => {
            tally::statement(p, tally);
            expression(p, false, value, tally);
            statements(p, body.as_slice(), tally);
        }
        TStmt::Par {
            branches: numbers,
            ..
        } => {
            tally::statement(p, tally);
            branches(p, numbers.as_slice(), tally);
        }
        TStmt::Return { value, .. } => {
            tally::statement(p, tally);
            optional(p, value, tally);
        }
        TStmt::Become { call: value, .. } | TStmt::Check { value, .. } => {
            tally::statement(p, tally);
            expression(p, false, value, tally);
        }
        TStmt::Alloc { places, .. } => {
            tally::statement(p, tally);
            locations(p, places.as_slice(), tally);
        }
        TStmt::Unalloc { values: list, .. } => {
            tally::statement(p, tally);
            expressions(p, list.as_slice(), tally);
        }
        TStmt::Proc { calls, .. } | TStmt::Task { calls, .. } => {
            tally::statement(p, tally);
            starts(p, calls.as_slice(), tally);
        }
    }
}

/// Statements in a row.
#[cycle(count_statement)]
fn statements(p: &Program, row: &[TStmt], tally: &mut Tally)
    requires { IsLaidOut p.now.aggregates }
    ensures { tally.new ≡ tallied p.now tally.old (flat_map statement_pieces row.now) }
{
    for s in row {
        statement(p, s, tally);
    }
}
