//! The pieces of expressions, counted.
ghost use Rattle.std.specs.Prelude.{◌≡◌};
ghost use Rattle.std.specs.List.{flat_map};
ghost use Rattle.al_typed.specs.Layout.{IsLaidOut};
ghost use Rattle.al_typed.specs.Measures as spec;
ghost use Rattle.al_typed.specs.Measures.{tallied, pieces, place_pieces, target_pieces, object_pieces, whole_pieces, argument_pieces};
ghost use Rattle.al_typed.specs.Typed.{type_of, place_type, target_type};

use crate::expression::{Passed, TExpr, TPlace, TReceiver, TTarget};
use crate::program::Program;
use crate::tally::{Tally, copied, format, iterator, named, node, talk, text, value};

/// Whether an object before `.` has its words taken as one.
fn is_named(passed: Passed) -> bool
    ensures { result ≡ spec.is_named passed }
{
    match passed {
        Passed::Address | Passed::Nothing => true,
        Passed::Value => false,
    }
}

/// An expression.
#[cycle(count)]
#[tactic(auto, using(crate::proofs::Tallies::expression_tallies))]
pub fn expression(p: &Program, is_named: bool, e: &TExpr, tally: &mut Tally)
    requires { IsLaidOut p.now.aggregates }
    ensures { tally.new ≡ tallied p.now tally.old (pieces is_named e.now) }
{
    match e {
        TExpr::Constant { ty, .. }
        | TExpr::Nil { ty }
        | TExpr::Function { ty, .. }
        | TExpr::SizeofType { ty, .. } => node(p, is_named, ty, tally),
        TExpr::Text { ty, number } => {
            node(p, is_named, ty, tally);
            text(p, *number, tally);
        }
        TExpr::Iterator { ty, .. } => {
            node(p, is_named, ty, tally);
            iterator(p, tally);
        }
        TExpr::Load { place, .. } | TExpr::Decay { place, .. } => {
            location(p, is_named, place.get(), tally)
        }
        TExpr::Address { ty, place } | TExpr::SizeofPlace { ty, place } => {
            node(p, is_named, ty, tally);
            location(p, true, place.get(), tally);
        }
        TExpr::Step { ty, place, .. } | TExpr::Zerox { ty, place } => {
            node(p, is_named, ty, tally);
            location(p, false, place.get(), tally);
        }
        TExpr::SizeofValue { ty, value } => {
            node(p, is_named, ty, tally);
            expression(p, true, value.get(), tally);
        }
        TExpr::Unary { ty, of, .. }
        | TExpr::Not { ty, of }
        | TExpr::Terminate { ty, status: of }
        | TExpr::CanReceive { ty, chan: of }
        | TExpr::CanSend { ty, chan: of }
        | TExpr::MemberOf { ty, value: of, .. }
        | TExpr::Cast { ty, of } => {
            node(p, is_named, ty, tally);
            expression(p, false, of.get(), tally);
        }
        TExpr::Convert { of, .. } => expression(p, is_named, of.get(), tally),
        TExpr::Binary {
            ty,
            left,
            right,
            ..
        }
        | TExpr::Logical {
            ty,
            left,
            right,
            ..
        }
        | TExpr::Difference { ty, left, right }
        | TExpr::Move {
            ty,
            pointer: left,
            count: right,
            ..
        } => {
            node(p, is_named, ty, tally);
            expression(p, false, left.get(), tally);
            expression(p, false, right.get(), tally);
        }
        TExpr::Assign { ty, target, value } => {
            node(p, is_named, ty, tally);
            copied(p, ty, tally);
            assigned(p, target.get(), tally);
            expression(p, false, value.get(), tally);
        }
        TExpr::Update {
            ty,
            place,
            value,
            ..
        } => {
            node(p, is_named, ty, tally);
            location(p, false, place.get(), tally);
            expression(p, false, value.get(), tally);
        }
        TExpr::Tuple { ty, parts } => {
            node(p, is_named, ty, tally);
            expressions(p, parts.as_slice(), tally);
        }
        TExpr::Call {
            ty,
            receiver,
            arguments,
            ..
        } => {
            node(p, is_named, ty, tally);
            if let Some(receiver) = receiver {
                object(p, receiver.get(), tally);
            }
            expressions(p, arguments.as_slice(), tally);
        }
        TExpr::CallPointer {
            ty,
            pointer,
            arguments,
        } => {
            node(p, is_named, ty, tally);
            copied(p, ty, tally);
            expression(p, false, pointer.get(), tally);
            passed_on(p, arguments.as_slice(), tally);
        }
        TExpr::Print {
            ty,
            format: pieces,
            arguments,
        } => {
            node(p, is_named, ty, tally);
            named(p, tally);
            format(p, pieces.as_slice(), tally);
            expressions(p, arguments.as_slice(), tally);
        }
        TExpr::Receive { ty, chan } => {
            node(p, is_named, ty, tally);
            talk(p, ty, tally);
            copied(p, ty, tally);
            expression(p, false, chan.get(), tally);
        }
        TExpr::Send { ty, chan, value } => {
            node(p, is_named, ty, tally);
            talk(p, value.get().ty(), tally);
            copied(p, value.get().ty(), tally);
            expression(p, false, chan.get(), tally);
            expression(p, false, value.get(), tally);
        }
        TExpr::Sequence { ty, first, last } => {
            node(p, is_named, ty, tally);
            expressions(p, first.as_slice(), tally);
            expression(p, false, last.get(), tally);
        }
    }
}

/// Expressions in a row.
#[cycle(count)]
pub fn expressions(p: &Program, row: &[TExpr], tally: &mut Tally)
    requires { IsLaidOut p.now.aggregates }
    ensures { tally.new ≡ tallied p.now tally.old (flat_map whole_pieces row.now) }
{
    for e in row {
        expression(p, false, e, tally);
    }
}

/// Arguments that go to a function by a pointer.
#[cycle(count)]
fn passed_on(p: &Program, row: &[TExpr], tally: &mut Tally)
    requires { IsLaidOut p.now.aggregates }
    ensures { tally.new ≡ tallied p.now tally.old (flat_map argument_pieces row.now) }
{
    for e in row {
        copied(p, e.ty(), tally);
        expression(p, false, e, tally);
    }
}

/// A place.
#[cycle(count)]
#[tactic(auto, using(crate::proofs::Tallies::expression_tallies))]
pub fn location(p: &Program, is_named: bool, place: &TPlace, tally: &mut Tally)
    requires { IsLaidOut p.now.aggregates }
    ensures { tally.new ≡ tallied p.now tally.old (place_pieces is_named place.now) }
{
    match place {
        TPlace::Local { ty, .. } | TPlace::Outer { ty, .. } | TPlace::Global { ty, .. } => {
            node(p, is_named, ty, tally)
        }
        TPlace::Pointed { ty, pointer } | TPlace::PointedMember { ty, pointer, .. } => {
            node(p, is_named, ty, tally);
            expression(p, false, pointer.get(), tally);
        }
        TPlace::Element { ty, base, index } => {
            node(p, is_named, ty, tally);
            expression(p, false, base.get(), tally);
            expression(p, false, index.get(), tally);
        }
        TPlace::Member { ty, of, .. } => {
            node(p, is_named, ty, tally);
            location(p, true, of.get(), tally);
        }
    }
}

/// The left side of an assignment.
#[cycle(count)]
#[tactic(auto, using(crate::proofs::Tallies::expression_tallies))]
pub fn assigned(p: &Program, target: &TTarget, tally: &mut Tally)
    requires { IsLaidOut p.now.aggregates }
    ensures { tally.new ≡ tallied p.now tally.old (target_pieces target.now) }
{
    match target {
        TTarget::Into(place) => location(p, false, place.get(), tally),
        TTarget::Dropped(ty) => value(p, ty, tally),
        TTarget::Parts { ty, parts } => {
            value(p, ty, tally);
            all_assigned(p, parts.as_slice(), tally);
        }
    }
}

/// Parts of the left side of an assignment.
#[cycle(count)]
fn all_assigned(p: &Program, row: &[TTarget], tally: &mut Tally)
    requires { IsLaidOut p.now.aggregates }
    ensures { tally.new ≡ tallied p.now tally.old (flat_map target_pieces row.now) }
{
    for target in row {
        assigned(p, target, tally);
    }
}

/// The object before the name of a function.
#[cycle(count)]
#[tactic(auto, using(crate::proofs::Tallies::expression_tallies))]
fn object(p: &Program, receiver: &TReceiver, tally: &mut Tally)
    requires { IsLaidOut p.now.aggregates }
    ensures { tally.new ≡ tallied p.now tally.old (object_pieces receiver.now) }
{
    match receiver {
        TReceiver::Place { place, passed, .. } => {
            location(p, is_named(*passed), place.get(), tally)
        }
        TReceiver::Value { value, .. } => expression(p, false, value.get(), tally),
        TReceiver::Pointer { pointer, .. } => expression(p, false, pointer.get(), tally),
    }
}
