//! Whether evaluating an expression leaves the variables of the function as they are.
ghost use Rattle.std.specs.Prelude.{◌≡◌, ◌&&◌, ℕ, IfOk};
ghost use Rattle.al_typed.specs.Layout.{IsLaidOut};
ghost use Rattle.al_lower_code.specs.Expressions as spec;
ghost use Rattle.al_lower_code.specs.Values as values;
ghost use Rattle.al_lower_base.specs.Spots.{spot_of};
ghost use Rattle.al_lower_operands.specs.Rows as rows;

use crate::constants::{folded, known};
use al_base::NoMemory;
use al_items::{Boxed, Items};
use al_lower_base::Spot;
use al_typed::{TExpr, TPlace, TReceiver};

/// A part of an expression.
#[cycle(keeps)]
fn part_keeps(s: Spot<'_>, e: &Boxed<TExpr>) -> Result<bool, NoMemory>
    requires { IsLaidOut s.program.now.aggregates }
    ensures { IfOk result (λ keeps. keeps ≡ (spec.coded (spot_of s.entry) e.now).keeps) }
{
    keeps(s, e.get())
}

/// A place in an expression.
#[cycle(keeps)]
fn place_part_keeps(s: Spot<'_>, p: &Boxed<TPlace>) -> Result<bool, NoMemory>
    requires { IsLaidOut s.program.now.aggregates }
    ensures { IfOk result (λ keeps. keeps ≡ (spec.placed (spot_of s.entry) p.now).keeps) }
{
    place_keeps(s, p.get())
}

/// Two parts.
#[cycle(keeps)]
fn both_keep(s: Spot<'_>, a: &Boxed<TExpr>, b: &Boxed<TExpr>) -> Result<bool, NoMemory>
    requires { IsLaidOut s.program.now.aggregates }
    ensures { IfOk result (λ keeps. keeps ≡ ((spec.coded (spot_of s.entry) a.now).keeps && (spec.coded (spot_of s.entry) b.now).keeps)) }
{
    if part_keeps(s, a)? {
        part_keeps(s, b)
    } else {
        Ok(false)
    }
}

/// Expressions in a row.
#[cycle(keeps)]
pub fn row_keeps(s: Spot<'_>, row: &[TExpr]) -> Result<bool, NoMemory>
    requires { IsLaidOut s.program.now.aggregates }
    ensures { IfOk result (λ keeps. keeps ≡ (rows.row_of (spot_of s.entry) row.now).keeps) }
{
    for e in row {
        if !keeps(s, e)? {
            return Ok(false);
        }
    }
    Ok(true)
}

/// The same of a list.
#[cycle(keeps)]
fn items_keep(s: Spot<'_>, row: &Items<TExpr>) -> Result<bool, NoMemory>
    requires { IsLaidOut s.program.now.aggregates }
    ensures { IfOk result (λ keeps. keeps ≡ (rows.row_of (spot_of s.entry) row.now).keeps) }
{
    row_keeps(s, row.as_slice())
}

/// A part, and then expressions in a row.
#[cycle(keeps)]
fn pointer_and_row_keep(s: Spot<'_>, row: &Items<TExpr>, e: &Boxed<TExpr>) -> Result<bool, NoMemory>
    requires { IsLaidOut s.program.now.aggregates }
    ensures { IfOk result (λ keeps. keeps ≡ ((spec.coded (spot_of s.entry) e.now).keeps && (rows.row_of (spot_of s.entry) row.now).keeps)) }
{
    if part_keeps(s, e)? {
        items_keep(s, row)
    } else {
        Ok(false)
    }
}

/// Expressions in a row, and then a part.
#[cycle(keeps)]
fn row_and_last_keep(s: Spot<'_>, row: &Items<TExpr>, e: &Boxed<TExpr>) -> Result<bool, NoMemory>
    requires { IsLaidOut s.program.now.aggregates }
    ensures { IfOk result (λ keeps. keeps ≡ ((rows.row_of (spot_of s.entry) row.now).keeps && (spec.coded (spot_of s.entry) e.now).keeps)) }
{
    if items_keep(s, row)? {
        part_keeps(s, e)
    } else {
        Ok(false)
    }
}

/// The object before a function's name.
#[cycle(keeps)]
fn received_keeps(s: Spot<'_>, receiver: &TReceiver) -> Result<bool, NoMemory>
    requires { IsLaidOut s.program.now.aggregates }
    ensures { IfOk result (λ keeps. keeps ≡ (spec.received_object (spot_of s.entry) receiver.now).keeps) }
{
    match receiver {
        TReceiver::Place { place, .. } => place_part_keeps(s, place),
        TReceiver::Value { value, .. } => part_keeps(s, value),
        TReceiver::Pointer { pointer, .. } => part_keeps(s, pointer),
    }
}

/// An object that may be missing.
#[cycle(keeps)]
pub fn object_keeps(s: Spot<'_>, object: &Option<Boxed<TReceiver>>) -> Result<bool, NoMemory>
    requires { IsLaidOut s.program.now.aggregates }
    ensures { IfOk result (λ keeps. keeps ≡ (rows.object_of (spot_of s.entry) object.now).keeps) }
{
    match object {
        None => Ok(true),
        Some(receiver) => received_keeps(s, receiver.get()),
    }
}

/// Whether evaluating an expression leaves all variables as they are.
#[cycle(keeps)]
#[tactic(auto, using(crate::proofs::Kept::simple_keeps))]
pub fn keeps(s: Spot<'_>, e: &TExpr) -> Result<bool, NoMemory>
    requires { IsLaidOut s.program.now.aggregates }
    ensures { IfOk result (λ keeps. keeps ≡ (spec.coded (spot_of s.entry) e.now).keeps) }
{
    match folded(s, e)? {
        Some(_) => Ok(true),
        None => match e {
            TExpr::Load { place, .. } => place_part_keeps(s, place),
            TExpr::Decay { place, .. } => place_part_keeps(s, place),
            TExpr::Address { place, .. } => place_part_keeps(s, place),
            TExpr::Unary { of, .. } => part_keeps(s, of),
            TExpr::Not { of, .. } => part_keeps(s, of),
            TExpr::Binary { left, right, .. } => both_keep(s, left, right),
            TExpr::Logical { left, right, .. } => both_keep(s, left, right),
            TExpr::Move { pointer, count, .. } => both_keep(s, pointer, count),
            TExpr::Difference { left, right, .. } => both_keep(s, left, right),
            TExpr::Assign { .. }
            | TExpr::Update { .. }
            | TExpr::Step { .. }
            | TExpr::Zerox { .. } => Ok(false),
            TExpr::Tuple { parts, .. } => items_keep(s, parts),
            TExpr::Call {
                receiver,
                arguments,
                ..
            } => {
                let object = object_keeps(s, receiver)?;
                if object {
                    items_keep(s, arguments)
                } else {
                    Ok(false)
                }
            }
            TExpr::CallPointer {
                pointer,
                arguments,
                ..
            } => pointer_and_row_keep(s, arguments, pointer),
            TExpr::Print { arguments, .. } => items_keep(s, arguments),
            TExpr::Terminate { status, .. } => part_keeps(s, status),
            TExpr::Receive { chan, .. } => part_keeps(s, chan),
            TExpr::Send { chan, value, .. } => both_keep(s, chan, value),
            TExpr::CanReceive { chan, .. } => part_keeps(s, chan),
            TExpr::CanSend { chan, .. } => part_keeps(s, chan),
            TExpr::MemberOf { value, .. } => part_keeps(s, value),
            TExpr::Cast { of, .. } => part_keeps(s, of),
            TExpr::Convert { of, .. } => part_keeps(s, of),
            TExpr::Sequence { first, last, .. } => row_and_last_keep(s, first, last),
            TExpr::Constant { .. }
            | TExpr::Text { .. }
            | TExpr::Nil { .. }
            | TExpr::Function { .. }
            | TExpr::SizeofType { .. }
            | TExpr::SizeofPlace { .. }
            | TExpr::SizeofValue { .. }
            | TExpr::Iterator { .. } => Ok(true),
        },
    }
}

/// An element.
#[cycle(keeps)]
fn element_keeps(s: Spot<'_>, base: &Boxed<TExpr>, index: &Boxed<TExpr>) -> Result<bool, NoMemory>
    requires { IsLaidOut s.program.now.aggregates }
    ensures { (size : ℕ) → IfOk result (λ keeps. keeps ≡ (values.element_placed (spot_of s.entry) size (spec.coded (spot_of s.entry) base.now) (spec.coded (spot_of s.entry) index.now)).keeps) }
{
    match known(s, index.get())? {
        Some(_) => part_keeps(s, base),
        None => both_keep(s, base, index),
    }
}

/// Whether finding a place leaves all variables as they are.
#[cycle(keeps)]
#[tactic(auto, using(crate::proofs::Forms::places_are, crate::proofs::Unchanged::places_keep))]
pub fn place_keeps(s: Spot<'_>, p: &TPlace) -> Result<bool, NoMemory>
    requires { IsLaidOut s.program.now.aggregates }
    ensures { IfOk result (λ keeps. keeps ≡ (spec.placed (spot_of s.entry) p.now).keeps) }
{
    match p {
        TPlace::Local { .. } | TPlace::Outer { .. } | TPlace::Global { .. } => Ok(true),
        TPlace::Pointed { pointer, .. } => part_keeps(s, pointer),
        TPlace::Element { base, index, .. } => element_keeps(s, base, index),
        TPlace::Member { of, .. } => place_part_keeps(s, of),
        TPlace::PointedMember { pointer, .. } => part_keeps(s, pointer),
    }
}
