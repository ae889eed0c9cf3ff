//! Assignments and changes of places.
ghost use Rattle.std.specs.Prelude.{◌≡◌, IfOk};
ghost use Rattle.al_rules.specs.Outcome.{Answers};
ghost use Rattle.al_places.specs.Places as spec;

use al_base::{Kind, NoMemory, Place};
use al_convert::is_integer;
use al_items::Boxed;
use al_operands::{
    Operand, arithmetic_kind, asked, asked_twice, beside, both, boxes, converted, in_kind, plain,
    present, promoted_kind, rule_7_is_complete, rule_28_steps, rule_29_is_no_array,
    rule_33_converts, rule_34_updates,
};
use al_rules::TypeStop;
use al_tree::BinaryOp as Written;
use al_typed::{Aggregate, BinaryOp, Change, StepOp, TExpr, TPlace, TTarget, Ty};
use std::alloc::Global;

/// A place as what is assigned to.
fn into(alloc: Global, place: TPlace) -> Result<Boxed<TTarget>, NoMemory>
    ensures { IfOk result (λ t. t ≡ spec.into place) }
{
    let place = Boxed::new(alloc, place)?;
    Boxed::new(alloc, TTarget::Into(place))
}

fn assign_node(alloc: Global, place: TPlace, e: TExpr) -> Result<TExpr, NoMemory>
    ensures { IfOk result (λ t. t ≡ spec.assign_node place e) }
{
    let ty = place.ty().copy(alloc);
    let target = into(alloc, place);
    let value = Boxed::new(alloc, e);
    let sides = both(target, value);
    let (ty, sides) = both(ty, sides)?;
    let (target, value) = sides;
    Ok(TExpr::Assign { ty, target, value })
}

/// The assignment of a value to a place, as a value of the place's type.
#[tactic(auto, unfolding(crate::specs::Places::assignment))]
fn assignment(alloc: Global, place: TPlace, e: TExpr) -> Result<TExpr, NoMemory>
    ensures { IfOk result (λ t. t ≡ spec.assignment place e) }
{
    let e = converted(alloc, place.ty(), e);
    let (place, e) = beside(place, e)?;
    assign_node(alloc, place, e)
}

/// `=` with a place on its left.
#[tactic(auto, unfolding(crate::specs::Places::assigned), using(al_operands::proofs::Asking::asking, crate::proofs::Judging::judged))]
pub fn assigned(alloc: Global, at: Place, place: TPlace, x: Operand) -> Result<TExpr, TypeStop>
    ensures { Answers result (spec.assigned at place x) }
{
    let is_whole = rule_29_is_no_array(place.ty());
    let converts = rule_33_converts(&x, place.ty());
    let (place, e) = asked_twice((29, 33), at, (is_whole, converts), (place, x.value))?;
    Ok(assignment(alloc, place, e)?)
}

fn is_shift(how: BinaryOp) -> bool
    ensures { result ≡ spec.is_shift how }
{
    matches!(how, BinaryOp::ShiftLeft | BinaryOp::ShiftRight)
}

fn is_back(how: BinaryOp) -> bool
    ensures { result ≡ spec.is_back how }
{
    matches!(how, BinaryOp::Subtract)
}

/// The kind of the arithmetic of an operator on two types.
fn operator_kind(how: BinaryOp, a: &Ty, b: &Ty) -> Kind
    ensures { result ≡ spec.operator_kind how a.now b.now }
{
    if is_shift(how) {
        promoted_kind(a)
    } else {
        arithmetic_kind(a, b)
    }
}

fn changed(alloc: Global, change: Change, place: TPlace, e: TExpr) -> Result<TExpr, NoMemory>
    ensures { IfOk result (λ t. t ≡ spec.changed change place e) }
{
    let ty = place.ty().copy(alloc);
    let sides = boxes(alloc, place, e);
    let (ty, sides) = both(ty, sides)?;
    let (place, value) = sides;
    Ok(TExpr::Update {
        ty,
        place,
        change,
        value,
    })
}

/// A change by a value in that kind.
#[tactic(auto, unfolding(crate::specs::Places::changed_in))]
fn changed_in(
    alloc: Global,
    kind: Kind,
    change: Change,
    place: TPlace,
    e: TExpr,
) -> Result<TExpr, NoMemory>
    ensures { IfOk result (λ t. t ≡ spec.changed_in kind change place e) }
{
    let e = in_kind(alloc, kind, e);
    let (place, e) = beside(place, e)?;
    changed(alloc, change, place, e)
}

fn apply_in(
    alloc: Global,
    kind: Kind,
    how: BinaryOp,
    place: TPlace,
    e: TExpr,
) -> Result<TExpr, NoMemory>
    ensures { IfOk result (λ t. t ≡ spec.apply_in kind how place e) }
{
    changed_in(alloc, kind, Change::Apply { op: how, kind }, place, e)
}

/// What `op=` does where its rule is kept.
#[tactic(auto, unfolding(crate::specs::Places::update))]
fn update(alloc: Global, how: BinaryOp, place: TPlace, e: TExpr) -> Result<TExpr, NoMemory>
    ensures { IfOk result (λ t. t ≡ spec.update how place e) }
{
    if is_integer(place.ty()) {
        let kind = operator_kind(how, place.ty(), e.ty());
        apply_in(alloc, kind, how, place, e)
    } else {
        changed_in(
            alloc,
            Kind::Int,
            Change::Move { back: is_back(how) },
            place,
            e,
        )
    }
}

/// The operator before `=`: `&&` and `||` are none.
fn operator(how: Written) -> Option<BinaryOp>
    ensures { result ≡ spec.operator how }
{
    match how {
        Written::Multiply => Some(BinaryOp::Multiply),
        Written::Divide => Some(BinaryOp::Divide),
        Written::Remainder => Some(BinaryOp::Remainder),
        Written::Add => Some(BinaryOp::Add),
        Written::Subtract => Some(BinaryOp::Subtract),
        Written::ShiftLeft => Some(BinaryOp::ShiftLeft),
        Written::ShiftRight => Some(BinaryOp::ShiftRight),
        Written::Less => Some(BinaryOp::Less),
        Written::Greater => Some(BinaryOp::Greater),
        Written::LessEqual => Some(BinaryOp::LessEqual),
        Written::GreaterEqual => Some(BinaryOp::GreaterEqual),
        Written::Equal => Some(BinaryOp::Equal),
        Written::NotEqual => Some(BinaryOp::NotEqual),
        Written::BitAnd => Some(BinaryOp::BitAnd),
        Written::BitXor => Some(BinaryOp::BitXor),
        Written::BitOr => Some(BinaryOp::BitOr),
        Written::And | Written::Or => None,
    }
}

#[tactic(auto, unfolding(crate::specs::Places::updated_with), using(al_operands::proofs::Asking::asking))]
fn updated_with(
    alloc: Global,
    aggregates: &[Aggregate],
    at: Place,
    how: BinaryOp,
    place: TPlace,
    e: TExpr,
) -> Result<TExpr, TypeStop>
    ensures { Answers result (spec.updated_with aggregates.now at how place e) }
{
    let holds = rule_34_updates(aggregates, how, place.ty(), e.ty());
    let (place, e) = asked(34, at, holds, (place, e))?;
    Ok(update(alloc, how, place, e)?)
}

#[tactic(auto, unfolding(crate::specs::Places::updated_by), using(al_operands::proofs::Asking::asking))]
fn updated_by(
    alloc: Global,
    aggregates: &[Aggregate],
    at: Place,
    how: Option<BinaryOp>,
    place: TPlace,
    e: TExpr,
) -> Result<TExpr, TypeStop>
    ensures { Answers result (spec.updated_by aggregates.now at how place e) }
{
    let (how, sides) = present(34, at, how, (place, e))?;
    let (place, e) = sides;
    updated_with(alloc, aggregates, at, how, place, e)
}

/// `op=` with a place on its left.
#[tactic(auto, unfolding(crate::specs::Places::updated), using(al_rules::proofs::Permits::permitted))]
pub fn updated(
    alloc: Global,
    aggregates: &[Aggregate],
    at: Place,
    how: Written,
    place: TPlace,
    x: Operand,
) -> Result<TExpr, TypeStop>
    ensures { Answers result (spec.updated aggregates.now at how place x) }
{
    let e = plain(x);
    let (place, e) = beside(place, e)?;
    updated_by(alloc, aggregates, at, operator(how), place, e)
}

fn step_node(alloc: Global, how: StepOp, place: TPlace) -> Result<TExpr, NoMemory>
    ensures { IfOk result (λ t. t ≡ spec.step_node how place) }
{
    let ty = place.ty().copy(alloc);
    let place = Boxed::new(alloc, place);
    let (ty, place) = both(ty, place)?;
    Ok(TExpr::Step { ty, op: how, place })
}

/// `++` and `--`.
#[tactic(auto, unfolding(crate::specs::Places::stepped), using(al_operands::proofs::Asking::asking))]
pub fn stepped(
    alloc: Global,
    aggregates: &[Aggregate],
    at: Place,
    how: StepOp,
    place: TPlace,
) -> Result<TExpr, TypeStop>
    ensures { Answers result (spec.stepped aggregates.now at how place) }
{
    let holds = rule_28_steps(aggregates, place.ty());
    let place = asked(28, at, holds, place)?;
    Ok(step_node(alloc, how, place)?)
}

fn zero_node(alloc: Global, place: TPlace) -> Result<TExpr, NoMemory>
    ensures { IfOk result (λ t. t ≡ spec.zero_node place) }
{
    let ty = place.ty().copy(alloc);
    let place = Boxed::new(alloc, place);
    let (ty, place) = both(ty, place)?;
    Ok(TExpr::Zerox { ty, place })
}

/// `zerox`
#[tactic(auto, unfolding(crate::specs::Places::zeroed), using(al_operands::proofs::Asking::asking, crate::proofs::Judging::judged))]
pub fn zeroed(
    alloc: Global,
    aggregates: &[Aggregate],
    at: Place,
    place: TPlace,
) -> Result<TExpr, TypeStop>
    ensures { Answers result (spec.zeroed aggregates.now at place) }
{
    let is_whole = rule_29_is_no_array(place.ty());
    let is_complete = rule_7_is_complete(aggregates, place.ty());
    let place = asked_twice((29, 7), at, (is_whole, is_complete), place)?;
    Ok(zero_node(alloc, place)?)
}
