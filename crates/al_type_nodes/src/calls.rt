//! What is called, and the object before the name of a function of an adt.
ghost use Rattle.std.specs.Prelude.{◌≡◌, IfOk};
ghost use Rattle.std.specs.Option.{option_copied};
ghost use Rattle.al_rules.specs.Outcome.{Answers};
ghost use Rattle.al_convert.specs.Same as same;
ghost use Rattle.al_type_nodes.specs.Calls as spec;

use crate::found::Found;
use crate::refusal::asked_before;
use crate::rules::{rule_10_is_open, rule_57_has_place, rule_58_is_object};
use al_base::{NoMemory, Place};
use al_convert::pointed;
use al_environment::{Here, NamedFunction};
use al_items::{Boxed, Items};
use al_operands::{Operand, asked, asked_twice, both, plain};
use al_rules::TypeStop;
use al_typed::{TExpr, TPlace, TReceiver, Ty};
use std::alloc::Global;

fn place_object(alloc: Global, place: TPlace, f: &NamedFunction) -> Result<TReceiver, NoMemory>
    ensures { IfOk result (λ r. r ≡ spec.place_object place f.now) }
{
    let path = Items::from_slice(alloc, f.path.as_slice());
    let place = Boxed::new(alloc, place);
    let (path, place) = both(path, place)?;
    Ok(TReceiver::Place {
        place,
        path,
        passed: f.passed,
    })
}

#[tactic(auto, unfolding(crate::specs::Calls::place_receiver), using(al_operands::proofs::Asking::asking))]
fn place_receiver(
    alloc: Global,
    here: &Here,
    at: Place,
    place: TPlace,
    f: &NamedFunction,
) -> Result<TReceiver, TypeStop>
    ensures { Answers result (spec.place_receiver here.now at place f.now) }
{
    let is_open = rule_10_is_open(here, f.interns.as_slice());
    let place = asked(10, at, is_open, place)?;
    Ok(place_object(alloc, place, f)?)
}

fn value_object(alloc: Global, e: TExpr, f: &NamedFunction) -> Result<TReceiver, NoMemory>
    ensures { IfOk result (λ r. r ≡ spec.value_object e f.now) }
{
    let path = Items::from_slice(alloc, f.path.as_slice());
    let value = Boxed::new(alloc, e);
    let (path, value) = both(path, value)?;
    Ok(TReceiver::Value {
        value,
        path,
        passed: f.passed,
    })
}

/// A value that may be the object of a function.
#[tactic(auto, unfolding(crate::specs::Calls::object))]
fn object(here: &Here, at: Place, e: TExpr, f: &NamedFunction) -> Result<TExpr, TypeStop>
    ensures { Answers result (spec.object here.now at e f.now) }
{
    let is_open = rule_10_is_open(here, f.interns.as_slice());
    let has_place = rule_57_has_place(f.passed);
    let is_object = rule_58_is_object(&e);
    let e = asked_twice((57, 58), at, (has_place, is_object), e);
    asked_before(10, at, is_open, e)
}

#[tactic(auto, unfolding(crate::specs::Calls::value_receiver), using(al_rules::proofs::Permits::permitted))]
fn value_receiver(
    alloc: Global,
    here: &Here,
    at: Place,
    e: TExpr,
    f: &NamedFunction,
) -> Result<TReceiver, TypeStop>
    ensures { Answers result (spec.value_receiver here.now at e f.now) }
{
    let e = object(here, at, e, f)?;
    Ok(value_object(alloc, e, f)?)
}

fn pointer_object(alloc: Global, e: TExpr, f: &NamedFunction) -> Result<TReceiver, NoMemory>
    ensures { IfOk result (λ r. r ≡ spec.pointer_object e f.now) }
{
    let path = Items::from_slice(alloc, f.path.as_slice());
    let pointer = Boxed::new(alloc, e);
    let (path, pointer) = both(path, pointer)?;
    Ok(TReceiver::Pointer {
        pointer,
        path,
        passed: f.passed,
    })
}

#[tactic(auto, unfolding(crate::specs::Calls::pointer_receiver), using(al_operands::proofs::Asking::asking))]
fn pointer_receiver(
    alloc: Global,
    here: &Here,
    at: Place,
    e: TExpr,
    f: &NamedFunction,
) -> Result<TReceiver, TypeStop>
    ensures { Answers result (spec.pointer_receiver here.now at e f.now) }
{
    let is_open = rule_10_is_open(here, f.interns.as_slice());
    let e = asked(10, at, is_open, e)?;
    Ok(pointer_object(alloc, e, f)?)
}

#[tactic(auto, unfolding(crate::specs::Calls::operand_receiver), using(al_rules::proofs::Permits::permitted))]
fn operand_receiver(
    alloc: Global,
    here: &Here,
    at: Place,
    x: Operand,
    f: &NamedFunction,
) -> Result<TReceiver, TypeStop>
    ensures { Answers result (spec.operand_receiver here.now at x f.now) }
{
    let e = plain(x)?;
    value_receiver(alloc, here, at, e, f)
}

/// The object before `.` and a function's name.
#[tactic(auto, unfolding(crate::specs::Calls::dot_receiver))]
pub fn dot_receiver(
    alloc: Global,
    here: &Here,
    at: Place,
    of: Found,
    f: &NamedFunction,
) -> Result<TReceiver, TypeStop>
    ensures { Answers result (spec.dot_receiver here.now at of f.now) }
{
    match of {
        Found::Place {
            place,
            is_private: _,
        } => place_receiver(alloc, here, at, place, f),
        Found::Value(x) => operand_receiver(alloc, here, at, x, f),
    }
}

/// The pointer before `->` and a function's name.
#[tactic(auto, unfolding(crate::specs::Calls::arrow_receiver), using(al_rules::proofs::Permits::permitted))]
pub fn arrow_receiver(
    alloc: Global,
    here: &Here,
    at: Place,
    x: Operand,
    f: &NamedFunction,
) -> Result<TReceiver, TypeStop>
    ensures { Answers result (spec.arrow_receiver here.now at x f.now) }
{
    let e = plain(x)?;
    pointer_receiver(alloc, here, at, e, f)
}

#[tactic(auto, unfolding(al_convert::specs::Same::returns_of))]
fn returns_of(t: &Ty) -> Option<&Ty>
    ensures { option_copied result ≡ same.returns_of t.now }
{
    match t {
        Ty::Function {
            returns,
            parameters: _,
        } => Some(returns.get()),
        Ty::Void
        | Ty::Integer(_)
        | Ty::Pointer(_)
        | Ty::Array { .. }
        | Ty::Chan { .. }
        | Ty::Tuple(_)
        | Ty::Aggregate(_) => None,
    }
}

#[tactic(auto, unfolding(al_convert::specs::Same::parameters_of))]
fn parameters_of(t: &Ty) -> Option<&Items<Ty>>
    ensures { option_copied result ≡ same.parameters_of t.now }
{
    match t {
        Ty::Function {
            returns: _,
            parameters,
        } => Some(parameters),
        Ty::Void
        | Ty::Integer(_)
        | Ty::Pointer(_)
        | Ty::Array { .. }
        | Ty::Chan { .. }
        | Ty::Tuple(_)
        | Ty::Aggregate(_) => None,
    }
}

/// What the function that a pointer points to returns.
pub fn returns_behind(t: &Ty) -> Option<&Ty>
    ensures { option_copied result ≡ spec.returns_behind t.now }
{
    match pointed(t) {
        None => None,
        Some(to) => returns_of(to),
    }
}

/// What the function that a pointer points to takes.
pub fn parameters_behind(t: &Ty) -> Option<&Items<Ty>>
    ensures { option_copied result ≡ spec.parameters_behind t.now }
{
    match pointed(t) {
        None => None,
        Some(to) => parameters_of(to),
    }
}
