//! Members of objects.
ghost use Rattle.std.specs.Prelude.{◌≡◌, IfOk};
ghost use Rattle.std.specs.Option.{option_copied};
ghost use Rattle.al_rules.specs.Outcome.{Answers};
ghost use Rattle.al_type_nodes.specs.Members as spec;

use crate::found::Found;
use crate::refusal::lacking;
use crate::rules::{rule_10_is_open, rule_58_is_read};
use crate::uses::{place_of, value};
use al_base::{NoMemory, Place};
use al_convert::pointed;
use al_environment::{Environment, Here, NamedFunction, NamedMember, function_named, member_named};
use al_items::{Boxed, Items};
use al_operands::{Operand, asked, asked_twice, both, plain};
use al_rules::TypeStop;
use al_typed::{TExpr, TPlace, Ty};
use std::alloc::Global;

/// The number of an aggregate's type.
#[tactic(auto, unfolding(crate::specs::Members::aggregate_of))]
fn aggregate_of(t: &Ty) -> Option<u32>
    ensures { result ≡ spec.aggregate_of t.now }
{
    match t {
        Ty::Aggregate(number) => Some(*number),
        Ty::Void
        | Ty::Integer(_)
        | Ty::Pointer(_)
        | Ty::Array { .. }
        | Ty::Chan { .. }
        | Ty::Tuple(_)
        | Ty::Function { .. } => None,
    }
}

/// The data member of that name that an aggregate has.
fn member_in<'a>(env: &'a Environment, t: Option<&Ty>, name: u32) -> Option<&'a NamedMember>
    ensures { option_copied result ≡ spec.member_in env.now (option_copied t.entry) name }
{
    match t {
        None => None,
        Some(t) => match aggregate_of(t) {
            None => None,
            Some(number) => member_named(env, number, name),
        },
    }
}

/// The function of that name that an aggregate has.
pub fn function_in<'a>(env: &'a Environment, t: Option<&Ty>, name: u32) -> Option<&'a NamedFunction>
    ensures { option_copied result ≡ spec.function_in env.now (option_copied t.entry) name }
{
    match t {
        None => None,
        Some(t) => match aggregate_of(t) {
            None => None,
            Some(number) => function_named(env, number, name),
        },
    }
}

/// The rule that a name breaks which is no data member's.
fn missing_rule(f: Option<&NamedFunction>) -> u16
    ensures { result ≡ spec.missing_rule (option_copied f.entry) }
{
    match f {
        None => 32,
        Some(_) => 9,
    }
}

fn place_member(alloc: Global, place: TPlace, m: &NamedMember) -> Result<TPlace, NoMemory>
    ensures { IfOk result (λ p. p ≡ spec.place_member place m.now) }
{
    let ty = m.ty.copy(alloc);
    let path = Items::from_slice(alloc, m.path.as_slice());
    let of = Boxed::new(alloc, place);
    let way = both(ty, path);
    let (of, way) = both(of, way)?;
    let (ty, path) = way;
    Ok(TPlace::Member { ty, of, path })
}

#[tactic(auto, unfolding(crate::specs::Members::member_of_place), using(al_operands::proofs::Asking::asking))]
fn member_of_place(
    alloc: Global,
    here: &Here,
    at: Place,
    place: TPlace,
    m: &NamedMember,
) -> Result<Found, TypeStop>
    ensures { Answers result (spec.member_of_place here.now at place m.now) }
{
    let is_open = rule_10_is_open(here, m.interns.as_slice());
    let place = asked(10, at, is_open, place)?;
    let place = place_member(alloc, place, m)?;
    Ok(place_of(place))
}

fn value_member(alloc: Global, e: TExpr, m: &NamedMember) -> Result<TExpr, NoMemory>
    ensures { IfOk result (λ t. t ≡ spec.value_member e m.now) }
{
    let ty = m.ty.copy(alloc);
    let path = Items::from_slice(alloc, m.path.as_slice());
    let of = Boxed::new(alloc, e);
    let way = both(ty, path);
    let (of, way) = both(of, way)?;
    let (ty, path) = way;
    Ok(TExpr::MemberOf {
        ty,
        value: of,
        path,
    })
}

/// A value of which a member may be read.
#[tactic(auto, unfolding(crate::specs::Members::whole))]
fn whole(here: &Here, at: Place, e: TExpr, m: &NamedMember) -> Result<TExpr, TypeStop>
    ensures { Answers result (spec.whole here.now at e m.now) }
{
    let is_open = rule_10_is_open(here, m.interns.as_slice());
    let is_read = rule_58_is_read(&e, &m.ty);
    asked_twice((10, 58), at, (is_open, is_read), e)
}

#[tactic(auto, unfolding(crate::specs::Members::member_of_value), using(al_rules::proofs::Permits::permitted))]
fn member_of_value(
    alloc: Global,
    here: &Here,
    at: Place,
    e: TExpr,
    m: &NamedMember,
) -> Result<Found, TypeStop>
    ensures { Answers result (spec.member_of_value here.now at e m.now) }
{
    let e = whole(here, at, e, m)?;
    let e = value_member(alloc, e, m)?;
    Ok(value(e))
}

fn pointed_member(alloc: Global, e: TExpr, m: &NamedMember) -> Result<TPlace, NoMemory>
    ensures { IfOk result (λ p. p ≡ spec.pointed_member e m.now) }
{
    let ty = m.ty.copy(alloc);
    let path = Items::from_slice(alloc, m.path.as_slice());
    let pointer = Boxed::new(alloc, e);
    let way = both(ty, path);
    let (pointer, way) = both(pointer, way)?;
    let (ty, path) = way;
    Ok(TPlace::PointedMember { ty, pointer, path })
}

#[tactic(auto, unfolding(crate::specs::Members::member_behind), using(al_operands::proofs::Asking::asking))]
fn member_behind(
    alloc: Global,
    here: &Here,
    at: Place,
    e: TExpr,
    m: &NamedMember,
) -> Result<Found, TypeStop>
    ensures { Answers result (spec.member_behind here.now at e m.now) }
{
    let is_open = rule_10_is_open(here, m.interns.as_slice());
    let e = asked(10, at, is_open, e)?;
    let place = pointed_member(alloc, e, m)?;
    Ok(place_of(place))
}

#[tactic(auto, unfolding(crate::specs::Members::place_dot))]
fn place_dot(
    alloc: Global,
    here: &Here,
    at: Place,
    place: TPlace,
    m: Option<&NamedMember>,
    f: Option<&NamedFunction>,
) -> Result<Found, TypeStop>
    ensures { Answers result (spec.place_dot here.now at place (option_copied m.entry) (option_copied f.entry)) }
{
    match m {
        None => lacking(missing_rule(f), at, place),
        Some(m) => member_of_place(alloc, here, at, place, m),
    }
}

#[tactic(auto, unfolding(crate::specs::Members::value_dot))]
fn value_dot(
    alloc: Global,
    here: &Here,
    at: Place,
    e: TExpr,
    m: Option<&NamedMember>,
    f: Option<&NamedFunction>,
) -> Result<Found, TypeStop>
    ensures { Answers result (spec.value_dot here.now at e (option_copied m.entry) (option_copied f.entry)) }
{
    match m {
        None => lacking(missing_rule(f), at, e),
        Some(m) => member_of_value(alloc, here, at, e, m),
    }
}

#[tactic(auto, unfolding(crate::specs::Members::value_arrow))]
fn value_arrow(
    alloc: Global,
    here: &Here,
    at: Place,
    e: TExpr,
    m: Option<&NamedMember>,
    f: Option<&NamedFunction>,
) -> Result<Found, TypeStop>
    ensures { Answers result (spec.value_arrow here.now at e (option_copied m.entry) (option_copied f.entry)) }
{
    match m {
        None => lacking(missing_rule(f), at, e),
        Some(m) => member_behind(alloc, here, at, e, m),
    }
}

/// `.name` behind a place.
fn dot_place(
    alloc: Global,
    env: &Environment,
    here: &Here,
    at: Place,
    name: u32,
    place: TPlace,
) -> Result<Found, TypeStop>
    ensures { Answers result (spec.dot_place env.now here.now at name place) }
{
    let m = member_in(env, Some(place.ty()), name);
    let f = function_in(env, Some(place.ty()), name);
    place_dot(alloc, here, at, place, m, f)
}

/// `.name` behind a value.
fn dot_value(
    alloc: Global,
    env: &Environment,
    here: &Here,
    at: Place,
    name: u32,
    e: TExpr,
) -> Result<Found, TypeStop>
    ensures { Answers result (spec.dot_value env.now here.now at name e) }
{
    let m = member_in(env, Some(e.ty()), name);
    let f = function_in(env, Some(e.ty()), name);
    value_dot(alloc, here, at, e, m, f)
}

#[tactic(auto, unfolding(crate::specs::Members::dot_operand), using(al_rules::proofs::Permits::permitted))]
fn dot_operand(
    alloc: Global,
    env: &Environment,
    here: &Here,
    at: Place,
    name: u32,
    x: Operand,
) -> Result<Found, TypeStop>
    ensures { Answers result (spec.dot_operand env.now here.now at name x) }
{
    let e = plain(x)?;
    dot_value(alloc, env, here, at, name, e)
}

/// `x.name`
#[tactic(auto, unfolding(crate::specs::Members::dot))]
pub fn dot(
    alloc: Global,
    env: &Environment,
    here: &Here,
    at: Place,
    name: u32,
    of: Found,
) -> Result<Found, TypeStop>
    ensures { Answers result (spec.dot env.now here.now at name of) }
{
    match of {
        Found::Place {
            place,
            is_private: _,
        } => dot_place(alloc, env, here, at, name, place),
        Found::Value(x) => dot_operand(alloc, env, here, at, name, x),
    }
}

/// `->name` behind a value.
fn arrow_value(
    alloc: Global,
    env: &Environment,
    here: &Here,
    at: Place,
    name: u32,
    e: TExpr,
) -> Result<Found, TypeStop>
    ensures { Answers result (spec.arrow_value env.now here.now at name e) }
{
    let m = member_in(env, pointed(e.ty()), name);
    let f = function_in(env, pointed(e.ty()), name);
    value_arrow(alloc, here, at, e, m, f)
}

/// `x->name`
#[tactic(auto, unfolding(crate::specs::Members::arrow), using(al_rules::proofs::Permits::permitted))]
pub fn arrow(
    alloc: Global,
    env: &Environment,
    here: &Here,
    at: Place,
    name: u32,
    x: Operand,
) -> Result<Found, TypeStop>
    ensures { Answers result (spec.arrow env.now here.now at name x) }
{
    let e = plain(x)?;
    arrow_value(alloc, env, here, at, name, e)
}
