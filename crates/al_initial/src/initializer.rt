//! What an initializer starts its global with.
ghost use Rattle.std.specs.Prelude.{◌≡◌, ◌≤◌, map, option_map};
ghost use Rattle.std.specs.Option.{option_copied};
ghost use Rattle.al_rules.specs.Outcome.{Answers};
ghost use Rattle.al_typed.specs.Capped.{capped};
ghost use Rattle.al_typed.specs.Layout as layouts;
ghost use Rattle.al_typed.specs.Layout.{IsLaidOut, size_of};
ghost use Rattle.al_initial.specs.Initializers as spec;

use crate::start::{placed, started};
use al_base::Place;
use al_environment::{Environment, Here};
use al_items::Items;
use al_rules::{TypeStop, broken};
use al_tree::{Expr, Initializer};
use al_type_expr::{expr_place, value_of};
use al_typed::{Aggregate, StartValue, Ty, room_of};
use std::alloc::Global;

/// What is kept, where something else is let go.
fn only<T, U: Drop>(kept: T, _let_go: U) -> T
    ensures { result ≡ kept }
{
    kept
}

/// A value alone.
#[tactic(auto, unfolding(crate::specs::Initializers::value_started), using(al_rules::proofs::Permits::permitted))]
fn value(
    alloc: Global,
    env: &Environment,
    here: &Here,
    e: &Expr,
    t: &Ty,
    offset: u64,
) -> Result<Items<StartValue>, TypeStop>
    requires { IsLaidOut env.now.aggregates }
    ensures { Answers result (spec.value_started env.now here.now e.now t.now offset) }
{
    let at = expr_place(e);
    let x = value_of(alloc, env, here, e)?;
    let start = started(env.aggregates.as_slice(), at, t, &x);
    let start = only(start, x)?;
    placed(alloc, at, offset, start)
}

/// The next multiple of an alignment. What is more than 2^64 - 1 counts as that.
#[tactic(auto, unfolding(al_typed::specs::Layout::rounded))]
fn rounded(at: u64, align: u32) -> u64
    requires { 1 ≤ align }
    ensures { result ≡ capped (layouts.rounded at align) }
{
    at.div_ceil(align as u64).saturating_mul(align as u64)
}

/// Whether the aggregate of that number is an adt.
fn is_adt(adts: &[bool], number: u32) -> bool
    ensures { result ≡ spec.is_adt adts.now number }
{
    match adts.get(number as usize) {
        None => false,
        Some(is_adt) => *is_adt,
    }
}

fn unless_union(a: Option<&Aggregate>) -> Option<&Items<Ty>>
    ensures { option_copied result ≡ spec.unless_union (option_copied a.entry) }
{
    match a {
        None => None,
        Some(a) => if a.is_union { None } else { a.members.as_ref() },
    }
}

/// The types of the members of an aggr, which is no union and no adt.
#[tactic(auto, unfolding(crate::specs::Initializers::aggr_members))]
fn aggr_members<'a>(
    aggregates: &'a [Aggregate],
    adts: &[bool],
    number: u32,
) -> Option<&'a Items<Ty>>
    ensures { option_copied result ≡ spec.aggr_members aggregates.now adts.now number }
{
    if is_adt(adts, number) {
        return None;
    }
    unless_union(aggregates.get(number as usize))
}

/// The elements of an array, in order.
#[cycle(initializer)]
#[tactic(auto, using(crate::proofs::PartsAre::elements_are, al_rules::proofs::Permits::permitted))]
fn elements(
    alloc: Global,
    env: &Environment,
    here: &Here,
    adts: &[bool],
    list: &[Initializer],
    element: &Ty,
    count: u32,
    offset: u64,
) -> Result<Items<StartValue>, TypeStop>
    requires { IsLaidOut env.now.aggregates }
    ensures { Answers result (spec.all_started (map (spec.initializer env.now here.now adts.now) list.now) (spec.elements (size_of env.now.aggregates element.now) element.now count) offset) }
{
    let size = room_of(env.aggregates.as_slice(), element).size;
    let mut done = Items::new(alloc);
    for (n, i) in list.iter().enumerate() {
        if n >= count as usize {
            return Ok(done);
        }
        let at = offset.saturating_add((n as u64).saturating_mul(size));
        let values = initializer(alloc, env, here, adts, i, element, at)?;
        done.append(values)?;
    }
    Ok(done)
}

/// The members of an aggr, in order.
#[cycle(initializer)]
#[tactic(auto, using(crate::proofs::PartsAre::members_are, al_rules::proofs::Permits::permitted))]
fn members<'a>(
    alloc: Global,
    env: &Environment,
    here: &Here,
    adts: &[bool],
    list: &[Initializer],
    mut types: &'a [Ty],
    offset: u64,
) -> Result<Items<StartValue>, TypeStop>
    requires { IsLaidOut env.now.aggregates }
    ensures { Answers result (spec.all_started (map (spec.initializer env.now here.now adts.now) list.now) (spec.members env.now.aggregates types.entry.now) offset) }
{
    let mut done = Items::new(alloc);
    let mut end: u64 = 0;
    for i in list {
        let (t, others) = match types.split_first() {
            None => return Ok(done),
            Some(parts) => parts,
        };
        let room = room_of(env.aggregates.as_slice(), t);
        let at = rounded(end, room.align);
        let values = initializer(alloc, env, here, adts, i, t, offset.saturating_add(at))?;
        done.append(values)?;
        end = at.saturating_add(room.size);
        types = others;
    }
    Ok(done)
}

/// Braces round values for an array.
#[cycle(initializer)]
#[tactic(auto, using(crate::proofs::PartsAre::braces_are, al_operands::proofs::Asking::asking))]
fn in_array(
    alloc: Global,
    env: &Environment,
    here: &Here,
    adts: &[bool],
    list: &[Initializer],
    at: Place,
    element: &Ty,
    count: u32,
    offset: u64,
) -> Result<Items<StartValue>, TypeStop>
    requires { IsLaidOut env.now.aggregates }
    ensures { Answers result (spec.in_parts at (map (spec.initializer env.now here.now adts.now) list.now) offset (spec.elements (size_of env.now.aggregates element.now) element.now count)) }
{
    if list.len() > count as usize {
        return Err(broken(21, at));
    }
    elements(alloc, env, here, adts, list, element, count, offset)
}

/// Braces round values for an aggr.
#[cycle(initializer)]
#[tactic(auto, using(crate::proofs::PartsAre::braces_are, al_operands::proofs::Asking::asking))]
fn in_aggr(
    alloc: Global,
    env: &Environment,
    here: &Here,
    adts: &[bool],
    list: &[Initializer],
    at: Place,
    types: &[Ty],
    offset: u64,
) -> Result<Items<StartValue>, TypeStop>
    requires { IsLaidOut env.now.aggregates }
    ensures { Answers result (spec.in_parts at (map (spec.initializer env.now here.now adts.now) list.now) offset (spec.members env.now.aggregates types.now)) }
{
    if list.len() > types.len() {
        return Err(broken(21, at));
    }
    members(alloc, env, here, adts, list, types, offset)
}

/// Braces round values for an aggregate.
#[cycle(initializer)]
#[tactic(auto, using(al_operands::proofs::Asking::asking))]
fn in_aggregate(
    alloc: Global,
    env: &Environment,
    here: &Here,
    adts: &[bool],
    list: &[Initializer],
    at: Place,
    number: u32,
    offset: u64,
) -> Result<Items<StartValue>, TypeStop>
    requires { IsLaidOut env.now.aggregates }
    ensures { Answers result (spec.in_parts_if at (map (spec.initializer env.now here.now adts.now) list.now) offset (option_map (spec.members env.now.aggregates) (spec.aggr_members env.now.aggregates adts.now number))) }
{
    match aggr_members(env.aggregates.as_slice(), adts, number) {
        None => Err(broken(21, at)),
        Some(types) => in_aggr(alloc, env, here, adts, list, at, types.as_slice(), offset),
    }
}

/// Braces round values for a type.
#[cycle(initializer)]
#[tactic(auto, unfolding(crate::specs::Initializers::braces, crate::specs::Initializers::parts_of), using(al_operands::proofs::Asking::asking))]
fn braces(
    alloc: Global,
    env: &Environment,
    here: &Here,
    adts: &[bool],
    list: &[Initializer],
    at: Place,
    t: &Ty,
    offset: u64,
) -> Result<Items<StartValue>, TypeStop>
    requires { IsLaidOut env.now.aggregates }
    ensures { Answers result (spec.braces env.now.aggregates adts.now at (map (spec.initializer env.now here.now adts.now) list.now) t.now offset) }
{
    match t {
        Ty::Array { element, count } => {
            in_array(
                alloc,
                env,
                here,
                adts,
                list,
                at,
                element.get(),
                *count,
                offset,
            )
        }
        Ty::Aggregate(number) => { in_aggregate(alloc, env, here, adts, list, at, *number, offset) }
        Ty::Void
        | Ty::Integer(_)
        | Ty::Pointer(_)
        | Ty::Chan { .. }
        | Ty::Tuple(_)
        | Ty::Function { .. } => Err(broken(21, at)),
    }
}

/// An initializer of a part of a type that stands so many bytes from the front of its global.
#[cycle(initializer)]
#[tactic(auto, using(crate::proofs::InitializersAre::initializer_is))]
pub(crate) fn initializer(
    alloc: Global,
    env: &Environment,
    here: &Here,
    adts: &[bool],
    i: &Initializer,
    t: &Ty,
    offset: u64,
) -> Result<Items<StartValue>, TypeStop>
    requires { IsLaidOut env.now.aggregates }
    ensures { Answers result (spec.initializer env.now here.now adts.now i.now t.now offset) }
{
    match i {
        Initializer::Value(e) => value(alloc, env, here, e, t, offset),
        Initializer::Braces { at, parts } => {
            braces(alloc, env, here, adts, parts.as_slice(), *at, t, offset)
        }
    }
}
