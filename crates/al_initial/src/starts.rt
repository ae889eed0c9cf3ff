//! What the globals of a text start with.
ghost use Rattle.std.specs.Prelude.{◌≡◌, fold, map, slice_set, IfOk};
ghost use Rattle.std.specs.Option.{option_copied};
ghost use Rattle.al_rules.specs.Outcome.{Answers, Good};
ghost use Rattle.al_typed.specs.Layout.{IsLaidOut};
ghost use Rattle.al_initial.specs.Walks as spec;
ghost use Rattle.al_initial.specs.Whole.{no_start};

use crate::initializer::initializer;
use al_base::{NoMemory, Place};
use al_environment::{Environment, Here, Variable};
use al_items::Items;
use al_rules::{TypeStop, broken};
use al_scope::Declaration;
use al_tree::{Declarator, Initializer, Item};
use al_typed::StartValue;
use std::alloc::Global;

/// The number of the global that a name declares.
fn global_in(declaration: Option<Declaration>) -> Option<usize>
    ensures { result ≡ spec.global_in declaration }
{
    match declaration {
        Some(Declaration::Global(n)) => Some(n),
        _ => None,
    }
}

#[tactic(auto, using(al_operands::proofs::Asking::asking, al_rules::proofs::Permits::permitted))]
fn known_start(
    alloc: Global,
    env: &Environment,
    here: &Here,
    adts: &[bool],
    at: Place,
    i: &Initializer,
    n: usize,
    v: Option<&Variable>,
) -> Result<(usize, Items<StartValue>), TypeStop>
    requires { IsLaidOut env.now.aggregates }
    ensures { Answers result (spec.known_start env.now here.now adts.now at i.now n (option_copied v.entry)) }
{
    match v {
        None => Err(broken(1, at)),
        Some(v) => {
            let values = initializer(alloc, env, here, adts, i, &v.ty, 0)?;
            Ok((n, values))
        }
    }
}

#[tactic(auto, using(al_operands::proofs::Asking::asking))]
fn numbered_start(
    alloc: Global,
    env: &Environment,
    here: &Here,
    adts: &[bool],
    at: Place,
    i: &Initializer,
    n: Option<usize>,
) -> Result<(usize, Items<StartValue>), TypeStop>
    requires { IsLaidOut env.now.aggregates }
    ensures { Answers result (spec.numbered_start env.now here.now adts.now at i.now n) }
{
    match n {
        None => Err(broken(1, at)),
        Some(n) => known_start(alloc, env, here, adts, at, i, n, env.globals.get(n)),
    }
}

/// The global that a name declares, and what it starts with.
#[tactic(auto, unfolding(crate::specs::Walks::global_start))]
fn global_start(
    alloc: Global,
    env: &Environment,
    here: &Here,
    adts: &[bool],
    at: Place,
    i: &Initializer,
) -> Result<(usize, Items<StartValue>), TypeStop>
    requires { IsLaidOut env.now.aggregates }
    ensures { Answers result (spec.global_start env.now here.now adts.now at i.now) }
{
    let n = global_in(env.scopes.declaration(at));
    numbered_start(alloc, env, here, adts, at, i, n)
}

fn with_start(
    starts: Items<Items<StartValue>>,
    n: usize,
    values: Items<StartValue>,
) -> Items<Items<StartValue>>
    ensures { result ≡ slice_set starts n values }
{
    let mut starts = starts;
    if n < starts.len() {
        starts.set(n, values);
    }
    starts
}

#[tactic(auto, using(al_rules::proofs::Permits::permitted))]
fn started_if(
    alloc: Global,
    env: &Environment,
    here: &Here,
    adts: &[bool],
    starts: Items<Items<StartValue>>,
    at: Place,
    i: &Option<Initializer>,
) -> Result<Items<Items<StartValue>>, TypeStop>
    requires { IsLaidOut env.now.aggregates }
    ensures { Answers result (spec.started_if env.now here.now adts.now (Good starts) at i.now) }
{
    match i {
        None => Ok(starts),
        Some(i) => {
            let (n, values) = global_start(alloc, env, here, adts, at, i)?;
            Ok(with_start(starts, n, values))
        }
    }
}

fn started_by(
    alloc: Global,
    env: &Environment,
    here: &Here,
    adts: &[bool],
    starts: Items<Items<StartValue>>,
    d: &Declarator,
) -> Result<Items<Items<StartValue>>, TypeStop>
    requires { IsLaidOut env.now.aggregates }
    ensures { Answers result (spec.started_by env.now here.now adts.now (Good starts) d.now) }
{
    match d {
        Declarator::Global { dcl, value } => {
            started_if(alloc, env, here, adts, starts, dcl.name.at, value)
        }
        Declarator::Function(_) => Ok(starts),
    }
}

#[tactic(auto, using(crate::proofs::StartsAre::declarators_are))]
fn started_by_all(
    alloc: Global,
    env: &Environment,
    here: &Here,
    adts: &[bool],
    starts: Items<Items<StartValue>>,
    list: &[Declarator],
) -> Result<Items<Items<StartValue>>, TypeStop>
    requires { IsLaidOut env.now.aggregates }
    ensures { Answers result (fold (spec.started_by env.now here.now adts.now) (Good starts) list.now) }
{
    let mut done = starts;
    for d in list {
        done = started_by(alloc, env, here, adts, done, d)?;
    }
    Ok(done)
}

#[tactic(auto, unfolding(crate::specs::Walks::started_in))]
fn started_in(
    alloc: Global,
    env: &Environment,
    here: &Here,
    adts: &[bool],
    starts: Items<Items<StartValue>>,
    item: &Item,
) -> Result<Items<Items<StartValue>>, TypeStop>
    requires { IsLaidOut env.now.aggregates }
    ensures { Answers result (spec.started_in env.now here.now adts.now (Good starts) item.now) }
{
    match item {
        Item::Declare { declarators, .. } => {
            started_by_all(alloc, env, here, adts, starts, declarators.as_slice())
        }
        Item::Typedef { .. }
        | Item::FunctionType { .. }
        | Item::Forward { .. }
        | Item::Aggregate { .. }
        | Item::Adt { .. }
        | Item::Enum { .. }
        | Item::Function { .. } => Ok(starts),
    }
}

/// What globals start with by the initializers of items, where they started with that.
#[tactic(auto, using(crate::proofs::StartsAre::items_are))]
pub(crate) fn started_in_all(
    alloc: Global,
    env: &Environment,
    here: &Here,
    adts: &[bool],
    starts: Items<Items<StartValue>>,
    items: &[Item],
) -> Result<Items<Items<StartValue>>, TypeStop>
    requires { IsLaidOut env.now.aggregates }
    ensures { Answers result (fold (spec.started_in env.now here.now adts.now) (Good starts) items.now) }
{
    let mut done = starts;
    for item in items {
        done = started_in(alloc, env, here, adts, done, item)?;
    }
    Ok(done)
}

/// No global starts with other bytes than 0.
pub(crate) fn no_starts(
    alloc: Global,
    globals: &[Variable],
) -> Result<Items<Items<StartValue>>, NoMemory>
    ensures { IfOk result (λ starts. starts ≡ map no_start globals.now) }
{
    let mut starts = Items::with_capacity(alloc, globals.len())?;
    for _global in globals {
        starts.push(Items::new(alloc))?;
    }
    Ok(starts)
}
