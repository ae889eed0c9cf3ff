//! What initializers write.
ghost use Rattle.std.specs.Prelude.{◌≡◌, OnOk};
ghost use Rattle.al_typed.specs.Layout.{IsLaidOut};
ghost use Rattle.al_body_parts.specs.Parts.{nothing as no_parts};
ghost use Rattle.al_initial.specs.Walks as spec;

use al_base::NoMemory;
use al_body_parts::{Parts, WrittenText, push_expression};
use al_environment::{Environment, Here};
use al_items::Items;
use al_tree::{Declarator, Initializer, Item};
use al_typed::Ty;
use std::alloc::Global;

/// What initializers write, where the types among it break no rule.
#[derive(Drop)]
pub(crate) struct Written {
    pub texts: Items<WrittenText>,
    pub types: Items<Ty>,
}

/// Nothing.
pub(crate) fn nothing(alloc: Global) -> Parts
    ensures { result ≡ no_parts }
{
    Parts {
        locals: Items::new(alloc),
        texts: Items::new(alloc),
        types: Items::new(alloc),
        labels: Items::new(alloc),
        faults: Items::new(alloc),
    }
}

/// Initializers.
#[cycle(gather)]
fn gather_all(
    alloc: Global,
    env: &Environment,
    here: &Here,
    list: &[Initializer],
    parts: &mut Parts,
) -> Result<(), NoMemory>
    requires { IsLaidOut env.now.aggregates }
    ensures { OnOk result (parts.new ≡ spec.each (spec.written env.now here.now) list.now parts.old) }
{
    for i in list {
        gather(alloc, env, here, i, parts)?;
    }
    Ok(())
}

/// An initializer.
#[cycle(gather)]
#[tactic(auto, using(crate::proofs::InitializersAre::written_is))]
fn gather(
    alloc: Global,
    env: &Environment,
    here: &Here,
    i: &Initializer,
    parts: &mut Parts,
) -> Result<(), NoMemory>
    requires { IsLaidOut env.now.aggregates }
    ensures { OnOk result (parts.new ≡ spec.written env.now here.now i.now parts.old) }
{
    match i {
        Initializer::Value(e) => push_expression(alloc, env, here, e, parts),
        Initializer::Braces { parts: list, .. } => {
            gather_all(alloc, env, here, list.as_slice(), parts)
        }
    }
}

/// An initializer that may be missing.
fn gather_if(
    alloc: Global,
    env: &Environment,
    here: &Here,
    i: &Option<Initializer>,
    parts: &mut Parts,
) -> Result<(), NoMemory>
    requires { IsLaidOut env.now.aggregates }
    ensures { OnOk result (parts.new ≡ spec.optional (spec.written env.now here.now) i.now parts.old) }
{
    match i {
        None => Ok(()),
        Some(i) => gather(alloc, env, here, i, parts),
    }
}

fn gather_declarator(
    alloc: Global,
    env: &Environment,
    here: &Here,
    d: &Declarator,
    parts: &mut Parts,
) -> Result<(), NoMemory>
    requires { IsLaidOut env.now.aggregates }
    ensures { OnOk result (parts.new ≡ spec.written_by env.now here.now d.now parts.old) }
{
    match d {
        Declarator::Global { value, .. } => gather_if(alloc, env, here, value, parts),
        Declarator::Function(_) => Ok(()),
    }
}

fn gather_declarators(
    alloc: Global,
    env: &Environment,
    here: &Here,
    list: &[Declarator],
    parts: &mut Parts,
) -> Result<(), NoMemory>
    requires { IsLaidOut env.now.aggregates }
    ensures { OnOk result (parts.new ≡ spec.each (spec.written_by env.now here.now) list.now parts.old) }
{
    for d in list {
        gather_declarator(alloc, env, here, d, parts)?;
    }
    Ok(())
}

#[tactic(auto, unfolding(crate::specs::Walks::written_in))]
fn gather_item(
    alloc: Global,
    env: &Environment,
    here: &Here,
    item: &Item,
    parts: &mut Parts,
) -> Result<(), NoMemory>
    requires { IsLaidOut env.now.aggregates }
    ensures { OnOk result (parts.new ≡ spec.written_in env.now here.now item.now parts.old) }
{
    match item {
        Item::Declare { declarators, .. } => {
            gather_declarators(alloc, env, here, declarators.as_slice(), parts)
        }
        Item::Typedef { .. }
        | Item::FunctionType { .. }
        | Item::Forward { .. }
        | Item::Aggregate { .. }
        | Item::Adt { .. }
        | Item::Enum { .. }
        | Item::Function { .. } => Ok(()),
    }
}

/// Adds what the initializers of items write.
pub(crate) fn gather_items(
    alloc: Global,
    env: &Environment,
    here: &Here,
    items: &[Item],
    parts: &mut Parts,
) -> Result<(), NoMemory>
    requires { IsLaidOut env.now.aggregates }
    ensures { OnOk result (parts.new ≡ spec.each (spec.written_in env.now here.now) items.now parts.old) }
{
    for item in items {
        gather_item(alloc, env, here, item, parts)?;
    }
    Ok(())
}
