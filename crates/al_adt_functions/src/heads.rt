//! Heads of functions of adts that stand outside of the adts and have no body.
ghost use Rattle.std.specs.Prelude.{◌≡◌, ◌++◌, fold, OnOk};
ghost use Rattle.al_typed.specs.Layout.{IsLaidOut};
ghost use Rattle.al_adt_functions.specs.Heads as spec;

use crate::own_adt::here_in;
use crate::owned::{AdtFunctions, function_faults};
use crate::rules::rule_2_again;
use crate::searches::{adt_of, function_of};
use al_base::NoMemory;
use al_environment::Environment;
use al_items::Items;
use al_rules::{TypeFault, ask};
use al_tree::{Declarator, Head, Item, Owner, TypeTree};
use al_type_rules::signature;
use std::alloc::Global;

/// Asks rule 2 of the head of a function of that adt.
fn ask_again(
    alloc: Global,
    env: &Environment,
    a: &AdtFunctions,
    base: &TypeTree,
    h: &Head,
    faults: &mut Items<TypeFault>,
) -> Result<(), NoMemory>
    requires { IsLaidOut env.now.aggregates }
    ensures { OnOk result (faults.new ≡ faults.old ++ spec.asked_again env.now a.now base.now h.now) }
{
    let mut dropped = Items::new(alloc);
    let types = signature(
        alloc,
        env,
        &a.owned.here,
        h.name.at,
        base,
        h.stars,
        h.parameters.as_slice(),
        &mut dropped,
    )?;
    let is_same = rule_2_again(a.owned.aggregate, function_of(a, h.name.name), &types);
    ask(faults, 2, h.name.at, is_same)
}

#[tactic(auto, unfolding(crate::specs::Heads::faults_again))]
fn push_again(
    alloc: Global,
    env: &Environment,
    a: &AdtFunctions,
    base: &TypeTree,
    h: &Head,
    faults: &mut Items<TypeFault>,
) -> Result<(), NoMemory>
    requires { IsLaidOut env.now.aggregates }
    ensures { OnOk result (faults.new ≡ faults.old ++ spec.faults_again env.now a.now base.now h.now) }
{
    function_faults(
        alloc,
        env,
        &a.owned.here,
        base,
        h.stars,
        h.name,
        h.parameters.as_slice(),
        faults,
    )?;
    ask_again(alloc, env, a, base, h, faults)
}

#[tactic(auto, unfolding(crate::specs::Heads::with_adt))]
fn push_in_adt(
    alloc: Global,
    env: &Environment,
    adt: u32,
    base: &TypeTree,
    h: &Head,
    a: &AdtFunctions,
    faults: &mut Items<TypeFault>,
) -> Result<(), NoMemory>
    requires { IsLaidOut env.now.aggregates }
    ensures { OnOk result (faults.new ≡ spec.with_adt env.now adt base.now h.now faults.old a.now) }
{
    if a.owned.name == adt {
        push_again(alloc, env, a, base, h, faults)
    } else {
        Ok(())
    }
}

fn push_in_adts(
    alloc: Global,
    env: &Environment,
    list: &[AdtFunctions],
    adt: u32,
    base: &TypeTree,
    h: &Head,
    faults: &mut Items<TypeFault>,
) -> Result<(), NoMemory>
    requires { IsLaidOut env.now.aggregates }
    ensures { OnOk result (faults.new ≡ fold (spec.with_adt env.now adt base.now h.now) faults.old list.now) }
{
    for a in list {
        push_in_adt(alloc, env, adt, base, h, a, faults)?;
    }
    Ok(())
}

fn is_bodiless(list: &[AdtFunctions], owner: &Owner) -> bool
    ensures { result ≡ spec.is_bodiless list.now owner.now }
{
    owner.parameters.is_empty() && adt_of(list, owner.adt.name, None).is_none()
}

fn push_bodiless(
    alloc: Global,
    env: &Environment,
    list: &[AdtFunctions],
    owner: &Owner,
    base: &TypeTree,
    h: &Head,
    faults: &mut Items<TypeFault>,
) -> Result<(), NoMemory>
    requires { IsLaidOut env.now.aggregates }
    ensures { OnOk result (faults.new ≡ spec.with_bodiless env.now list.now owner.now base.now h.now faults.old) }
{
    if is_bodiless(list, owner) {
        let here = here_in(alloc, None);
        function_faults(
            alloc,
            env,
            &here,
            base,
            h.stars,
            h.name,
            h.parameters.as_slice(),
            faults,
        )
    } else {
        Ok(())
    }
}

fn push_owned(
    alloc: Global,
    env: &Environment,
    list: &[AdtFunctions],
    owner: &Option<Owner>,
    base: &TypeTree,
    h: &Head,
    faults: &mut Items<TypeFault>,
) -> Result<(), NoMemory>
    requires { IsLaidOut env.now.aggregates }
    ensures { OnOk result (faults.new ≡ spec.with_owner env.now list.now owner.now base.now h.now faults.old) }
{
    match owner {
        None => Ok(()),
        Some(owner) => {
            push_bodiless(alloc, env, list, owner, base, h, faults)?;
            push_in_adts(alloc, env, list, owner.adt.name, base, h, faults)
        }
    }
}

#[tactic(auto, unfolding(crate::specs::Heads::with_declarator))]
fn push_declarator(
    alloc: Global,
    env: &Environment,
    list: &[AdtFunctions],
    base: &TypeTree,
    declarator: &Declarator,
    faults: &mut Items<TypeFault>,
) -> Result<(), NoMemory>
    requires { IsLaidOut env.now.aggregates }
    ensures { OnOk result (faults.new ≡ spec.with_declarator env.now list.now base.now faults.old declarator.now) }
{
    match declarator {
        Declarator::Global { .. } => Ok(()),
        Declarator::Function(h) => push_owned(alloc, env, list, &h.owner, base, h, faults),
    }
}

fn push_declarators(
    alloc: Global,
    env: &Environment,
    list: &[AdtFunctions],
    base: &TypeTree,
    declarators: &[Declarator],
    faults: &mut Items<TypeFault>,
) -> Result<(), NoMemory>
    requires { IsLaidOut env.now.aggregates }
    ensures { OnOk result (faults.new ≡ fold (spec.with_declarator env.now list.now base.now) faults.old declarators.now) }
{
    for declarator in declarators {
        push_declarator(alloc, env, list, base, declarator, faults)?;
    }
    Ok(())
}

#[tactic(auto, unfolding(crate::specs::Heads::with_item))]
fn push_item(
    alloc: Global,
    env: &Environment,
    list: &[AdtFunctions],
    item: &Item,
    faults: &mut Items<TypeFault>,
) -> Result<(), NoMemory>
    requires { IsLaidOut env.now.aggregates }
    ensures { OnOk result (faults.new ≡ spec.with_item env.now list.now faults.old item.now) }
{
    match item {
        Item::Declare {
            base,
            declarators,
            ..
        } => push_declarators(alloc, env, list, base, declarators.as_slice(), faults),
        Item::Typedef { .. }
        | Item::FunctionType { .. }
        | Item::Forward { .. }
        | Item::Aggregate { .. }
        | Item::Adt { .. }
        | Item::Enum { .. }
        | Item::Function { .. } => Ok(()),
    }
}

/// Adds the faults of all such heads.
#[tactic(auto, unfolding(crate::specs::Heads::with_heads))]
pub(crate) fn push_heads(
    alloc: Global,
    env: &Environment,
    list: &[AdtFunctions],
    items: &[Item],
    faults: &mut Items<TypeFault>,
) -> Result<(), NoMemory>
    requires { IsLaidOut env.now.aggregates }
    ensures { OnOk result (faults.new ≡ spec.with_heads env.now list.now faults.old items.now) }
{
    for item in items {
        push_item(alloc, env, list, item, faults)?;
    }
    Ok(())
}
