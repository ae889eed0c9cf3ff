//! The functions of the types with members of a text.
ghost use Rattle.std.specs.Prelude.{◌≡◌, ◌++◌, map, slice_get, OnOk, IfOk};
ghost use Rattle.std.specs.Option.{option_copied};
ghost use Rattle.al_rules.specs.Outcome.{Answers};
ghost use Rattle.al_typed.specs.Layout.{IsLaidOut};
ghost use Rattle.al_adt_functions.specs.Functions as spec;

use crate::body::{item_at, number_of_body};
use crate::heads::push_heads;
use crate::owned::{AdtFunctions, Adts, adts_of, function_faults};
use crate::rules::{rule_2_body, rule_11_declared};
use crate::searches::{adt_of, function_of};
use al_base::NoMemory;
use al_declare::Defined;
use al_environment::Environment;
use al_form::Forms;
use al_items::Items;
use al_member_names::OwnFunction;
use al_rules::{TypeFault, TypeStop, ask, judged};
use al_tree::{Head, Item, Owner, TypeTree};
use al_type_rules::signature;
use al_typed::Aggregate;
use std::alloc::Global;

/// Asks rule 11 of a definition of a function of that adt.
fn ask_declared(
    alloc: Global,
    env: &Environment,
    a: &AdtFunctions,
    base: &TypeTree,
    h: &Head,
    faults: &mut Items<TypeFault>,
) -> Result<(), NoMemory>
    requires { IsLaidOut env.now.aggregates }
    ensures { OnOk result (faults.new ≡ faults.old ++ spec.asked_declared env.now a.now base.now h.now) }
{
    let mut dropped = Items::new(alloc);
    let types = signature(
        alloc,
        env,
        &a.owned.here,
        h.name.at,
        base,
        h.stars,
        h.parameters.as_slice(),
        &mut dropped,
    )?;
    let is_declared = rule_11_declared(a.owned.aggregate, function_of(a, h.name.name), &types);
    ask(faults, 11, h.name.at, is_declared)
}

/// Adds the faults of a definition of a function of that adt.
#[tactic(auto, unfolding(crate::specs::Functions::faults_in_adt))]
fn push_in_adt(
    alloc: Global,
    env: &Environment,
    items: &[Item],
    defined: &[Defined],
    a: &AdtFunctions,
    k: usize,
    base: &TypeTree,
    h: &Head,
    faults: &mut Items<TypeFault>,
) -> Result<(), NoMemory>
    requires { IsLaidOut env.now.aggregates }
    ensures { OnOk result (faults.new ≡ faults.old ++ spec.faults_in_adt env.now items.now defined.now a.now k base.now h.now) }
{
    function_faults(
        alloc,
        env,
        &a.owned.here,
        base,
        h.stars,
        h.name,
        h.parameters.as_slice(),
        faults,
    )?;
    let first = number_of_body(items, defined, a.owned.name, a.owned.instance, h.name.name);
    ask(faults, 2, h.name.at, rule_2_body(first, k))?;
    ask_declared(alloc, env, a, base, h, faults)
}

fn push_with(
    alloc: Global,
    env: &Environment,
    items: &[Item],
    defined: &[Defined],
    a: Option<&AdtFunctions>,
    k: usize,
    base: &TypeTree,
    h: &Head,
    faults: &mut Items<TypeFault>,
) -> Result<(), NoMemory>
    requires { IsLaidOut env.now.aggregates }
    ensures { OnOk result (faults.new ≡ faults.old ++ spec.faults_with env.now items.now defined.now (option_copied a.entry) k base.now h.now) }
{
    match a {
        None => ask(faults, 11, h.name.at, false),
        Some(a) => push_in_adt(alloc, env, items, defined, a, k, base, h, faults),
    }
}

fn push_owned(
    alloc: Global,
    env: &Environment,
    items: &[Item],
    defined: &[Defined],
    list: &[AdtFunctions],
    owner: &Option<Owner>,
    instance: Option<usize>,
    k: usize,
    base: &TypeTree,
    h: &Head,
    faults: &mut Items<TypeFault>,
) -> Result<(), NoMemory>
    requires { IsLaidOut env.now.aggregates }
    ensures { OnOk result (faults.new ≡ faults.old ++ spec.faults_owned env.now items.now defined.now list.now owner.now instance k base.now h.now) }
{
    match owner {
        None => Ok(()),
        Some(owner) => {
            let a = adt_of(list, owner.adt.name, instance);
            push_with(alloc, env, items, defined, a, k, base, h, faults)
        }
    }
}

#[tactic(auto, unfolding(crate::specs::Functions::faults_of_item))]
fn push_item(
    alloc: Global,
    env: &Environment,
    items: &[Item],
    defined: &[Defined],
    list: &[AdtFunctions],
    instance: Option<usize>,
    k: usize,
    item: &Item,
    faults: &mut Items<TypeFault>,
) -> Result<(), NoMemory>
    requires { IsLaidOut env.now.aggregates }
    ensures { OnOk result (faults.new ≡ faults.old ++ spec.faults_of_item env.now items.now defined.now list.now instance k item.now) }
{
    match item {
        Item::Function { base, head, .. } => push_owned(
            alloc,
            env,
            items,
            defined,
            list,
            &head.owner,
            instance,
            k,
            base,
            head,
            faults,
        ),
        Item::Typedef { .. }
        | Item::FunctionType { .. }
        | Item::Forward { .. }
        | Item::Aggregate { .. }
        | Item::Adt { .. }
        | Item::Enum { .. }
        | Item::Declare { .. } => Ok(()),
    }
}

fn push_at(
    alloc: Global,
    env: &Environment,
    items: &[Item],
    defined: &[Defined],
    list: &[AdtFunctions],
    instance: Option<usize>,
    k: usize,
    item: Option<&Item>,
    faults: &mut Items<TypeFault>,
) -> Result<(), NoMemory>
    requires { IsLaidOut env.now.aggregates }
    ensures { OnOk result (faults.new ≡ faults.old ++ spec.faults_at env.now items.now defined.now list.now instance k (option_copied item.entry)) }
{
    match item {
        None => Ok(()),
        Some(item) => push_item(alloc, env, items, defined, list, instance, k, item, faults),
    }
}

/// Adds the faults of a definition.
fn push_definition(
    alloc: Global,
    env: &Environment,
    items: &[Item],
    defined: &[Defined],
    list: &[AdtFunctions],
    k: usize,
    d: Defined,
    faults: &mut Items<TypeFault>,
) -> Result<(), NoMemory>
    requires { IsLaidOut env.now.aggregates }
    ensures { OnOk result (faults.new ≡ faults.old ++ spec.faults_at env.now items.now defined.now list.now d.instance k (slice_get items.now d.item)) }
{
    let item = item_at(items, d.item);
    push_at(
        alloc, env, items, defined, list, d.instance, k, item, faults,
    )
}

#[tactic(auto, using(crate::proofs::FunctionsAre::definitions_are))]
fn push_definitions(
    alloc: Global,
    env: &Environment,
    items: &[Item],
    defined: &[Defined],
    list: &[AdtFunctions],
    faults: &mut Items<TypeFault>,
) -> Result<(), NoMemory>
    requires { IsLaidOut env.now.aggregates }
    ensures { OnOk result (faults.new ≡ faults.old ++ spec.faults_of_definitions env.now items.now defined.now list.now 0 defined.now) }
{
    for (k, d) in defined.iter().enumerate() {
        push_definition(alloc, env, items, defined, list, k, *d, faults)?;
    }
    Ok(())
}

// ---- by the numbers of the types

fn none(alloc: Global, rows: &[Aggregate]) -> Result<Items<Items<OwnFunction>>, NoMemory>
    ensures { IfOk result (λ own. own ≡ map spec.no_functions rows.now) }
{
    let mut own = Items::with_capacity(alloc, rows.len())?;
    for _row in rows {
        own.push(Items::new(alloc))?;
    }
    Ok(own)
}

fn put(own: &mut Items<Items<OwnFunction>>, a: AdtFunctions)
    ensures { own.new ≡ spec.with_functions own.old a }
{
    let AdtFunctions { owned, functions } = a;
    let at = owned.aggregate as usize;
    if at < own.len() {
        own.set(at, functions);
    }
}

#[tactic(auto, using(crate::proofs::FunctionsAre::placed_are))]
fn put_all(own: &mut Items<Items<OwnFunction>>, list: Items<AdtFunctions>)
    ensures { own.new ≡ spec.placed own.old list }
{
    let mut rest = list;
    while let Some(a) = rest.pop() {
        put(own, a);
    }
}

fn own_functions(
    alloc: Global,
    rows: &[Aggregate],
    list: Items<AdtFunctions>,
) -> Result<Items<Items<OwnFunction>>, NoMemory>
    ensures { IfOk result (λ own. own ≡ spec.own_functions rows.now list) }
{
    let mut own = none(alloc, rows)?;
    put_all(&mut own, list);
    Ok(own)
}

/// The functions that the types with members of a text have of their own, by the numbers of these types, with the numbers of
/// their bodies among the definitions.
///
/// A fault is a definition that breaks rule 2 or 11, a head without a body that breaks rule 2, or a type in an adt or in the
/// head of a function of one that breaks rule 7, 16, 18 or 20. It is found exactly where there is one.
#[tactic(auto, unfolding(crate::specs::Functions::functions))]
pub fn functions(
    alloc: Global,
    env: &Environment,
    items: &[Item],
    defined: &[Defined],
    forms: &Forms,
    numbers: &[usize],
) -> Result<Items<Items<OwnFunction>>, TypeStop>
    requires { IsLaidOut env.now.aggregates }
    ensures { Answers result (spec.functions env.now items.now defined.now forms.now numbers.now) }
{
    let Adts { list, mut faults } = adts_of(alloc, env, items, defined, forms, numbers)?;
    push_definitions(alloc, env, items, defined, list.as_slice(), &mut faults)?;
    push_heads(alloc, env, list.as_slice(), items, &mut faults)?;
    let own = own_functions(alloc, env.aggregates.as_slice(), list)?;
    judged(faults.as_slice(), own)
}
