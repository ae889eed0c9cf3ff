//! The adts and instances of a text that have bodies.
ghost use Rattle.std.specs.Prelude.{◌≡◌, ◌++◌, fold, option_and_then, IfOk, OnOk};
ghost use Rattle.al_layout.specs.Types.{within as fitting};
ghost use Rattle.al_typed.specs.Layout.{IsLaidOut};
ghost use Rattle.al_adt_functions.specs.Owned as spec;

use crate::body::number_of_body;
use crate::own_adt::{here_in, instance_owned, plain_owned};
use al_base::NoMemory;
use al_build_types::instance_of;
use al_declare::Defined;
use al_environment::{Environment, Here, InstanceType, NamedFunction, Signature, plain_type};
use al_form::{Forms, InstanceForm};
use al_items::Items;
use al_member_names::{OwnFunction, aggregate_if};
use al_rules::TypeFault;
use al_tree::{AdtMember, AdtPart, Item, Name, Parameter, Scope, TypeTree};
use al_type_rules::{faults_in, member_faults, signature};
use al_typed::Passed;
use std::alloc::Global;

/// An adt, or an instance of one.
#[derive(Drop)]
pub(crate) struct Owned {
    /// The adt's name by its number.
    pub(crate) name: u32,
    /// The number of the instance.
    pub(crate) instance: Option<usize>,
    /// Its number among the types with members.
    pub(crate) aggregate: u32,
    /// What is at hand in it.
    pub(crate) here: Here,
}

/// One with the functions that it declares.
#[derive(Drop)]
pub(crate) struct AdtFunctions {
    pub(crate) owned: Owned,
    pub(crate) functions: Items<OwnFunction>,
}

/// The functions of one, with the faults in it.
#[derive(Drop)]
pub(crate) struct Body {
    functions: Items<OwnFunction>,
    faults: Items<TypeFault>,
}

/// All of them, with the faults in them.
#[derive(Drop)]
pub(crate) struct Adts {
    pub(crate) list: Items<AdtFunctions>,
    pub(crate) faults: Items<TypeFault>,
}

// ---- a function

fn is_intern(scope: Option<Scope>) -> bool
    ensures { result ≡ spec.is_intern scope }
{
    match scope {
        None => false,
        Some(scope) => match scope {
            Scope::Intern => true,
            Scope::Extern | Scope::Private => false,
        },
    }
}

fn interns_of(alloc: Global, aggregate: u32, is_intern: bool) -> Result<Items<u32>, NoMemory>
    ensures { IfOk result (λ is. is ≡ spec.interns_of aggregate is_intern) }
{
    let mut interns = Items::new(alloc);
    if is_intern {
        interns.push(aggregate)?;
    }
    Ok(interns)
}

fn passed_of(list: &[Parameter]) -> Passed
    ensures { result ≡ spec.passed_of list.now }
{
    match list.split_first() {
        None => Passed::Nothing,
        Some((first, _)) => match first {
            Parameter::Plain { .. } => Passed::Nothing,
            Parameter::OwnPointer { .. } => Passed::Address,
            Parameter::OwnValue { .. } => Passed::Value,
        },
    }
}

fn named_parameters(list: &[Parameter]) -> &[Parameter]
    ensures { result.now ≡ spec.named_parameters list.now }
{
    match list.split_first() {
        None => list,
        Some((first, rest)) => match first {
            Parameter::Plain { .. } => list,
            Parameter::OwnPointer { .. } | Parameter::OwnValue { .. } => rest,
        },
    }
}

fn within(number: Option<usize>) -> Option<u32>
    ensures { result ≡ option_and_then fitting number }
{
    match number {
        None => None,
        Some(n) => {
            if n <= 4_294_967_295 {
                Some(n as u32)
            } else {
                None
            }
        }
    }
}

fn numbered(number: Option<usize>, s: Signature) -> Signature
    ensures { result ≡ spec.numbered number s }
{
    let Signature {
        number: _,
        returns,
        parameters,
    } = s;
    Signature {
        number: within(number),
        returns,
        parameters,
    }
}

/// The types of a function that an adt declares, without the object that it gets, with the number of its body.
fn own_signature(
    alloc: Global,
    env: &Environment,
    items: &[Item],
    defined: &[Defined],
    o: &Owned,
    base: &TypeTree,
    stars: u32,
    name: Name,
    list: &[Parameter],
) -> Result<Signature, NoMemory>
    requires { IsLaidOut env.now.aggregates }
    ensures { IfOk result (λ s. s ≡ spec.own_signature env.now items.now defined.now o.now base.now stars name list.now) }
{
    let mut dropped = Items::new(alloc);
    let types = signature(
        alloc,
        env,
        &o.here,
        name.at,
        base,
        stars,
        named_parameters(list),
        &mut dropped,
    )?;
    let number = number_of_body(items, defined, o.name, o.instance, name.name);
    Ok(numbered(number, types))
}

#[tactic(auto, unfolding(crate::specs::Owned::own_function))]
fn own_function(
    alloc: Global,
    env: &Environment,
    items: &[Item],
    defined: &[Defined],
    o: &Owned,
    scope: Option<Scope>,
    base: &TypeTree,
    stars: u32,
    name: Name,
    list: &[Parameter],
) -> Result<OwnFunction, NoMemory>
    requires { IsLaidOut env.now.aggregates }
    ensures { IfOk result (λ f. f ≡ spec.own_function env.now items.now defined.now o.now scope base.now stars name list.now) }
{
    let interns = interns_of(alloc, o.aggregate, is_intern(scope))?;
    let signature = own_signature(alloc, env, items, defined, o, base, stars, name, list)?;
    let function = NamedFunction {
        name: name.name,
        path: Items::new(alloc),
        interns,
        passed: passed_of(list),
        signature,
    };
    Ok(OwnFunction {
        at: name.at,
        function,
    })
}

/// Adds the faults of the types of a function.
pub(crate) fn function_faults(
    alloc: Global,
    env: &Environment,
    here: &Here,
    base: &TypeTree,
    stars: u32,
    name: Name,
    list: &[Parameter],
    faults: &mut Items<TypeFault>,
) -> Result<(), NoMemory>
    requires { IsLaidOut env.now.aggregates }
    ensures { OnOk result (faults.new ≡ faults.old ++ spec.function_faults env.now here.now base.now stars name list.now) }
{
    faults_in(alloc, env, here, base, faults)?;
    let _types = signature(alloc, env, here, name.at, base, stars, list, faults)?;
    Ok(())
}

// ---- a body

fn push_function(
    alloc: Global,
    env: &Environment,
    items: &[Item],
    defined: &[Defined],
    o: &Owned,
    scope: Option<Scope>,
    w: &mut Body,
    base: &TypeTree,
    stars: u32,
    name: Name,
    list: &[Parameter],
) -> Result<(), NoMemory>
    requires { IsLaidOut env.now.aggregates }
    ensures { OnOk result (w.new ≡ spec.with_function env.now items.now defined.now o.now scope w.old base.now stars name list.now) }
{
    function_faults(alloc, env, &o.here, base, stars, name, list, &mut w.faults)?;
    let function = own_function(
        alloc, env, items, defined, o, scope, base, stars, name, list,
    )?;
    w.functions.push(function)
}

#[tactic(auto, unfolding(crate::specs::Owned::with_part))]
fn push_part(
    alloc: Global,
    env: &Environment,
    items: &[Item],
    defined: &[Defined],
    o: &Owned,
    scope: Option<Scope>,
    w: &mut Body,
    part: &AdtPart,
) -> Result<(), NoMemory>
    requires { IsLaidOut env.now.aggregates }
    ensures { OnOk result (w.new ≡ spec.with_part env.now items.now defined.now o.now scope w.old part.now) }
{
    match part {
        AdtPart::Data(m) => member_faults(alloc, env, &o.here, m, &mut w.faults),
        AdtPart::Function {
            base,
            stars,
            name,
            parameters,
        } => push_function(
            alloc,
            env,
            items,
            defined,
            o,
            scope,
            w,
            base,
            *stars,
            *name,
            parameters.as_slice(),
        ),
    }
}

fn body_of(
    alloc: Global,
    env: &Environment,
    items: &[Item],
    defined: &[Defined],
    o: &Owned,
    members: &[AdtMember],
) -> Result<Body, NoMemory>
    requires { IsLaidOut env.now.aggregates }
    ensures { IfOk result (λ b. b ≡ fold (spec.with_member env.now items.now defined.now o.now) spec.begun members.now) }
{
    let mut w = Body {
        functions: Items::new(alloc),
        faults: Items::new(alloc),
    };
    for m in members {
        push_part(alloc, env, items, defined, o, m.scope, &mut w, &m.part)?;
    }
    Ok(w)
}

// ---- all of them

fn close(w: &mut Adts, owned: Owned, b: Body) -> Result<(), NoMemory>
    ensures { OnOk result (w.new ≡ spec.closed owned w.old b) }
{
    let Body { functions, faults } = b;
    w.faults.append(faults)?;
    w.list.push(AdtFunctions { owned, functions })
}

#[tactic(auto, unfolding(crate::specs::Owned::with_owned))]
fn push_owned(
    alloc: Global,
    env: &Environment,
    items: &[Item],
    defined: &[Defined],
    o: Owned,
    w: &mut Adts,
    members: &[AdtMember],
) -> Result<(), NoMemory>
    requires { IsLaidOut env.now.aggregates }
    ensures { OnOk result (w.new ≡ spec.with_owned env.now items.now defined.now o w.old members.now) }
{
    let b = body_of(alloc, env, items, defined, &o, members)?;
    close(w, o, b)
}

/// The number that an adt without parameters has as a type with members.
fn aggregate_named(alloc: Global, env: &Environment, name: u32) -> Result<Option<u32>, NoMemory>
    ensures { IfOk result (λ n. n ≡ spec.aggregate_named env.now name) }
{
    let here = here_in(alloc, None);
    let ty = plain_type(alloc, env, &here, name)?;
    Ok(aggregate_if(&ty))
}

fn push_plain(
    alloc: Global,
    env: &Environment,
    items: &[Item],
    defined: &[Defined],
    name: u32,
    aggregate: Option<u32>,
    w: &mut Adts,
    members: &[AdtMember],
) -> Result<(), NoMemory>
    requires { IsLaidOut env.now.aggregates }
    ensures { OnOk result (w.new ≡ spec.with_plain env.now items.now defined.now name aggregate w.old members.now) }
{
    match aggregate {
        None => Ok(()),
        Some(aggregate) => {
            let o = plain_owned(alloc, name, aggregate);
            push_owned(alloc, env, items, defined, o, w, members)
        }
    }
}

fn push_closed(
    alloc: Global,
    env: &Environment,
    items: &[Item],
    defined: &[Defined],
    name: u32,
    parameters: &[Name],
    w: &mut Adts,
    members: &[AdtMember],
) -> Result<(), NoMemory>
    requires { IsLaidOut env.now.aggregates }
    ensures { OnOk result (w.new ≡ spec.with_closed env.now items.now defined.now name parameters.now w.old members.now) }
{
    match parameters.split_first() {
        Some(_) => Ok(()),
        None => {
            let aggregate = aggregate_named(alloc, env, name)?;
            push_plain(alloc, env, items, defined, name, aggregate, w, members)
        }
    }
}

/// Adds an adt without parameters, if the item is one.
#[tactic(auto, unfolding(crate::specs::Owned::with_item))]
fn push_item(
    alloc: Global,
    env: &Environment,
    items: &[Item],
    defined: &[Defined],
    w: &mut Adts,
    item: &Item,
) -> Result<(), NoMemory>
    requires { IsLaidOut env.now.aggregates }
    ensures { OnOk result (w.new ≡ spec.with_item env.now items.now defined.now w.old item.now) }
{
    match item {
        Item::Adt {
            name,
            parameters,
            members,
            ..
        } => push_closed(
            alloc,
            env,
            items,
            defined,
            name.name,
            parameters.as_slice(),
            w,
            members.as_slice(),
        ),
        Item::Typedef { .. }
        | Item::FunctionType { .. }
        | Item::Forward { .. }
        | Item::Aggregate { .. }
        | Item::Enum { .. }
        | Item::Declare { .. }
        | Item::Function { .. } => Ok(()),
    }
}

fn push_items(
    alloc: Global,
    env: &Environment,
    items: &[Item],
    defined: &[Defined],
    w: &mut Adts,
) -> Result<(), NoMemory>
    requires { IsLaidOut env.now.aggregates }
    ensures { OnOk result (w.new ≡ fold (spec.with_item env.now items.now defined.now) w.old items.now) }
{
    for item in items {
        push_item(alloc, env, items, defined, w, item)?;
    }
    Ok(())
}

fn push_open(
    alloc: Global,
    env: &Environment,
    items: &[Item],
    defined: &[Defined],
    k: usize,
    i: &InstanceType,
    name: u32,
    parameters: &[Name],
    w: &mut Adts,
    members: &[AdtMember],
) -> Result<(), NoMemory>
    requires { IsLaidOut env.now.aggregates }
    ensures { OnOk result (w.new ≡ spec.with_open env.now items.now defined.now k i.now name parameters.now w.old members.now) }
{
    if name != i.adt {
        return Ok(());
    }
    let o = instance_owned(alloc, k, i, parameters)?;
    push_owned(alloc, env, items, defined, o, w, members)
}

/// Adds the body of an instance, if the item has it.
#[tactic(auto, unfolding(crate::specs::Owned::with_instance_item))]
fn push_instance_item(
    alloc: Global,
    env: &Environment,
    items: &[Item],
    defined: &[Defined],
    k: usize,
    i: &InstanceType,
    w: &mut Adts,
    item: &Item,
) -> Result<(), NoMemory>
    requires { IsLaidOut env.now.aggregates }
    ensures { OnOk result (w.new ≡ spec.with_instance_item env.now items.now defined.now k i.now w.old item.now) }
{
    match item {
        Item::Adt {
            name,
            parameters,
            members,
            ..
        } => push_open(
            alloc,
            env,
            items,
            defined,
            k,
            i,
            name.name,
            parameters.as_slice(),
            w,
            members.as_slice(),
        ),
        Item::Typedef { .. }
        | Item::FunctionType { .. }
        | Item::Forward { .. }
        | Item::Aggregate { .. }
        | Item::Enum { .. }
        | Item::Declare { .. }
        | Item::Function { .. } => Ok(()),
    }
}

fn push_instance_items(
    alloc: Global,
    env: &Environment,
    items: &[Item],
    defined: &[Defined],
    k: usize,
    i: &InstanceType,
    w: &mut Adts,
) -> Result<(), NoMemory>
    requires { IsLaidOut env.now.aggregates }
    ensures { OnOk result (w.new ≡ fold (spec.with_instance_item env.now items.now defined.now k i.now) w.old items.now) }
{
    for item in items {
        push_instance_item(alloc, env, items, defined, k, i, w, item)?;
    }
    Ok(())
}

fn push_instance(
    alloc: Global,
    env: &Environment,
    items: &[Item],
    defined: &[Defined],
    k: usize,
    i: &Option<InstanceType>,
    w: &mut Adts,
) -> Result<(), NoMemory>
    requires { IsLaidOut env.now.aggregates }
    ensures { OnOk result (w.new ≡ spec.with_instance env.now items.now defined.now k w.old i.now) }
{
    match i {
        None => Ok(()),
        Some(i) => push_instance_items(alloc, env, items, defined, k, i, w),
    }
}

#[tactic(auto, using(crate::proofs::FunctionsAre::instances_are))]
fn push_instances(
    alloc: Global,
    env: &Environment,
    items: &[Item],
    defined: &[Defined],
    forms: &Forms,
    numbers: &[usize],
    list: &[InstanceForm],
    w: &mut Adts,
) -> Result<(), NoMemory>
    requires { IsLaidOut env.now.aggregates }
    ensures { OnOk result (w.new ≡ spec.with_instances env.now items.now defined.now forms.now numbers.now 0 list.now w.old) }
{
    for (k, i) in list.iter().enumerate() {
        let i = instance_of(alloc, forms, numbers, i)?;
        push_instance(alloc, env, items, defined, k, &i, w)?;
    }
    Ok(())
}

/// The adts and instances of a text that have bodies, each with the functions that it declares.
#[tactic(auto, unfolding(crate::specs::Owned::adts))]
pub(crate) fn adts_of(
    alloc: Global,
    env: &Environment,
    items: &[Item],
    defined: &[Defined],
    forms: &Forms,
    numbers: &[usize],
) -> Result<Adts, NoMemory>
    requires { IsLaidOut env.now.aggregates }
    ensures { IfOk result (λ w. w ≡ spec.adts env.now items.now defined.now forms.now numbers.now) }
{
    let mut w = Adts {
        list: Items::new(alloc),
        faults: Items::new(alloc),
    };
    push_items(alloc, env, items, defined, &mut w)?;
    push_instances(
        alloc,
        env,
        items,
        defined,
        forms,
        numbers,
        forms.instances.as_slice(),
        &mut w,
    )?;
    Ok(w)
}
