//! What items declare.
ghost use Rattle.std.specs.Prelude.{◌≡◌, fold, OnOk, IfOk};
ghost use Rattle.std.specs.Option.{option_copied};
ghost use Rattle.al_rules.specs.Outcome.{Answers};
ghost use Rattle.al_typed.specs.Layout.{IsLaidOut};
ghost use Rattle.al_globals.specs.Globals as spec;

use crate::found::{
    Found, function_in, global_in, numbered, push_global_if, push_signature_if, rule_of,
};
use crate::rules::rule_4_main;
use al_base::{NoMemory, Place};
use al_environment::{Environment, Here, Numbers, Signature, written_type};
use al_items::Items;
use al_rules::{TypeStop, ask, judged};
use al_tree::{Dcl, Declarator, Head, Item, Member, Name, Parameter, Scope, Tree, TypeTree};
use al_type_rules::{faults_in, members_faults, signature, typedef_faults, variable_type};
use al_typed::Ty;
use std::alloc::Global;

/// Where no function is at hand.
fn outside(alloc: Global) -> Here
    ensures { result ≡ spec.outside }
{
    Here {
        own: None,
        locals: Items::new(alloc),
        around: Items::new(alloc),
        texts: Numbers::new(alloc),
        iterators: Numbers::new(alloc),
    }
}

fn is_private_word(scope: Option<Scope>) -> bool
    ensures { result ≡ spec.is_private_word scope }
{
    match scope {
        None => false,
        Some(scope) => match scope {
            Scope::Private => true,
            Scope::Intern | Scope::Extern => false,
        },
    }
}

#[tactic(auto, unfolding(crate::specs::Globals::with_dcl))]
fn push_dcl(
    alloc: Global,
    env: &Environment,
    is_private: bool,
    base: &Option<Ty>,
    w: &mut Found,
    dcl: &Dcl,
    has_value: bool,
) -> Result<(), NoMemory>
    requires { IsLaidOut env.now.aggregates }
    ensures { OnOk result (w.new ≡ spec.with_dcl env.now is_private base.now w.old dcl.now has_value) }
{
    let ty = variable_type(alloc, env, base, dcl, &mut w.faults)?;
    let at = dcl.name.at;
    let number = global_in(env.scopes.declaration(at));
    push_global_if(alloc, w, at, number, ty, is_private, has_value)
}

/// Adds a function outside of adts.
#[tactic(auto, unfolding(crate::specs::Globals::with_plain_head))]
fn push_plain_head(
    alloc: Global,
    env: &Environment,
    here: &Here,
    ns: &[Option<u32>],
    has_body: bool,
    base: &TypeTree,
    w: &mut Found,
    h: &Head,
) -> Result<(), NoMemory>
    requires { IsLaidOut env.now.aggregates }
    ensures { OnOk result (w.new ≡ spec.with_plain_head env.now here.now ns.now has_body base.now w.old h.now) }
{
    let at = h.name.at;
    faults_in(alloc, env, here, base, &mut w.faults)?;
    let list = h.parameters.as_slice();
    let types = signature(alloc, env, here, at, base, h.stars, list, &mut w.faults)?;
    let types = numbered(ns, h.name.name, types);
    let number = function_in(env.scopes.declaration(at));
    push_signature_if(alloc, w, at, rule_of(has_body), number, types)
}

fn push_head(
    alloc: Global,
    env: &Environment,
    here: &Here,
    ns: &[Option<u32>],
    has_body: bool,
    base: &TypeTree,
    w: &mut Found,
    h: &Head,
) -> Result<(), NoMemory>
    requires { IsLaidOut env.now.aggregates }
    ensures { OnOk result (w.new ≡ spec.with_head env.now here.now ns.now has_body base.now w.old h.now) }
{
    match &h.owner {
        None => push_plain_head(alloc, env, here, ns, has_body, base, w, h),
        Some(_) => Ok(()),
    }
}

fn push_base_dcl(
    alloc: Global,
    env: &Environment,
    here: &Here,
    is_private: bool,
    base: &TypeTree,
    w: &mut Found,
    dcl: &Dcl,
    has_value: bool,
) -> Result<(), NoMemory>
    requires { IsLaidOut env.now.aggregates }
    ensures { OnOk result (w.new ≡ spec.with_base_dcl env.now here.now is_private base.now w.old dcl.now has_value) }
{
    faults_in(alloc, env, here, base, &mut w.faults)?;
    let ty = written_type(alloc, env, here, base)?;
    push_dcl(alloc, env, is_private, &ty, w, dcl, has_value)
}

#[tactic(auto, unfolding(crate::specs::Globals::with_declarator))]
fn push_declarator(
    alloc: Global,
    env: &Environment,
    here: &Here,
    ns: &[Option<u32>],
    is_private: bool,
    base: &TypeTree,
    w: &mut Found,
    d: &Declarator,
) -> Result<(), NoMemory>
    requires { IsLaidOut env.now.aggregates }
    ensures { OnOk result (w.new ≡ spec.with_declarator env.now here.now ns.now is_private base.now w.old d.now) }
{
    match d {
        Declarator::Global { dcl, value } => {
            push_base_dcl(alloc, env, here, is_private, base, w, dcl, value.is_some())
        }
        Declarator::Function(h) => push_head(alloc, env, here, ns, false, base, w, h),
    }
}

fn push_declarators(
    alloc: Global,
    env: &Environment,
    here: &Here,
    ns: &[Option<u32>],
    is_private: bool,
    base: &TypeTree,
    w: &mut Found,
    list: &[Declarator],
) -> Result<(), NoMemory>
    requires { IsLaidOut env.now.aggregates }
    ensures { OnOk result (w.new ≡ fold (spec.with_declarator env.now here.now ns.now is_private base.now) w.old list.now) }
{
    for d in list {
        push_declarator(alloc, env, here, ns, is_private, base, w, d)?;
    }
    Ok(())
}

fn push_type(
    alloc: Global,
    env: &Environment,
    here: &Here,
    w: &mut Found,
    t: &TypeTree,
) -> Result<(), NoMemory>
    requires { IsLaidOut env.now.aggregates }
    ensures { OnOk result (w.new ≡ spec.with_type env.now here.now w.old t.now) }
{
    faults_in(alloc, env, here, t, &mut w.faults)
}

fn push_typedef(
    alloc: Global,
    env: &Environment,
    here: &Here,
    w: &mut Found,
    base: &TypeTree,
    dcl: &Dcl,
) -> Result<(), NoMemory>
    requires { IsLaidOut env.now.aggregates }
    ensures { OnOk result (w.new ≡ spec.with_typedef env.now here.now w.old base.now dcl.now) }
{
    push_type(alloc, env, here, w, base)?;
    let ty = written_type(alloc, env, here, base)?;
    typedef_faults(alloc, env, &ty, dcl, &mut w.faults)
}

fn push_function_type(
    alloc: Global,
    env: &Environment,
    here: &Here,
    w: &mut Found,
    at: Place,
    base: &TypeTree,
    stars: u32,
    list: &[Parameter],
) -> Result<(), NoMemory>
    requires { IsLaidOut env.now.aggregates }
    ensures { OnOk result (w.new ≡ spec.with_function_type env.now here.now w.old at base.now stars list.now) }
{
    push_type(alloc, env, here, w, base)?;
    let _types = signature(alloc, env, here, at, base, stars, list, &mut w.faults)?;
    Ok(())
}

fn push_members(
    alloc: Global,
    env: &Environment,
    here: &Here,
    w: &mut Found,
    members: &[Member],
) -> Result<(), NoMemory>
    requires { IsLaidOut env.now.aggregates }
    ensures { OnOk result (w.new ≡ spec.with_members env.now here.now w.old members.now) }
{
    members_faults(alloc, env, here, members, &mut w.faults)
}

fn push_declare(
    alloc: Global,
    env: &Environment,
    here: &Here,
    ns: &[Option<u32>],
    scope: Option<Scope>,
    base: &TypeTree,
    w: &mut Found,
    list: &[Declarator],
) -> Result<(), NoMemory>
    requires { IsLaidOut env.now.aggregates }
    ensures { OnOk result (w.new ≡ spec.with_declare env.now here.now ns.now scope base.now w.old list.now) }
{
    push_declarators(alloc, env, here, ns, is_private_word(scope), base, w, list)
}

/// Adds what an item declares.
#[tactic(auto, unfolding(crate::specs::Globals::with_item))]
fn push_item(
    alloc: Global,
    env: &Environment,
    here: &Here,
    ns: &[Option<u32>],
    w: &mut Found,
    item: &Item,
) -> Result<(), NoMemory>
    requires { IsLaidOut env.now.aggregates }
    ensures { OnOk result (w.new ≡ spec.with_item env.now here.now ns.now w.old item.now) }
{
    match item {
        Item::Typedef { base, dcl, .. } => push_typedef(alloc, env, here, w, base, dcl),
        Item::FunctionType {
            at,
            base,
            stars,
            parameters,
            ..
        } => push_function_type(
            alloc,
            env,
            here,
            w,
            *at,
            base,
            *stars,
            parameters.as_slice(),
        ),
        Item::Aggregate { members, .. } => push_members(alloc, env, here, w, members.as_slice()),
        Item::Declare {
            scope,
            base,
            declarators,
            ..
        } => push_declare(
            alloc,
            env,
            here,
            ns,
            *scope,
            base,
            w,
            declarators.as_slice(),
        ),
        Item::Function { base, head, .. } => push_head(alloc, env, here, ns, true, base, w, head),
        Item::Forward { .. } | Item::Adt { .. } | Item::Enum { .. } => Ok(()),
    }
}

fn push_items(
    alloc: Global,
    env: &Environment,
    here: &Here,
    ns: &[Option<u32>],
    w: &mut Found,
    items: &[Item],
) -> Result<(), NoMemory>
    requires { IsLaidOut env.now.aggregates }
    ensures { OnOk result (w.new ≡ fold (spec.with_item env.now here.now ns.now) w.old items.now) }
{
    for item in items {
        push_item(alloc, env, here, ns, w, item)?;
    }
    Ok(())
}

// ---- a text

fn is_name(name: Option<usize>, n: &Name) -> bool
    ensures { result ≡ spec.is_name name n.now }
{
    match name {
        None => false,
        Some(name) => n.name as usize == name,
    }
}

#[tactic(auto, unfolding(crate::specs::Globals::numbered_name))]
fn numbered_name(text: &[u8], names: &[Items<u8>]) -> Option<usize>
    ensures { result ≡ spec.numbered_name text.now names.now }
{
    names.iter().position(|name| name.as_slice() == text)
}

/// The number of main among the functions outside of adts of a text: by the numbers of `Declaration::Function`.
#[tactic(auto, unfolding(crate::specs::Globals::main_of))]
pub fn main_of(names: &[Items<u8>], functions: &[Name]) -> Option<usize>
    ensures { result ≡ spec.main_of names.now functions.now }
{
    let name = numbered_name(b"main".as_slice(), names);
    functions.iter().position(|n| is_name(name, n))
}

fn function_at(functions: &[Signature], n: Option<usize>) -> Option<&Signature>
    ensures { option_copied result ≡ spec.function_at functions.now n }
{
    match n {
        None => None,
        Some(n) => functions.get(n),
    }
}

fn ask_main(tree: &Tree, env: &Environment, w: &mut Found) -> Result<(), NoMemory>
    ensures { OnOk result (w.new ≡ spec.with_faults w.old (spec.asked_main tree.now env.now w.old)) }
{
    let n = main_of(tree.names.as_slice(), env.scopes.functions.as_slice());
    let is_main = rule_4_main(function_at(w.functions.as_slice(), n));
    ask(&mut w.faults, 4, Place { line: 1, col: 1 }, is_main)
}

fn close(alloc: Global, w: Found) -> Result<Found, TypeStop>
    ensures { Answers result (spec.judged w) }
{
    let Found {
        globals,
        values,
        functions,
        faults,
    } = w;
    let found = Found {
        globals,
        values,
        functions,
        faults: Items::new(alloc),
    };
    judged(faults.as_slice(), found)
}

/// The globals and the functions outside of adts of a text, by their numbers, where the bodies of functions have these numbers
/// by the functions' names.
///
/// A fault is a declaration that breaks rule 2, 6 or 19, the text without a main of the types that it has by rule 4, or a type
/// that breaks rule 7, 16, 18 or 20, outside of adts and of the bodies of functions. It is found exactly where there is one.
#[tactic(auto, unfolding(crate::specs::Globals::globals))]
pub fn globals(
    alloc: Global,
    env: &Environment,
    tree: &Tree,
    ns: &[Option<u32>],
) -> Result<Found, TypeStop>
    requires { IsLaidOut env.now.aggregates }
    ensures { Answers result (spec.globals env.now tree.now ns.now) }
{
    let mut w = Found {
        globals: Items::new(alloc),
        values: Items::new(alloc),
        functions: Items::new(alloc),
        faults: Items::new(alloc),
    };
    let here = outside(alloc);
    push_items(alloc, env, &here, ns, &mut w, tree.items.as_slice())?;
    ask_main(tree, env, &mut w)?;
    close(alloc, w)
}
