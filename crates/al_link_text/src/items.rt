//! What items say of names that belong to one file, and where they end.
ghost use Rattle.std.specs.Prelude.{◌≡◌, ◌≤◌, ◌<◌, length, fold, IfOk, OnOk, IfSome};
ghost use Rattle.std.specs.List.{position_from};
ghost use Rattle.al_tree.specs.Constants as constants;
ghost use Rattle.al_link_text.specs.Items as spec;

use al_base::{NoMemory, Place};
use al_lex::Token;
use al_tree::{Declarator, Head, Item, Scope, TypeNames};
use std::alloc::Global;

/// Whether what the word marks belongs to one file.
fn is_own(word: Option<Scope>) -> bool
    ensures { result ≡ spec.is_own word }
{
    match word {
        Some(Scope::Intern) | Some(Scope::Private) => true,
        Some(Scope::Extern) | None => false,
    }
}

fn add_function(names: &mut TypeNames, head: &Head) -> Result<(), NoMemory>
    ensures { OnOk result (names.new ≡ spec.with_function names.old head.now) }
{
    match head.owner {
        None => names.declare(head.name.name),
        Some(_) => Ok(()),
    }
}

fn add_declarator(names: &mut TypeNames, declarator: &Declarator) -> Result<(), NoMemory>
    ensures { OnOk result (names.new ≡ spec.with_declarator names.old declarator.now) }
{
    match declarator {
        Declarator::Global { dcl, .. } => names.declare(dcl.name.name),
        Declarator::Function(head) => add_function(names, head),
    }
}

fn add_declarators(names: &mut TypeNames, list: &[Declarator]) -> Result<(), NoMemory>
    ensures { OnOk result (names.new ≡ fold spec.with_declarator names.old list.now) }
{
    for declarator in list {
        add_declarator(names, declarator)?;
    }
    Ok(())
}

fn add_item(names: &mut TypeNames, item: &Item) -> Result<(), NoMemory>
    ensures { OnOk result (names.new ≡ spec.with_item names.old item.now) }
{
    match item {
        Item::Declare {
            scope,
            declarators,
            ..
        } if is_own(*scope) => add_declarators(names, declarators.as_slice()),
        Item::Function { scope, head, .. } if is_own(*scope) => add_function(names, head),
        _ => Ok(()),
    }
}

/// The names that belong to the file of these items, by their numbers.
pub fn own_names(alloc: Global, items: &[Item]) -> Result<TypeNames, NoMemory>
    ensures { IfOk result (λ names. names ≡ spec.own_names items.now) }
{
    let mut names = TypeNames::new(alloc);
    for item in items {
        add_item(&mut names, item)?;
    }
    Ok(names)
}

/// Whether the item declares a type: a typedef, an aggr, a union, an adt or an enum.
pub fn is_type_item(item: &Item) -> bool
    ensures { result ≡ spec.is_type_item item.now }
{
    match item {
        Item::Typedef { .. }
        | Item::FunctionType { .. }
        | Item::Forward { .. }
        | Item::Aggregate { .. }
        | Item::Adt { .. }
        | Item::Enum { .. } => true,
        Item::Declare { .. } | Item::Function { .. } => false,
    }
}

/// Where an item begins.
fn place_of(item: &Item) -> Place
    ensures { result ≡ spec.place_of item.now }
{
    match item {
        Item::Typedef { at, .. }
        | Item::FunctionType { at, .. }
        | Item::Forward { at, .. }
        | Item::Aggregate { at, .. }
        | Item::Adt { at, .. }
        | Item::Enum { at, .. }
        | Item::Declare { at, .. }
        | Item::Function { at, .. } => *at,
    }
}

#[tactic(auto, unfolding(al_tree::specs::Constants::is_before))]
fn is_before(p: Place, q: Place) -> bool
    ensures { result ≡ constants.is_before p q }
{
    p.line < q.line || (p.line == q.line && p.col < q.col)
}

/// The number of the first token from a place on.
fn first_from(tokens: &[Token], place: Place) -> Option<usize>
    ensures number { result ≡ position_from (spec.is_from place) 0 tokens.now }
    ensures within { IfSome result (λ n. n < length tokens.now) }
{
    tokens.iter().position(|t| !is_before(t.place, place))
}

/// How many of the tokens from an item on are its own, where these items follow it.
pub fn own_count(more: &[Item], tokens: &[Token]) -> usize
    ensures value { result ≡ spec.own_count more.now tokens.now }
    ensures within { result ≤ length tokens.now }
{
    match more.first() {
        None => tokens.len(),
        Some(next) => first_from(tokens, place_of(next)).unwrap_or(tokens.len()),
    }
}
