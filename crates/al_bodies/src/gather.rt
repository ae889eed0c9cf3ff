//! What is found of the functions of a text.
ghost use Rattle.std.specs.Prelude.{◌≡◌, reverse, slice_get, IfOk};
ghost use Rattle.std.specs.Option.{option_copied};
ghost use Rattle.al_rules.specs.Outcome.{Answers};
ghost use Rattle.al_typed.specs.Layout.{IsLaidOut};
ghost use Rattle.al_bodies.specs.Gathering as spec;

use crate::found::Gathered;
use crate::list::{joined, reversed, with_one};
use al_base::NoMemory;
use al_declare::Defined;
use al_environment::{Environment, Numbers};
use al_items::Items;
use al_operands::{beside, both};
use al_rules::TypeStop;
use al_tree::{Head, Item, Stmt, Tree, TypeTree};
use al_type_function::{FunctionNumbers, TypedFunction, typed_function};
use std::alloc::Global;

/// Nothing.
fn nothing(alloc: Global) -> Gathered
    ensures { result ≡ spec.none }
{
    Gathered {
        functions: Items::new(alloc),
        branches: Items::new(alloc),
        texts: Items::new(alloc),
        types: Items::new(alloc),
    }
}

/// One function more.
fn with_function(found: Gathered, function: TypedFunction) -> Result<Gathered, NoMemory>
    ensures { IfOk result (λ g. g ≡ spec.with_function found function) }
{
    let Gathered {
        functions,
        branches,
        texts,
        types,
    } = found;
    let TypedFunction {
        function,
        branches: more_branches,
        texts: more_texts,
        types: more_types,
    } = function;
    let trees = both(
        with_one(functions, function),
        joined(branches, more_branches),
    );
    let rest = both(joined(texts, more_texts), joined(types, more_types));
    let ((functions, branches), (texts, types)) = both(trees, rest)?;
    Ok(Gathered {
        functions,
        branches,
        texts,
        types,
    })
}

/// With the function of a head, which has these numbers.
#[tactic(auto, using(al_rules::proofs::Permits::permitted))]
fn typed(
    alloc: Global,
    env: &Environment,
    names: &[Items<u8>],
    numbers: FunctionNumbers,
    branches: Numbers,
    base: &TypeTree,
    head: &Head,
    body: &Stmt,
    found: Gathered,
) -> Result<Gathered, TypeStop>
    requires { IsLaidOut env.now.aggregates }
    ensures { Answers result (spec.with_head env.now names.now numbers branches base.now head.now body.now found) }
{
    let function = typed_function(alloc, env, names, numbers, branches, base, head, body);
    let (found, function) = beside(found, function)?;
    Ok(with_function(found, function)?)
}

/// With the function that an item is.
fn with_item(
    alloc: Global,
    env: &Environment,
    names: &[Items<u8>],
    numbers: FunctionNumbers,
    branches: Numbers,
    item: Option<&Item>,
    found: Gathered,
) -> Result<Gathered, TypeStop>
    requires { IsLaidOut env.now.aggregates }
    ensures { Answers result (spec.with_item env.now names.now numbers branches (option_copied item.entry) found) }
{
    match item {
        None => Ok(found),
        Some(item) => match item {
            Item::Function {
                base,
                head,
                body,
                ..
            } => typed(
                alloc, env, names, numbers, branches, base, head, body, found,
            ),
            Item::Typedef { .. }
            | Item::FunctionType { .. }
            | Item::Forward { .. }
            | Item::Aggregate { .. }
            | Item::Adt { .. }
            | Item::Enum { .. }
            | Item::Declare { .. } => Ok(found),
        },
    }
}

/// With function number `k`.
#[tactic(auto, unfolding(crate::specs::Gathering::next))]
fn next(
    alloc: Global,
    env: &Environment,
    tree: &Tree,
    texts: usize,
    k: usize,
    d: Defined,
    branches: Numbers,
    found: Gathered,
) -> Result<Gathered, TypeStop>
    requires { IsLaidOut env.now.aggregates }
    ensures { Answers result (spec.next env.now tree.now.names tree.now.items texts k d branches found) }
{
    let numbers = FunctionNumbers {
        number: k,
        instance: d.instance,
        texts: texts.saturating_add(found.texts.len()),
    };
    let item = tree.items.get(d.item);
    with_item(
        alloc,
        env,
        tree.names.as_slice(),
        numbers,
        branches,
        item,
        found,
    )
}

/// The numbers of the branches of the next function, where those of the functions that are left stand the last first.
#[tactic(auto, using(crate::proofs::Numbers::the_last))]
fn take_last(alloc: Global, rest: &mut Items<Numbers>) -> Numbers
    ensures taken { result ≡ spec.first_of (reverse rest.old) }
    ensures left { reverse rest.new ≡ spec.rest_of (reverse rest.old) }
{
    match rest.pop() {
        None => Numbers::new(alloc),
        Some(numbers) => numbers,
    }
}

/// What is found of the functions of a text, whose branches have these numbers, where so many string constants stand before
/// those in them.
#[tactic(auto, using(crate::proofs::Gathering::gathered_is, al_rules::proofs::Permits::permitted))]
pub(crate) fn gathered(
    alloc: Global,
    env: &Environment,
    tree: &Tree,
    defined: &[Defined],
    texts: usize,
    numbers: Items<Numbers>,
) -> Result<Gathered, TypeStop>
    requires { IsLaidOut env.now.aggregates }
    ensures { Answers result (spec.gathered env.now tree.now.names tree.now.items texts 0 defined.now numbers spec.none) }
{
    let mut rest = reversed(numbers);
    let mut found = nothing(alloc);
    for (k, d) in defined.iter().enumerate() {
        let branches = take_last(alloc, &mut rest);
        found = next(alloc, env, tree, texts, k, *d, branches, found)?;
    }
    Ok(found)
}
