//! Expressions in items.
ghost use Rattle.std.specs.Prelude.{◌≡◌, OnOk};
ghost use Rattle.al_rules.specs.Outcome.{Answers};
ghost use Rattle.al_called.specs.Expressions as expressions;
ghost use Rattle.al_called.specs.Items as spec;

use crate::expression::{expr, optional};
use crate::statement::stmt;
use al_base::NoMemory;
use al_items::Items;
use al_rules::{TypeFault, TypeStop, judged};
use al_tree::{Constant, Declarator, Initializer, Item, Tree};
use std::alloc::Global;

/// Initializers.
#[cycle(initializer)]
fn initializers(
    names: &[Items<u8>],
    faults: &mut Items<TypeFault>,
    list: &[Initializer],
) -> Result<(), NoMemory>
    ensures { OnOk result (faults.new ≡ expressions.each (spec.initializer names.now) list.now faults.old) }
{
    for i in list {
        initializer(names, faults, i)?;
    }
    Ok(())
}

/// The value that a global starts with.
#[cycle(initializer)]
#[tactic(auto, using(crate::proofs::ItemsAre::initializer_is))]
fn initializer(
    names: &[Items<u8>],
    faults: &mut Items<TypeFault>,
    i: &Initializer,
) -> Result<(), NoMemory>
    ensures { OnOk result (faults.new ≡ spec.initializer names.now i.now faults.old) }
{
    match i {
        Initializer::Value(e) => expr(names, faults, e),
        Initializer::Braces { parts, .. } => initializers(names, faults, parts.as_slice()),
    }
}

/// What one declarator at file level declares.
#[tactic(auto, unfolding(crate::specs::Items::declarator_way))]
fn declarator(
    names: &[Items<u8>],
    faults: &mut Items<TypeFault>,
    d: &Declarator,
) -> Result<(), NoMemory>
    ensures { OnOk result (faults.new ≡ spec.declarator_way names.now d.now faults.old) }
{
    match d {
        Declarator::Global {
            value: Some(value),
            ..
        } => initializer(names, faults, value),
        Declarator::Global { value: None, .. } | Declarator::Function(_) => Ok(()),
    }
}

fn declarators(
    names: &[Items<u8>],
    faults: &mut Items<TypeFault>,
    list: &[Declarator],
) -> Result<(), NoMemory>
    ensures { OnOk result (faults.new ≡ expressions.each (spec.declarator_way names.now) list.now faults.old) }
{
    for d in list {
        declarator(names, faults, d)?;
    }
    Ok(())
}

fn enum_constants(
    names: &[Items<u8>],
    faults: &mut Items<TypeFault>,
    list: &[Constant],
) -> Result<(), NoMemory>
    ensures { OnOk result (faults.new ≡ expressions.each (spec.enum_constant names.now) list.now faults.old) }
{
    for constant in list {
        optional(names, faults, &constant.value)?;
    }
    Ok(())
}

/// An item.
#[tactic(auto, unfolding(crate::specs::Items::item_way))]
fn item(names: &[Items<u8>], faults: &mut Items<TypeFault>, i: &Item) -> Result<(), NoMemory>
    ensures { OnOk result (faults.new ≡ spec.item_way names.now i.now faults.old) }
{
    match i {
        Item::Enum { constants, .. } => enum_constants(names, faults, constants.as_slice()),
        Item::Declare {
            declarators: list,
            ..
        } => declarators(names, faults, list.as_slice()),
        Item::Function { body, .. } => stmt(names, faults, body),
        Item::Typedef { .. }
        | Item::FunctionType { .. }
        | Item::Forward { .. }
        | Item::Aggregate { .. }
        | Item::Adt { .. } => Ok(()),
    }
}

fn items(names: &[Items<u8>], faults: &mut Items<TypeFault>, list: &[Item]) -> Result<(), NoMemory>
    ensures { OnOk result (faults.new ≡ expressions.each (spec.item_way names.now) list.now faults.old) }
{
    for i in list {
        item(names, faults, i)?;
    }
    Ok(())
}

/// Asks typing rule 9 of print and terminate: their names are only called.
///
/// A fault is such a name whose value is used. It is found exactly where there is one.
#[tactic(auto, unfolding(crate::specs::Items::names_are_called))]
pub fn names_are_called(alloc: Global, tree: &Tree) -> Result<(), TypeStop>
    ensures { Answers result (spec.names_are_called tree.now) }
{
    let mut faults = Items::new(alloc);
    items(tree.names.as_slice(), &mut faults, tree.items.as_slice())?;
    judged(faults.as_slice(), ())
}
