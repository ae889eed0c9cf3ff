//! The functions that have bodies, by their numbers.
ghost use Rattle.std.specs.Prelude.{◌≡◌, ◌++◌, OnOk, IfOk, Some};
ghost use Rattle.al_declare.specs.Functions as spec;

use al_base::NoMemory;
use al_items::Items;
use al_poly::{Instance, Instances, Names, names_of, owner_of};
use al_tree::{Item, Tree};
use std::alloc::Global;

/// A function that has a body.
#[derive(Clone, Copy, Debug, PartialEq, Eq)]
pub struct Defined {
    /// The number of its item among the text's, from 0.
    pub item: usize,
    /// For a function of an instance of an adt, the number of the instance.
    pub instance: Option<usize>,
}

#[tactic(auto, unfolding(crate::specs::Functions::is_definition))]
fn is_definition(item: &Item) -> bool
    ensures { result ≡ spec.is_definition item.now }
{
    match item {
        Item::Function { .. } => true,
        Item::Typedef { .. }
        | Item::FunctionType { .. }
        | Item::Forward { .. }
        | Item::Aggregate { .. }
        | Item::Adt { .. }
        | Item::Enum { .. }
        | Item::Declare { .. } => false,
    }
}

fn same_owner(a: Option<u32>, b: Option<u32>) -> bool
    ensures { result ≡ spec.same_owner a b }
{
    match a {
        None => b.is_none(),
        Some(a) => match b {
            None => false,
            Some(b) => a == b,
        },
    }
}

/// Whether an item is a definition that belongs to that adt with parameters, or to none.
fn belongs(names: &Names, owner: Option<u32>, item: &Item) -> bool
    ensures { result ≡ spec.belongs names.now owner item.now }
{
    is_definition(item) && same_owner(owner_of(names, item), owner)
}

fn add_if(list: &mut Items<Defined>, is_there: bool, d: Defined) -> Result<(), NoMemory>
    ensures { OnOk result (list.new ≡ list.old ++ spec.defined_if is_there d) }
{
    if !is_there {
        return Ok(());
    }
    list.push(d)
}

/// Adds the definitions that belong to that adt with parameters, or to none.
#[tactic(auto, using(crate::proofs::FunctionsAre::one_more))]
fn add_definitions(
    names: &Names,
    owner: Option<u32>,
    instance: Option<usize>,
    list: &mut Items<Defined>,
    items: &[Item],
) -> Result<(), NoMemory>
    ensures { OnOk result (list.new ≡ list.old ++ spec.definitions names.now owner instance 0 items.now) }
{
    for (item, i) in items.iter().enumerate() {
        let is_there = belongs(names, owner, i);
        add_if(list, is_there, Defined { item, instance })?;
    }
    Ok(())
}

/// Adds those of the instances.
#[tactic(auto, using(crate::proofs::FunctionsAre::one_more))]
fn add_instances(
    names: &Names,
    list: &mut Items<Defined>,
    items: &[Item],
    instances: &[Instance],
) -> Result<(), NoMemory>
    ensures { OnOk result (list.new ≡ list.old ++ spec.of_instances names.now items.now 0 instances.now) }
{
    for (number, i) in instances.iter().enumerate() {
        add_definitions(names, Some(i.adt), Some(number), list, items)?;
    }
    Ok(())
}

/// The functions of a text that have bodies. Their places in the list are their numbers: first stand those of the text in
/// the order of their definitions, then, instance by instance, those of the instances of adts.
#[tactic(auto, unfolding(crate::specs::Functions::functions))]
pub fn functions(
    alloc: Global,
    tree: &Tree,
    instances: &Instances,
) -> Result<Items<Defined>, NoMemory>
    ensures { IfOk result (λ list. list ≡ spec.functions tree.now.items instances.now.list) }
{
    let names = names_of(alloc, tree)?;
    let items = tree.items.as_slice();
    let mut list = Items::new(alloc);
    add_definitions(&names, None, None, &mut list, items)?;
    add_instances(&names, &mut list, items, instances.list.as_slice())?;
    Ok(list)
}
