//! What rules are asked by.
ghost use Rattle.std.specs.Prelude.{◌≡◌, [], map, fold, IfOk, OnOk};
ghost use Rattle.al_declare.specs.Asking as spec;

use crate::by_name::ByName;
use al_base::NoMemory;
use al_items::Items;
use al_tree::{Constants, Item, Name, Tree, enum_values};
use std::alloc::Global;

/// What is known of a whole text.
#[derive(Drop)]
pub(crate) struct Text {
    pub(crate) constants: Constants,
    /// The adts with their parameters. Of several adts of a name the last counts.
    pub(crate) adts: ByName<Items<u32>>,
    /// The numbers of the names print and terminate, where the text has them.
    pub(crate) print: Option<usize>,
    pub(crate) terminate: Option<usize>,
}

fn numbers_of(alloc: Global, list: &[Name]) -> Result<Items<u32>, NoMemory>
    ensures { IfOk result (λ ns. ns ≡ map spec.number_of list.now) }
{
    let mut numbers = Items::with_capacity(alloc, list.len())?;
    for n in list {
        numbers.push(n.name)?;
    }
    Ok(numbers)
}

/// Adds an adt.
#[tactic(auto, unfolding(crate::specs::Asking::with_adt))]
fn add_adt(alloc: Global, adts: &mut ByName<Items<u32>>, item: &Item) -> Result<(), NoMemory>
    ensures { OnOk result (adts.new ≡ spec.with_adt adts.old item.now) }
{
    match item {
        Item::Adt {
            name,
            parameters,
            ..
        } => {
            let numbers = numbers_of(alloc, parameters.as_slice())?;
            adts.insert(name.name, numbers)
        }
        Item::Typedef { .. }
        | Item::FunctionType { .. }
        | Item::Forward { .. }
        | Item::Aggregate { .. }
        | Item::Enum { .. }
        | Item::Declare { .. }
        | Item::Function { .. } => Ok(()),
    }
}

fn adts_of(alloc: Global, items: &[Item]) -> Result<ByName<Items<u32>>, NoMemory>
    ensures { IfOk result (λ adts. adts ≡ fold spec.with_adt [] items.now) }
{
    let mut adts = ByName::new(alloc);
    for item in items {
        add_adt(alloc, &mut adts, item)?;
    }
    Ok(adts)
}

#[tactic(auto, unfolding(crate::specs::Asking::numbered))]
fn numbered(text: &[u8], list: &[Items<u8>]) -> Option<usize>
    ensures { result ≡ spec.numbered text.now list.now }
{
    list.iter().position(|name| name.as_slice() == text)
}

/// What is known of a text.
#[tactic(auto, unfolding(crate::specs::Asking::text_of))]
pub(crate) fn text_of(alloc: Global, tree: &Tree) -> Result<Text, NoMemory>
    ensures { IfOk result (λ text. text ≡ spec.text_of tree.now) }
{
    let names = tree.names.as_slice();
    Ok(Text {
        constants: enum_values(alloc, tree)?,
        adts: adts_of(alloc, tree.items.as_slice())?,
        print: numbered(b"print".as_slice(), names),
        terminate: numbered(b"terminate".as_slice(), names),
    })
}
