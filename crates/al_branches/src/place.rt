//! Where the branches in items stand.
ghost use Rattle.std.specs.Prelude.{◌≡◌, map, IfOk};
ghost use Rattle.al_branches.specs.Numbers as spec;

use crate::statement::stmt;
use al_base::{NoMemory, Place};
use al_items::Items;
use al_tree::Item;
use std::alloc::Global;

/// The places of the branches in an item, in text order.
#[tactic(auto, unfolding(crate::specs::Numbers::branches_of))]
fn places_in(alloc: Global, item: &Item) -> Result<Items<Place>, NoMemory>
    ensures { IfOk result (λ places. places ≡ spec.branches_of item.now) }
{
    let mut places = Items::new(alloc);
    match item {
        Item::Function { body, .. } => stmt(body, &mut places)?,
        Item::Typedef { .. }
        | Item::FunctionType { .. }
        | Item::Forward { .. }
        | Item::Aggregate { .. }
        | Item::Adt { .. }
        | Item::Enum { .. }
        | Item::Declare { .. } => (),
    }
    Ok(places)
}

/// Those in each item.
pub(crate) fn all_places(alloc: Global, items: &[Item]) -> Result<Items<Items<Place>>, NoMemory>
    ensures { IfOk result (λ list. list ≡ map spec.branches_of items.now) }
{
    let mut list = Items::with_capacity(alloc, items.len())?;
    for item in items {
        let places = places_in(alloc, item)?;
        list.push(places)?;
    }
    Ok(list)
}
