//! Par branches in the order of their numbers.
ghost use Rattle.std.specs.Prelude.{◌≡◌, ◌-◌, ◌++◌, nat_le, length, replicate, slice_set, if◌then◌else◌, Some, None, IfOk};
ghost use Rattle.std.specs.List.{flat_map};
ghost use Rattle.std.specs.Option.{option_to_list};
ghost use Rattle.al_bodies.specs.Placing as spec;

use crate::list::{let_go, reversed};
use al_base::NoMemory;
use al_items::Items;
use al_operands::beside;
use al_type_function::NumberedBranch;
use al_typed::Function;
use std::alloc::Global;

/// So many places at which nothing is yet.
#[tactic(auto, using(crate::proofs::Places::empty_more))]
fn empty<T: Drop>(alloc: Global, count: usize) -> Result<Items<Option<T>>, NoMemory>
    ensures { IfOk result (λ places. places ≡ replicate count None) }
{
    let mut places = Items::with_capacity(alloc, count)?;
    for _ in 0..count {
        places.push(None)?;
    }
    Ok(places)
}

/// Puts one at the place of its number, where the first place has the number `from`. Where there is no such place it is let go.
#[tactic(auto, using(crate::proofs::Places::past_end))]
fn put<T: Drop>(places: &mut Items<Option<T>>, from: usize, number: u32, item: T)
    ensures { places.new ≡ (if nat_le from number then slice_set places.old (number - from) (Some item) else places.old) }
{
    let number = number as usize;
    if from <= number && number - from < places.len() {
        places.set(number - from, Some(item));
    }
}

/// Those that are there.
#[tactic(auto, using(crate::proofs::Places::there_more))]
fn there<T: Drop>(alloc: Global, places: Items<Option<T>>) -> Result<Items<T>, NoMemory>
    ensures { IfOk result (λ list. list ≡ flat_map option_to_list places) }
{
    let mut places = places;
    let mut list = Items::with_capacity(alloc, places.len())?;
    while let Some(place) = places.pop() {
        if let Some(item) = place {
            list.push(item)?;
        }
    }
    Ok(reversed(list))
}

/// Branches at the places of their numbers.
fn by_number(
    branches: Items<NumberedBranch>,
    from: usize,
    places: Items<Option<Function>>,
) -> Items<Option<Function>>
    requires { places ≡ replicate (length branches) None }
    ensures { result ≡ spec.by_number from (length branches) branches }
{
    let mut branches = branches;
    let mut places = places;
    while let Some(branch) = branches.pop() {
        let NumberedBranch { number, function } = branch;
        put(&mut places, from, number, function);
    }
    let_go(branches);
    places
}

/// Branches in the order of their numbers, of which the first is `from`.
#[tactic(auto, unfolding(crate::specs::Placing::in_order))]
pub(crate) fn in_order(
    alloc: Global,
    from: usize,
    branches: Items<NumberedBranch>,
) -> Result<Items<Function>, NoMemory>
    ensures { IfOk result (λ list. list ≡ spec.in_order from branches) }
{
    let count = branches.len();
    let (branches, places) = beside(branches, empty(alloc, count))?;
    let places = by_number(branches, from, places);
    there(alloc, places)
}
