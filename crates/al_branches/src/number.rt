//! The numbers of the branches of functions.
ghost use Rattle.std.specs.Prelude.{◌≡◌, ◌++◌, ◌<◌, ◌*◌, map, length, take, slice_index_or, IfOk, OnOk};
ghost use Rattle.al_typed.specs.Capped.{capped};
ghost use Rattle.al_branches.specs.Numbers as spec;
ghost use Rattle.al_branches.specs.Tables as table;
ghost use Rattle.al_declare.specs.declared.function.Defined.{Defined};

use crate::count::{add, all_uses, none};
use crate::place::all_places;
use crate::table::Tables;
use al_base::{NoMemory, Place};
use al_declare::Defined;
use al_environment::{Numbered, Numbers};
use al_items::Items;
use al_tree::Item;
use std::alloc::Global;

/// A branch gets that number, where a program can have it.
fn push_numbered(numbers: &mut Numbers, number: u64, at: Place) -> Result<(), NoMemory>
    ensures { OnOk result (numbers.new ≡ numbers.old ++ spec.numbered_at number at) }
{
    if number > 4_294_967_295 {
        return Ok(());
    }
    numbers.push(Numbered {
        at,
        number: number as u32,
    })
}

/// Branches with their numbers, of which the first is `from`, and each is so far above the one before.
#[tactic(auto, using(crate::proofs::NumbersAre::numbers_are))]
fn numbered(alloc: Global, places: &[Place], from: u64, apart: u64) -> Result<Numbers, NoMemory>
    ensures { IfOk result (λ numbers. numbers ≡ spec.numbered from apart places.now) }
{
    let mut numbers = Numbers::new(alloc);
    let mut number = from;
    for at in places {
        push_numbered(&mut numbers, number, *at)?;
        number = number.saturating_add(apart);
    }
    Ok(numbers)
}

/// How many branches an item gives the program.
fn given(places: &Items<Place>, uses: usize) -> u64
    ensures { result ≡ capped (length places.now * uses) }
{
    (places.len() as u64).saturating_mul(uses as u64)
}

/// The numbers of the first branches of the items.
#[tactic(auto, using(crate::proofs::FirstsAre::firsts_are))]
fn all_firsts(
    alloc: Global,
    items: &[Item],
    defined: &[Defined],
    places: &[Items<Place>],
    uses: &[usize],
) -> Result<Items<u64>, NoMemory>
    requires places { places.now ≡ map spec.branches_of items.now }
    requires uses { uses.now ≡ table.all_uses defined.now (length items.now) }
    ensures { IfOk result (λ firsts. firsts ≡ table.all_firsts items.now defined.now (length items.now)) }
{
    let mut firsts = Items::with_capacity(alloc, items.len())?;
    let mut number = defined.len() as u64;
    for i in 0..items.len() {
        firsts.push(number)?;
        number = number.saturating_add(given(&places[i], uses[i]));
    }
    Ok(firsts)
}

/// The tables of a program.
fn tables(alloc: Global, items: &[Item], defined: &[Defined]) -> Result<Tables, NoMemory>
    ensures { IfOk result (λ tables. tables ≡ table.tables items.now defined.now) }
{
    let places = all_places(alloc, items)?;
    let uses = all_uses(alloc, defined, items.len())?;
    let firsts = all_firsts(alloc, items, defined, places.as_slice(), uses.as_slice())?;
    Ok(Tables {
        places,
        uses,
        firsts,
    })
}

/// The branches of function number `k` with their numbers, where those before it have so many functions of each item.
fn of_function(
    alloc: Global,
    items: &[Item],
    defined: &[Defined],
    tables: &Tables,
    before: &[usize],
    k: usize,
) -> Result<Numbers, NoMemory>
    requires within { k < length defined.now }
    requires tables { tables.now ≡ table.tables items.now defined.now }
    requires before { before.now ≡ table.all_uses (take k defined.now) (length items.now) }
    ensures { (d : Defined) → IfOk result (λ numbers. numbers ≡ spec.numbers_of items.now defined.now k (slice_index_or defined.now k d)) }
{
    let item = defined[k].item;
    if item >= items.len() {
        return Ok(Numbers::new(alloc));
    }
    let from = tables.firsts[item].saturating_add(before[item] as u64);
    let apart = tables.uses[item] as u64;
    numbered(alloc, tables.places[item].as_slice(), from, apart)
}

/// The par branches of each function of a program with their numbers, by the places of the branches, in text order. A branch
/// whose number is over 2^32 - 1 has none.
#[tactic(auto, unfolding(crate::specs::Numbers::branch_numbers))]
pub fn branch_numbers(
    alloc: Global,
    items: &[Item],
    defined: &[Defined],
) -> Result<Items<Numbers>, NoMemory>
    ensures { IfOk result (λ list. list ≡ spec.branch_numbers items.now defined.now) }
{
    let tables = tables(alloc, items, defined)?;
    let mut before = none(alloc, items.len())?;
    let mut list = Items::with_capacity(alloc, defined.len())?;
    for k in 0..defined.len() {
        let numbers = of_function(alloc, items, defined, &tables, before.as_slice(), k)?;
        list.push(numbers)?;
        add(&mut before, defined, k);
    }
    Ok(list)
}
