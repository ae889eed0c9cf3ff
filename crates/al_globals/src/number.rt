//! The numbers of the bodies of functions outside of adts.
ghost use Rattle.std.specs.Prelude.{◌≡◌, map, slice_get, IfOk};
ghost use Rattle.al_layout.specs.Types.{within as fitting};
ghost use Rattle.al_globals.specs.Numbers as spec;

use al_base::NoMemory;
use al_declare::Defined;
use al_items::Items;
use al_tree::{Item, Owner};
use std::alloc::Global;

fn name_if(owner: &Option<Owner>, name: u32) -> Option<u32>
    ensures { result ≡ spec.name_if owner.now name }
{
    match owner {
        None => Some(name),
        Some(_) => None,
    }
}

/// The name of the function outside of adts that an item defines.
#[tactic(auto, unfolding(crate::specs::Numbers::defined_name))]
fn defined_name(item: &Item) -> Option<u32>
    ensures { result ≡ spec.defined_name item.now }
{
    match item {
        Item::Function { head, .. } => name_if(&head.owner, head.name.name),
        Item::Typedef { .. }
        | Item::FunctionType { .. }
        | Item::Forward { .. }
        | Item::Aggregate { .. }
        | Item::Adt { .. }
        | Item::Enum { .. }
        | Item::Declare { .. } => None,
    }
}

fn name_at(items: &[Item], d: Defined) -> Option<u32>
    ensures { result ≡ spec.name_at (slice_get items.now d.item) }
{
    match items.get(d.item) {
        None => None,
        Some(item) => defined_name(item),
    }
}

fn within(n: usize) -> Option<u32>
    ensures { result ≡ fitting n }
{
    if n <= 4_294_967_295 {
        Some(n as u32)
    } else {
        None
    }
}

fn note(numbers: &mut Items<Option<u32>>, name: Option<u32>, k: usize)
    ensures { numbers.new ≡ spec.with_name numbers.old name k }
{
    if let Some(name) = name {
        let at = name as usize;
        if at < numbers.len() {
            numbers.set(at, within(k));
        }
    }
}

#[tactic(auto, using(crate::proofs::NumbersAre::numbers_are))]
fn note_all(numbers: &mut Items<Option<u32>>, items: &[Item], defined: &[Defined])
    ensures { numbers.new ≡ spec.with_definitions items.now 0 defined.now numbers.old }
{
    for (k, d) in defined.iter().enumerate() {
        note(numbers, name_at(items, *d), k);
    }
}

fn none(alloc: Global, names: &[Items<u8>]) -> Result<Items<Option<u32>>, NoMemory>
    ensures { IfOk result (λ ns. ns ≡ map spec.no_number names.now) }
{
    let mut numbers = Items::with_capacity(alloc, names.len())?;
    for _name in names {
        numbers.push(None)?;
    }
    Ok(numbers)
}

/// The numbers of the bodies of functions outside of adts, by the names of the functions.
#[tactic(auto, unfolding(crate::specs::Numbers::numbers))]
pub fn numbers(
    alloc: Global,
    names: &[Items<u8>],
    items: &[Item],
    defined: &[Defined],
) -> Result<Items<Option<u32>>, NoMemory>
    ensures { IfOk result (λ ns. ns ≡ spec.numbers names.now items.now defined.now) }
{
    let mut numbers = none(alloc, names)?;
    note_all(&mut numbers, items, defined);
    Ok(numbers)
}

/// The number of the body of the function of that name.
pub(crate) fn number_of(numbers: &[Option<u32>], name: u32) -> Option<u32>
    ensures { result ≡ spec.number_of numbers.now name }
{
    match numbers.get(name as usize) {
        None => None,
        Some(number) => *number,
    }
}
