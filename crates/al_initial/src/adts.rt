//! Which aggregates are adts.
ghost use Rattle.std.specs.Prelude.{◌≡◌, true, map, fold, slice_set, IfOk};
ghost use Rattle.std.specs.Option.{option_copied};
ghost use Rattle.al_environment.specs.Lookups.{outer_type as type_outside};
ghost use Rattle.al_typed.specs.Layout.{number_at};
ghost use Rattle.al_typed.specs.declared.ty.Ty.{out-Ty};
ghost use Rattle.al_initial.specs.Adts as spec;

use al_base::NoMemory;
use al_environment::{Environment, InstanceType};
use al_items::Items;
use al_tree::Item;
use al_typed::{Aggregate, Ty};
use std::alloc::Global;

/// What a type's name stands for outside of adts with parameters.
fn outer_type(env: &Environment, name: u32) -> Option<&Ty>
    ensures { option_copied result ≡ type_outside env.now name }
{
    match env.types.get(name as usize) {
        None => None,
        Some(ty) => ty.as_ref(),
    }
}

/// The number of the aggregate that a type is.
fn number_of(t: &Ty) -> Option<u32>
    ensures { result ≡ number_at (out-Ty t.now) }
{
    match t {
        Ty::Aggregate(number) => Some(*number),
        Ty::Void
        | Ty::Integer(_)
        | Ty::Pointer(_)
        | Ty::Array { .. }
        | Ty::Chan { .. }
        | Ty::Tuple(_)
        | Ty::Function { .. } => None,
    }
}

fn number_in(t: Option<&Ty>) -> Option<u32>
    ensures { result ≡ spec.number_in (option_copied t.entry) }
{
    match t {
        None => None,
        Some(t) => number_of(t),
    }
}

/// The number of the adt without parameters whose body an item is.
#[tactic(auto, unfolding(crate::specs::Adts::adt_number))]
fn adt_number(env: &Environment, item: &Item) -> Option<u32>
    ensures { result ≡ spec.adt_number env.now item.now }
{
    match item {
        Item::Adt { name, .. } => number_in(outer_type(env, name.name)),
        Item::Typedef { .. }
        | Item::FunctionType { .. }
        | Item::Forward { .. }
        | Item::Aggregate { .. }
        | Item::Enum { .. }
        | Item::Declare { .. }
        | Item::Function { .. } => None,
    }
}

fn mark(adts: &mut Items<bool>, number: u32)
    ensures { adts.new ≡ slice_set adts.old number true }
{
    let at = number as usize;
    if at < adts.len() {
        adts.set(at, true);
    }
}

fn mark_if(adts: &mut Items<bool>, number: Option<u32>)
    ensures { adts.new ≡ spec.with_number adts.old number }
{
    if let Some(number) = number {
        mark(adts, number);
    }
}

fn mark_items(adts: &mut Items<bool>, env: &Environment, items: &[Item])
    ensures { adts.new ≡ fold (spec.with_item env.now) adts.old items.now }
{
    for item in items {
        mark_if(adts, adt_number(env, item));
    }
}

fn mark_instances(adts: &mut Items<bool>, instances: &[InstanceType])
    ensures { adts.new ≡ fold spec.with_instance adts.old instances.now }
{
    for i in instances {
        mark(adts, i.aggregate);
    }
}

fn none(alloc: Global, aggregates: &[Aggregate]) -> Result<Items<bool>, NoMemory>
    ensures { IfOk result (λ adts. adts ≡ map spec.no_adt aggregates.now) }
{
    let mut adts = Items::with_capacity(alloc, aggregates.len())?;
    for _aggregate in aggregates {
        adts.push(false)?;
    }
    Ok(adts)
}

/// Which aggregates are adts, by their numbers.
#[tactic(auto, unfolding(crate::specs::Adts::adts))]
pub(crate) fn adts(
    alloc: Global,
    env: &Environment,
    items: &[Item],
) -> Result<Items<bool>, NoMemory>
    ensures { IfOk result (λ adts. adts ≡ spec.adts env.now items.now) }
{
    let mut adts = none(alloc, env.aggregates.as_slice())?;
    mark_items(&mut adts, env, items);
    mark_instances(&mut adts, env.instances.as_slice());
    Ok(adts)
}
