//! The values, addresses and sizes of places.
ghost use Rattle.std.specs.Prelude.{◌≡◌, IfOk};
ghost use Rattle.al_rules.specs.Outcome.{Answers};
ghost use Rattle.al_places.specs.Places as spec;

use al_base::{Kind, NoMemory, Place};
use al_convert::items_of;
use al_items::Boxed;
use al_operands::{asked, beside, both, rule_7_is_complete, rule_39_has_size};
use al_rules::TypeStop;
use al_typed::{Aggregate, TExpr, TPlace, Ty};
use std::alloc::Global;

fn pointer_to(alloc: Global, element: &Ty) -> Result<Ty, NoMemory>
    ensures { IfOk result (λ t. t ≡ spec.pointer_to element.now) }
{
    Ok(Ty::Pointer(element.boxed(alloc)?))
}

/// An array as a value.
fn decayed(alloc: Global, ty: Ty, place: TPlace) -> Result<TExpr, NoMemory>
    ensures { IfOk result (λ t. t ≡ spec.decayed ty place) }
{
    let place = Boxed::new(alloc, place)?;
    Ok(TExpr::Decay { ty, place })
}

/// The value of a place that is no array.
fn load(alloc: Global, place: TPlace) -> Result<TExpr, NoMemory>
    ensures { IfOk result (λ t. t ≡ spec.load place) }
{
    let ty = place.ty().copy(alloc);
    let place = Boxed::new(alloc, place);
    let (ty, place) = both(ty, place)?;
    Ok(TExpr::Load { ty, place })
}

/// The value of a place. That of an array is the address of its first element.
#[tactic(auto, unfolding(crate::specs::Places::read))]
fn read(alloc: Global, place: TPlace) -> Result<TExpr, NoMemory>
    ensures { IfOk result (λ t. t ≡ spec.read place) }
{
    let ty = match items_of(place.ty()) {
        None => return load(alloc, place),
        Some(element) => pointer_to(alloc, element),
    };
    let (place, ty) = beside(place, ty)?;
    decayed(alloc, ty, place)
}

/// A place that is used by value.
#[tactic(auto, unfolding(crate::specs::Places::loaded), using(al_operands::proofs::Asking::asking))]
pub fn loaded(
    alloc: Global,
    aggregates: &[Aggregate],
    at: Place,
    place: TPlace,
) -> Result<TExpr, TypeStop>
    ensures { Answers result (spec.loaded aggregates.now at place) }
{
    let holds = rule_7_is_complete(aggregates, place.ty());
    let place = asked(7, at, holds, place)?;
    Ok(read(alloc, place)?)
}

/// `&` of a place.
#[tactic(auto, unfolding(crate::specs::Places::address))]
pub fn address(alloc: Global, place: TPlace) -> Result<TExpr, NoMemory>
    ensures { IfOk result (λ t. t ≡ spec.address place) }
{
    let ty = pointer_to(alloc, place.ty());
    let place = Boxed::new(alloc, place);
    let (ty, place) = both(ty, place)?;
    Ok(TExpr::Address { ty, place })
}

/// `sizeof` of a place.
#[tactic(auto, unfolding(crate::specs::Places::size_of_place), using(al_operands::proofs::Asking::asking))]
pub fn size_of_place(
    alloc: Global,
    aggregates: &[Aggregate],
    at: Place,
    place: TPlace,
) -> Result<TExpr, TypeStop>
    ensures { Answers result (spec.size_of_place aggregates.now at place) }
{
    let holds = rule_39_has_size(aggregates, place.ty());
    let place = asked(39, at, holds, place)?;
    let place = Boxed::new(alloc, place)?;
    let ty = Ty::Integer(Kind::Int);
    Ok(TExpr::SizeofPlace { ty, place })
}
