//! What uses make of what an expression is.
ghost use Rattle.std.specs.Prelude.{◌≡◌};
ghost use Rattle.al_rules.specs.Outcome.{Answers};
ghost use Rattle.al_type_nodes.specs.Uses as spec;

use crate::found::Found;
use crate::refusal::lacking;
use crate::rules::rule_19_is_shared;
use al_base::Place;
use al_convert::Literal;
use al_operands::{Operand, asked, beside, plain};
use al_operators::{size_of_value, used};
use al_places::{address, loaded, size_of_place};
use al_rules::TypeStop;
use al_typed::{Aggregate, TExpr, TPlace};
use std::alloc::Global;

/// A value that is written as neither 0 nor nil.
pub fn value(value: TExpr) -> Found
    ensures { result ≡ spec.value value }
{
    Found::Value(Operand {
        value,
        written: Literal::Other,
    })
}

/// A place that is no private global.
pub fn place_of(place: TPlace) -> Found
    ensures { result ≡ spec.place_of place }
{
    Found::Place {
        place,
        is_private: false,
    }
}

#[tactic(auto, unfolding(crate::specs::Uses::loaded_operand), using(al_rules::proofs::Permits::permitted))]
fn loaded_operand(
    alloc: Global,
    aggregates: &[Aggregate],
    at: Place,
    place: TPlace,
) -> Result<Operand, TypeStop>
    ensures { Answers result (spec.loaded_operand aggregates.now at place) }
{
    let value = loaded(alloc, aggregates, at, place)?;
    Ok(Operand {
        value,
        written: Literal::Other,
    })
}

#[tactic(auto, unfolding(crate::specs::Uses::used_operand), using(al_rules::proofs::Permits::permitted))]
fn used_operand(at: Place, x: Operand) -> Result<Operand, TypeStop>
    ensures { Answers result (spec.used_operand at x) }
{
    let e = used(at, x.value);
    let (written, value) = beside(x.written, e)?;
    Ok(Operand { value, written })
}

/// What is found as a value that is used, for which a void value is none.
#[tactic(auto, unfolding(crate::specs::Uses::operand))]
pub fn operand(
    alloc: Global,
    aggregates: &[Aggregate],
    at: Place,
    found: Found,
) -> Result<Operand, TypeStop>
    ensures { Answers result (spec.operand aggregates.now at found) }
{
    match found {
        Found::Place {
            place,
            is_private: _,
        } => loaded_operand(alloc, aggregates, at, place),
        Found::Value(x) => used_operand(at, x),
    }
}

/// What is found as a value that is dropped: it may be void.
#[tactic(auto, unfolding(crate::specs::Uses::dropped))]
pub fn dropped(
    alloc: Global,
    aggregates: &[Aggregate],
    at: Place,
    found: Found,
) -> Result<TExpr, TypeStop>
    ensures { Answers result (spec.dropped aggregates.now at found) }
{
    match found {
        Found::Place {
            place,
            is_private: _,
        } => loaded(alloc, aggregates, at, place),
        Found::Value(x) => plain(x),
    }
}

/// `sizeof` of what is found.
#[tactic(auto, unfolding(crate::specs::Uses::sized))]
pub fn sized(
    alloc: Global,
    aggregates: &[Aggregate],
    at: Place,
    found: Found,
) -> Result<TExpr, TypeStop>
    ensures { Answers result (spec.sized aggregates.now at found) }
{
    match found {
        Found::Place {
            place,
            is_private: _,
        } => size_of_place(alloc, aggregates, at, place),
        Found::Value(x) => size_of_value(alloc, aggregates, at, x),
    }
}

/// What is found as a place, which rule 28 asks for.
#[tactic(auto, unfolding(crate::specs::Uses::placed))]
pub fn placed(at: Place, found: Found) -> Result<TPlace, TypeStop>
    ensures { Answers result (spec.placed at found) }
{
    match found {
        Found::Place {
            place,
            is_private: _,
        } => Ok(place),
        Found::Value(x) => lacking(28, at, x),
    }
}

#[tactic(auto, unfolding(crate::specs::Uses::address_of), using(al_operands::proofs::Asking::asking))]
fn address_of(alloc: Global, at: Place, place: TPlace, is_private: bool) -> Result<TExpr, TypeStop>
    ensures { Answers result (spec.address_of at place is_private) }
{
    let holds = rule_19_is_shared(is_private);
    let place = asked(19, at, holds, place)?;
    Ok(address(alloc, place)?)
}

/// `&` of what is found.
#[tactic(auto, unfolding(crate::specs::Uses::addressed))]
pub fn addressed(alloc: Global, at: Place, found: Found) -> Result<TExpr, TypeStop>
    ensures { Answers result (spec.addressed at found) }
{
    match found {
        Found::Place { place, is_private } => address_of(alloc, at, place, is_private),
        Found::Value(x) => lacking(28, at, x),
    }
}
