//! What the items so far declared.
ghost use Rattle.std.specs.Prelude.{◌≡◌, ◌<◌, ◌^◌, [], Some, None, OnOk, IfOk};
ghost use Rattle.al_tree.specs.Items as items;
ghost use Rattle.al_parse_stmt.specs.Ahead as ahead;
ghost use Rattle.al_parse_stmt.specs.Begun as begun;
ghost use Rattle.al_parse_stmt.specs.Known as kept;
ghost use Rattle.al_parse_stmt.specs.Known.{adts_of, declared_of};

use crate::ahead::owner_ahead;
use al_base::NoMemory;
use al_items::Items;
use al_tree::{Cursor, ParseError, TypeNames};
use std::alloc::Global;

/// An adt with parameters, by the numbers of their names.
#[derive(Drop)]
pub(crate) struct AdtParameters {
    pub(crate) adt: u32,
    pub(crate) parameters: Items<u32>,
}

/// The names of types that the items so far declared, and the adts among them that have parameters, in their order.
#[derive(Drop)]
pub(crate) struct Known {
    pub(crate) types: TypeNames,
    pub(crate) adts: Items<AdtParameters>,
}

/// The parameters of this adt before others, if it has that name.
fn with_parameters(
    alloc: Global,
    a: &AdtParameters,
    name: u32,
    others: Items<u32>,
) -> Result<Items<u32>, NoMemory>
    ensures { IfOk result (λ all. all ≡ kept.parameters_before a.now name others) }
{
    if a.adt != name {
        return Ok(others);
    }
    let mut all = Items::from_slice(alloc, a.parameters.as_slice())?;
    all.append(others)?;
    Ok(all)
}

/// The parameters of the adt of that name, those of the last one first.
#[tactic(auto, using(crate::proofs::LastFirst::one_more))]
pub(crate) fn parameters_of(
    alloc: Global,
    adts: &Items<AdtParameters>,
    name: u32,
) -> Result<Items<u32>, NoMemory>
    ensures { IfOk result (λ all. all ≡ items.parameters_of (adts_of adts.now) name) }
{
    let mut all = Items::new(alloc);
    for a in adts.as_slice() {
        all = with_parameters(alloc, a, name, all)?;
    }
    Ok(all)
}

/// Nothing is declared.
pub(crate) fn nothing_known(alloc: Global) -> Known
    ensures { declared_of result ≡ items.nothing_declared }
{
    Known {
        types: TypeNames::new(alloc),
        adts: Items::new(alloc),
    }
}

/// Declares a type.
pub(crate) fn declare(known: &mut Known, name: u32) -> Result<(), NoMemory>
    ensures { OnOk result (declared_of known.new ≡ items.with_type name (declared_of known.old)) }
{
    known.types.declare(name)?;
    Ok(())
}

/// Adds the parameters of an adt, whose name is declared.
#[tactic(auto, using(crate::proofs::LastFirst::last_first))]
pub(crate) fn add_parameters(
    known: &mut Known,
    adt: u32,
    parameters: Items<u32>,
) -> Result<(), NoMemory>
    ensures { OnOk result (declared_of known.new ≡ kept.with_own adt parameters (declared_of known.old)) }
{
    known.adts.push(AdtParameters { adt, parameters })?;
    Ok(())
}

/// Whether there are parameters.
pub(crate) fn some_parameters(parameters: &Items<u32>) -> bool
    ensures { result ≡ ahead.some_parameters parameters.now }
{
    match parameters.as_slice().split_first() {
        None => false,
        Some(_) => true,
    }
}

/// The adt with parameters that is named with a bracket behind the base type that begins with the next token.
#[tactic(auto, unfolding(crate::specs::Ahead::owner_of))]
pub(crate) fn owner_of(
    alloc: Global,
    known: &Known,
    turns: usize,
    tokens: &Cursor<'_>,
) -> Result<Option<u32>, NoMemory>
    requires { turns < 2 ^ 32 }
    ensures { IfOk result (λ owner. owner ≡ ahead.owner_of (declared_of known.now) turns tokens.now) }
{
    let mut further = tokens.fork();
    match owner_ahead(turns, &known.types, &mut further) {
        Ok(name) => {
            let parameters = parameters_of(alloc, &known.adts, name)?;
            if some_parameters(&parameters) {
                Ok(Some(name))
            } else {
                Ok(None)
            }
        }
        Err(ParseError::NoMemory) => Err(NoMemory),
        Err(_) => Ok(None),
    }
}

/// The names that are types too where the parameters of that adt are.
pub(crate) fn inside_of(
    alloc: Global,
    known: &Known,
    owner: Option<u32>,
) -> Result<Items<u32>, NoMemory>
    ensures { IfOk result (λ all. all ≡ ahead.inside_of (declared_of known.now) owner) }
{
    match owner {
        None => Ok(Items::new(alloc)),
        Some(name) => parameters_of(alloc, &known.adts, name),
    }
}

/// The names of the adts with parameters.
#[tactic(auto, using(crate::proofs::LastFirst::one_owner))]
pub(crate) fn owners(alloc: Global, adts: &Items<AdtParameters>) -> Result<Items<u32>, NoMemory>
    ensures { IfOk result (λ all. all ≡ begun.owners (adts_of adts.now)) }
{
    let mut all = Items::new(alloc);
    for a in adts.as_slice() {
        all.push(a.adt)?;
    }
    Ok(all)
}
