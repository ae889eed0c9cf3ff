//! The instances of a text, or what is wrong with it.
ghost use Rattle.std.specs.Prelude.{◌≡◌, ◌++◌, map, OnOk, IfOk};
ghost use Rattle.std.specs.List.{flat_map};
ghost use Rattle.al_poly.specs.Answers.{IsAnswer};
ghost use Rattle.al_poly.specs.Answers as answer;
ghost use Rattle.al_poly.specs.Instances as spec;
ghost use Rattle.al_poly.specs.Rules.{misuses_in};

use crate::closure::{MOST, instances_of};
use crate::declare::names_of;
use crate::fault::{Misuse, PolyFault, PolyStop};
use crate::instance::Instance;
use crate::instances::Instances;
use crate::names::Names;
use crate::piece::{Piece, pieces_of};
use crate::rules::ask_type;
use al_base::NoMemory;
use al_items::Items;
use al_tree::{Tree, TypeTree};
use std::alloc::Global;

/// Asks the rules of types, each where it stands.
#[tactic(auto, using(crate::proofs::RulesAre::written_more))]
fn ask_types(
    names: &Names,
    owner: Option<u32>,
    misuses: &mut Items<Misuse>,
    types: &[&TypeTree],
) -> Result<(), NoMemory>
    ensures { OnOk result (misuses.new ≡ misuses.old ++ flat_map (misuses_in names.now owner) (map (λ type. type.now) types.now)) }
{
    for t in types {
        ask_type(names, owner, misuses, t)?;
    }
    Ok(())
}

/// Asks the rules of the types that an item writes.
fn ask_piece(names: &Names, misuses: &mut Items<Misuse>, piece: &Piece<'_>) -> Result<(), NoMemory>
    ensures { OnOk result (misuses.new ≡ misuses.old ++ spec.misuses_of_piece names.now piece.now) }
{
    ask_types(names, piece.owner, misuses, piece.types.as_slice())
}

/// The breaks of rules 13 and 14.
#[tactic(auto, using(crate::proofs::RulesAre::first_more))]
fn misuses_of(alloc: Global, names: &Names, pieces: &[Piece<'_>]) -> Result<Items<Misuse>, NoMemory>
    ensures { IfOk result (λ ms. ms ≡ flat_map (spec.misuses_of_piece names.now) pieces.now) }
{
    let mut misuses = Items::new(alloc);
    for piece in pieces {
        ask_piece(names, &mut misuses, piece)?;
    }
    Ok(misuses)
}

fn fault_of(misuse: Misuse) -> PolyFault
    ensures { result ≡ answer.fault_of misuse }
{
    match misuse {
        Misuse::UnknownParameter(at) => PolyFault::UnknownParameter(at),
        Misuse::WrongCount(at) => PolyFault::WrongCount(at),
    }
}

/// What is answered where the limit is kept.
fn answered(list: Items<Instance>, misuses: &[Misuse]) -> Result<Instances, PolyStop>
    ensures { result ≡ answer.answer_of list misuses.now }
{
    match misuses.split_first() {
        None => Ok(Instances { list }),
        Some((first, _)) => Err(PolyStop::Fault(fault_of(*first))),
    }
}

/// The instances of adts with parameters that a text needs, in the order in which they are named.
///
/// More than 256 are refused before any use of a name that breaks rule 13 or 14, and of these the first in the text is
/// named.
#[tactic(auto, using(crate::proofs::AnswersAre::answered), unfolding(crate::specs::Instances::instances, crate::specs::Instances::misuses))]
pub fn concrete(alloc: Global, tree: &Tree) -> Result<Instances, PolyStop>
    ensures { IsAnswer tree.now.items result }
{
    let names = names_of(alloc, tree)?;
    let pieces = pieces_of(alloc, &names, tree.items.as_slice())?;
    let list = instances_of(alloc, &names, pieces.as_slice())?;
    if MOST <= list.len() {
        return Err(PolyStop::Fault(PolyFault::Limit));
    }
    let misuses = misuses_of(alloc, &names, pieces.as_slice())?;
    answered(list, misuses.as_slice())
}
