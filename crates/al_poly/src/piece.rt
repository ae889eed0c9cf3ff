//! The items of a text, with the adts that they belong to.
ghost use Rattle.std.specs.Prelude.{◌≡◌, map, IfOk};
ghost use Rattle.al_poly.specs.Instances as spec;

use crate::names::{Names, adt_named};
use crate::types::Types;
use crate::written::in_item;
use al_base::NoMemory;
use al_items::Items;
use al_tree::{Declarator, Head, Item};
use std::alloc::Global;

/// The types that an item writes, with the adt with parameters that it belongs to.
#[derive(Drop)]
pub(crate) struct Piece<'t> {
    pub(crate) owner: Option<u32>,
    pub(crate) types: Types<'t>,
}

fn adt_if_open(names: &Names, name: u32) -> Option<u32>
    ensures { result ≡ spec.adt_if_open names.now name }
{
    if adt_named(names, name).is_some() {
        Some(name)
    } else {
        None
    }
}

fn owner_of_head(names: &Names, head: &Head) -> Option<u32>
    ensures { result ≡ spec.owner_of_head names.now head.now }
{
    match &head.owner {
        None => None,
        Some(owner) => adt_if_open(names, owner.adt.name),
    }
}

fn owner_of_declarator(names: &Names, declarator: &Declarator) -> Option<u32>
    ensures { result ≡ spec.owner_of_declarator names.now declarator.now }
{
    match declarator {
        Declarator::Global { .. } => None,
        Declarator::Function(head) => owner_of_head(names, head),
    }
}

fn owner_of_list(names: &Names, list: &[Declarator]) -> Option<u32>
    ensures { result ≡ spec.owner_of_list names.now list.now }
{
    match list.split_first() {
        None => None,
        Some((first, _)) => owner_of_declarator(names, first),
    }
}

/// The adt with parameters to which an item belongs, by the number of its name: the one of which it is the body, or whose
/// function it defines. A list of declarations belongs to that of its first function.
pub fn owner_of(names: &Names, item: &Item) -> Option<u32>
    ensures { result ≡ spec.owner_of names.now item.now }
{
    match item {
        Item::Adt { name, .. } => adt_if_open(names, name.name),
        Item::Function { head, .. } => owner_of_head(names, head),
        Item::Declare { declarators, .. } => owner_of_list(names, declarators.as_slice()),
        Item::Typedef { .. }
        | Item::FunctionType { .. }
        | Item::Forward { .. }
        | Item::Aggregate { .. }
        | Item::Enum { .. } => None,
    }
}

fn piece_of<'t>(alloc: Global, names: &Names, item: &'t Item) -> Result<Piece<'t>, NoMemory>
    ensures { IfOk result (λ p. p ≡ spec.piece_of names.now item.now) }
{
    let owner = owner_of(names, item);
    let mut types = Types::new(alloc);
    in_item(&mut types, item)?;
    Ok(Piece { owner, types })
}

/// The pieces of a text.
pub(crate) fn pieces_of<'t>(
    alloc: Global,
    names: &Names,
    items: &'t [Item],
) -> Result<Items<Piece<'t>>, NoMemory>
    ensures { IfOk result (λ ps. ps ≡ spec.pieces_of names.now items.now) }
{
    let mut pieces = Items::new(alloc);
    for item in items {
        let piece = piece_of(alloc, names, item)?;
        pieces.push(piece)?;
    }
    Ok(pieces)
}
