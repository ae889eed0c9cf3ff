//! The instances that a text needs.
ghost use Rattle.std.specs.Prelude.{◌≡◌, map, IfOk, OnOk};
ghost use Rattle.std.specs.List.{flat_map};
ghost use Rattle.al_poly.specs.Instances as spec;
ghost use Rattle.al_poly.specs.Types.{instances_in as named_in};

use crate::instance::{Instance, copy_instance, same_instance};
use crate::names::Names;
use crate::piece::Piece;
use crate::resolve::named_by;
use al_base::NoMemory;
use al_items::Items;
use al_tree::TypeTree;
use std::alloc::Global;

/// One more than the greatest number of instances that a text may have.
pub(crate) const MOST: usize = 257;

/// Whether the list has the instance.
fn has_instance(list: &[Instance], i: &Instance) -> bool
    ensures { result ≡ spec.is_there list.now i.now }
{
    list.iter().any(|j| same_instance(j, i))
}

/// Adds an instance, unless it is there already or the list is cut.
#[tactic(auto, unfolding(crate::specs::Instances::with_instance))]
fn add(list: &mut Items<Instance>, i: Instance) -> Result<(), NoMemory>
    ensures { OnOk result (list.new ≡ spec.with_instance list.old i) }
{
    if MOST <= list.len() || has_instance(list.as_slice(), &i) {
        return Ok(());
    }
    list.push(i)
}

/// Adds the instance that a name with these type arguments names, if it names one.
fn add_named(
    alloc: Global,
    names: &Names,
    inside: &Option<Instance>,
    list: &mut Items<Instance>,
    name: u32,
    arguments: &[TypeTree],
) -> Result<(), NoMemory>
    ensures { OnOk result (list.new ≡ spec.with_named names.now inside.now list.old name arguments.now) }
{
    match named_by(alloc, names, inside, name, arguments)? {
        None => Ok(()),
        Some(i) => add(list, i),
    }
}

/// Adds those that types name.
#[cycle(closure)]
#[tactic(auto, using(crate::proofs::InstancesAre::fronts))]
fn add_all(
    alloc: Global,
    names: &Names,
    inside: &Option<Instance>,
    list: &mut Items<Instance>,
    types: &[TypeTree],
) -> Result<(), NoMemory>
    ensures { OnOk result (list.new ≡ spec.with_all list.old (flat_map (named_in names.now inside.now) types.now)) }
{
    for t in types {
        add_in(alloc, names, inside, list, t)?;
    }
    Ok(())
}

/// Adds those that a type names.
#[cycle(closure)]
#[tactic(auto, using(crate::proofs::TypesAre::instances_are, crate::proofs::InstancesAre::fronts))]
fn add_in(
    alloc: Global,
    names: &Names,
    inside: &Option<Instance>,
    list: &mut Items<Instance>,
    t: &TypeTree,
) -> Result<(), NoMemory>
    ensures { OnOk result (list.new ≡ spec.with_all list.old (named_in names.now inside.now t.now)) }
{
    match t {
        TypeTree::Basic { .. } => Ok(()),
        TypeTree::Named {
            name,
            arguments,
            ..
        } => {
            add_named(alloc, names, inside, list, *name, arguments.as_slice())?;
            add_all(alloc, names, inside, list, arguments.as_slice())
        }
        TypeTree::Tuple { parts, .. } => add_all(alloc, names, inside, list, parts.as_slice()),
        TypeTree::Chan { element, .. } => add_in(alloc, names, inside, list, element.get()),
        TypeTree::Pointer { to, .. } => add_in(alloc, names, inside, list, to.get()),
        TypeTree::Array { element, .. } => add_in(alloc, names, inside, list, element.get()),
    }
}

/// Adds those that the types name, each where it stands.
#[tactic(auto, using(crate::proofs::InstancesAre::fronts))]
fn add_written(
    alloc: Global,
    names: &Names,
    inside: &Option<Instance>,
    list: &mut Items<Instance>,
    types: &[&TypeTree],
) -> Result<(), NoMemory>
    ensures { OnOk result (list.new ≡ spec.with_all list.old (flat_map (named_in names.now inside.now) (map (λ type. type.now) types.now))) }
{
    for t in types {
        add_in(alloc, names, inside, list, t)?;
    }
    Ok(())
}

/// Whether what belongs to `owner` belongs to the text or to the instance at hand.
fn belongs(owner: Option<u32>, inside: &Option<Instance>) -> bool
    ensures { result ≡ spec.belongs owner inside.now }
{
    match inside {
        None => owner.is_none(),
        Some(i) => match owner {
            None => false,
            Some(adt) => adt == i.adt,
        },
    }
}

/// Adds those that the types of an item name.
#[tactic(auto, using(crate::proofs::InstancesAre::fronts))]
fn add_piece(
    alloc: Global,
    names: &Names,
    inside: &Option<Instance>,
    list: &mut Items<Instance>,
    piece: &Piece<'_>,
) -> Result<(), NoMemory>
    ensures { OnOk result (list.new ≡ spec.with_all list.old (spec.named_by_piece names.now inside.now piece.now)) }
{
    if !belongs(piece.owner, inside) {
        return Ok(());
    }
    add_written(alloc, names, inside, list, piece.types.as_slice())
}

/// Adds those that the text or an instance names.
#[tactic(auto, using(crate::proofs::InstancesAre::fronts))]
fn add_pieces(
    alloc: Global,
    names: &Names,
    pieces: &[Piece<'_>],
    inside: &Option<Instance>,
    list: &mut Items<Instance>,
) -> Result<(), NoMemory>
    ensures { OnOk result (list.new ≡ spec.with_all list.old (spec.named names.now pieces.now inside.now)) }
{
    for piece in pieces {
        add_piece(alloc, names, inside, list, piece)?;
    }
    Ok(())
}

/// Adds those that the instance of that number names, if there is one.
fn follow(
    alloc: Global,
    names: &Names,
    pieces: &[Piece<'_>],
    list: &mut Items<Instance>,
    n: usize,
) -> Result<(), NoMemory>
    ensures { OnOk result (list.new ≡ spec.follow names.now pieces.now list.old n) }
{
    let inside = match list.get(n) {
        None => return Ok(()),
        Some(i) => Some(copy_instance(alloc, i)?),
    };
    add_pieces(alloc, names, pieces, &inside, list)
}

/// The instances that a text needs, or the first 257.
#[tactic(auto, using(crate::proofs::InstancesAre::followed_is), unfolding(crate::specs::Instances::instances_of))]
pub(crate) fn instances_of(
    alloc: Global,
    names: &Names,
    pieces: &[Piece<'_>],
) -> Result<Items<Instance>, NoMemory>
    ensures { IfOk result (λ list. list ≡ spec.instances_of names.now pieces.now) }
{
    let mut list = Items::new(alloc);
    add_pieces(alloc, names, pieces, &None, &mut list)?;
    for n in 0..MOST {
        follow(alloc, names, pieces, &mut list, n)?;
    }
    Ok(list)
}
