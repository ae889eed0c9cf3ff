//! Bounds in types.
ghost use Rattle.std.specs.Prelude.{◌≡◌, OnOk};
ghost use Rattle.al_declare.specs.Types as spec;

use crate::asked::Asked;
use crate::rules::{rule_17_bound, rule_17_capacity};
use crate::text::Text;
use al_base::{NoMemory, Place};
use al_tree::{Bound, Dcl, TypeTree, bound_value};

/// The bound of an array in what stands at a place.
#[tactic(auto, unfolding(crate::specs::Types::bound))]
pub(crate) fn bound(c: &Text, w: &mut Asked, at: Place, b: &Bound) -> Result<(), NoMemory>
    ensures { OnOk result (w.new ≡ spec.bound at b.now c.now w.old) }
{
    w.ask(17, at, rule_17_bound(bound_value(&c.constants, b, at)))
}

/// A channel's capacity, if one is written.
#[tactic(auto, unfolding(crate::specs::Types::capacity))]
fn capacity(c: &Text, w: &mut Asked, at: Place, b: &Option<Bound>) -> Result<(), NoMemory>
    ensures { OnOk result (w.new ≡ spec.optional (spec.capacity at) b.now c.now w.old) }
{
    match b {
        None => Ok(()),
        Some(b) => w.ask(17, at, rule_17_capacity(bound_value(&c.constants, b, at))),
    }
}

/// Bounds of arrays in what stands at a place.
fn bounds(c: &Text, w: &mut Asked, at: Place, list: &[Bound]) -> Result<(), NoMemory>
    ensures { OnOk result (w.new ≡ spec.each (spec.bound at) list.now c.now w.old) }
{
    for b in list {
        bound(c, w, at, b)?;
    }
    Ok(())
}

/// The bounds of a declarator.
pub(crate) fn dcl_bounds(c: &Text, w: &mut Asked, d: &Dcl) -> Result<(), NoMemory>
    ensures { OnOk result (w.new ≡ spec.dcl_bounds d.now c.now w.old) }
{
    bounds(c, w, d.at, d.bounds.as_slice())
}

/// Types.
#[cycle(type_tree)]
fn type_trees(c: &Text, w: &mut Asked, list: &[TypeTree]) -> Result<(), NoMemory>
    ensures { OnOk result (w.new ≡ spec.each spec.type_tree list.now c.now w.old) }
{
    for t in list {
        type_tree(c, w, t)?;
    }
    Ok(())
}

/// A type.
#[cycle(type_tree)]
#[tactic(auto, using(crate::proofs::TypesAre::type_is))]
pub(crate) fn type_tree(c: &Text, w: &mut Asked, t: &TypeTree) -> Result<(), NoMemory>
    ensures { OnOk result (w.new ≡ spec.type_tree t.now c.now w.old) }
{
    match t {
        TypeTree::Basic { .. } => Ok(()),
        TypeTree::Named { arguments, .. } => type_trees(c, w, arguments.as_slice()),
        TypeTree::Tuple { parts, .. } => type_trees(c, w, parts.as_slice()),
        TypeTree::Chan {
            at,
            element,
            capacity: size,
        } => {
            type_tree(c, w, element.get())?;
            capacity(c, w, *at, size)
        }
        TypeTree::Pointer { to, .. } => type_tree(c, w, to.get()),
        TypeTree::Array {
            at,
            bound: size,
            element,
        } => {
            type_tree(c, w, element.get())?;
            bound(c, w, *at, size)
        }
    }
}
