//! Bounds in types.
ghost use Rattle.std.specs.Prelude.{◌≡◌, OnOk};
ghost use Rattle.al_scope.specs.Types as spec;

use crate::bound::{bound_place, is_constant};
use crate::walk::Walk;
use al_base::NoMemory;
use al_tree::{Bound, Dcl, EnumConstant, TypeTree};

/// A bound.
#[tactic(auto, unfolding(crate::specs::Types::bound))]
pub(crate) fn bound(c: &[EnumConstant], w: &mut Walk, b: &Bound) -> Result<(), NoMemory>
    ensures { OnOk result (w.new ≡ spec.bound b.now c.now w.old) }
{
    let at = bound_place(b);
    w.ask(22, at, is_constant(b, c, at))
}

/// A bound that may be missing.
pub(crate) fn bound_if(c: &[EnumConstant], w: &mut Walk, b: &Option<Bound>) -> Result<(), NoMemory>
    ensures { OnOk result (w.new ≡ spec.optional spec.bound b.now c.now w.old) }
{
    match b {
        None => Ok(()),
        Some(b) => bound(c, w, b),
    }
}

/// Bounds.
fn bounds(c: &[EnumConstant], w: &mut Walk, list: &[Bound]) -> Result<(), NoMemory>
    ensures { OnOk result (w.new ≡ spec.each spec.bound list.now c.now w.old) }
{
    for b in list {
        bound(c, w, b)?;
    }
    Ok(())
}

/// The bounds of a declarator.
pub(crate) fn dcl_bounds(c: &[EnumConstant], w: &mut Walk, d: &Dcl) -> Result<(), NoMemory>
    ensures { OnOk result (w.new ≡ spec.dcl_bounds d.now c.now w.old) }
{
    bounds(c, w, d.bounds.as_slice())
}

/// Types.
#[cycle(type_tree)]
fn type_trees(c: &[EnumConstant], w: &mut Walk, list: &[TypeTree]) -> Result<(), NoMemory>
    ensures { OnOk result (w.new ≡ spec.each spec.type_tree list.now c.now w.old) }
{
    for t in list {
        type_tree(c, w, t)?;
    }
    Ok(())
}

/// A type.
#[cycle(type_tree)]
#[tactic(auto, using(crate::proofs::TypesAre::type_is))]
pub(crate) fn type_tree(c: &[EnumConstant], w: &mut Walk, t: &TypeTree) -> Result<(), NoMemory>
    ensures { OnOk result (w.new ≡ spec.type_tree t.now c.now w.old) }
{
    match t {
        TypeTree::Basic { .. } => Ok(()),
        TypeTree::Named { arguments, .. } => type_trees(c, w, arguments.as_slice()),
        TypeTree::Tuple { parts, .. } => type_trees(c, w, parts.as_slice()),
        TypeTree::Chan {
            element,
            capacity,
            ..
        } => {
            type_tree(c, w, element.get())?;
            bound_if(c, w, capacity)
        }
        TypeTree::Pointer { to, .. } => type_tree(c, w, to.get()),
        TypeTree::Array {
            bound: size,
            element,
            ..
        } => {
            type_tree(c, w, element.get())?;
            bound(c, w, size)
        }
    }
}
