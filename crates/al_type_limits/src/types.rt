//! Sizes of written types and of what declarators make of them.
ghost use Rattle.std.specs.Prelude.{◌≡◌, fold};
ghost use Rattle.al_type_limits.specs.Types as spec;

use crate::by_name::ByName;
use crate::size::{Size, above, beside, nothing, one};
use al_tree::{Bound, Dcl, Parameter, TypeTree};

/// A bound, with the operators in it as levels.
#[tactic(auto, using(crate::proofs::TypesAre::bound_is))]
fn bound_size(b: &Bound) -> Size
    ensures { result ≡ spec.bound_size b.now }
{
    match b {
        Bound::Number { .. } | Bound::Name { .. } => one(),
        Bound::Binary { left, right, .. } => {
            above(1, beside(bound_size(left.get()), bound_size(right.get())))
        }
    }
}

/// An array of elements of that size.
fn array(element: Size, b: &Bound) -> Size
    ensures { result ≡ spec.array element b.now }
{
    above(1, beside(element, bound_size(b)))
}

/// An array or a channel whose bound may be missing.
fn holder(element: Size, b: &Option<Bound>) -> Size
    ensures { result ≡ spec.holder element b.now }
{
    match b {
        None => above(1, element),
        Some(b) => array(element, b),
    }
}

/// What a name stands for.
#[tactic(auto, unfolding(crate::specs::Types::named))]
fn named(names: &ByName<Size>, name: u32) -> Size
    ensures { result ≡ spec.named names.now name }
{
    match names.get(name) {
        None => one(),
        Some(size) => *size,
    }
}

/// Adds types.
#[cycle(types)]
fn add_types(names: &ByName<Size>, sum: &mut Size, types: &[TypeTree])
    ensures { sum.new ≡ fold (spec.with_type names.now) sum.old types.now }
{
    for t in types {
        *sum = beside(*sum, type_size(names, t));
    }
}

/// Types together.
#[cycle(types)]
fn together(names: &ByName<Size>, types: &[TypeTree]) -> Size
    ensures { result ≡ spec.together names.now types.now }
{
    let mut sum = nothing();
    add_types(names, &mut sum, types);
    sum
}

/// A name with type arguments, or without.
#[cycle(types)]
fn with_arguments(names: &ByName<Size>, name: u32, arguments: &[TypeTree]) -> Size
    ensures { result ≡ spec.with_arguments names.now name arguments.now }
{
    match arguments.split_first() {
        None => named(names, name),
        Some(_) => above(1, together(names, arguments)),
    }
}

/// A written type.
#[cycle(types)]
#[tactic(auto, using(crate::proofs::TypesAre::type_is))]
pub(crate) fn type_size(names: &ByName<Size>, t: &TypeTree) -> Size
    ensures { result ≡ spec.type_size names.now t.now }
{
    match t {
        TypeTree::Basic { .. } => one(),
        TypeTree::Named {
            name,
            arguments,
            ..
        } => with_arguments(names, *name, arguments.as_slice()),
        TypeTree::Tuple { parts, .. } => above(1, together(names, parts.as_slice())),
        TypeTree::Chan {
            element,
            capacity,
            ..
        } => holder(type_size(names, element.get()), capacity),
        TypeTree::Pointer { to, .. } => above(1, type_size(names, to.get())),
        TypeTree::Array { bound, element, .. } => array(type_size(names, element.get()), bound),
    }
}

fn arrays(mut element: Size, bounds: &[Bound]) -> Size
    ensures { result ≡ fold spec.array element bounds.now }
{
    for b in bounds {
        element = array(element, b);
    }
    element
}

fn holders(mut element: Size, bounds: &[Option<Bound>]) -> Size
    ensures { result ≡ fold spec.holder element bounds.now }
{
    for b in bounds {
        element = holder(element, b);
    }
    element
}

/// What a declarator makes of a base type of that size.
pub(crate) fn declared(base: Size, dcl: &Dcl) -> Size
    ensures { result ≡ spec.declared base dcl.now }
{
    arrays(above(dcl.stars, base), dcl.bounds.as_slice())
}

fn parameter_size(names: &ByName<Size>, p: &Parameter) -> Size
    ensures { result ≡ spec.parameter_size names.now p.now }
{
    match p {
        Parameter::Plain {
            base,
            stars,
            bounds,
            ..
        } => holders(above(*stars, type_size(names, base)), bounds.as_slice()),
        Parameter::OwnPointer { .. } => above(1, one()),
        Parameter::OwnValue { .. } => one(),
    }
}

fn add_parameters(names: &ByName<Size>, mut sum: Size, list: &[Parameter]) -> Size
    ensures { result ≡ fold (spec.with_parameter names.now) sum list.now }
{
    for p in list {
        sum = beside(sum, parameter_size(names, p));
    }
    sum
}

/// A function with a result of that size.
pub(crate) fn function_size(names: &ByName<Size>, returns: Size, list: &[Parameter]) -> Size
    ensures { result ≡ spec.function_size names.now returns list.now }
{
    above(1, add_parameters(names, returns, list))
}
