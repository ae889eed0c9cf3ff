//! What written types are.
ghost use Rattle.std.specs.Prelude.{◌≡◌, map, IfOk, option_map};
ghost use Rattle.std.specs.Option.{option_copied};
ghost use Rattle.al_poly.specs.Types as spec;
ghost use Rattle.al_poly.specs.declared.concrete_type.ConcreteType.TheVariants as ty;

use crate::concrete_type::{ConcreteType, copies, copy};
use crate::instance::Instance;
use crate::names::{Names, adt_named, parameter_named};
use al_base::{NoMemory, Place};
use al_items::{Boxed, Items};
use al_tree::{Bound, TypeTree, bound_value};
use std::alloc::Global;

/// A type that may be missing, once more.
fn copy_found(alloc: Global, ty: &Option<ConcreteType>) -> Result<Option<ConcreteType>, NoMemory>
    ensures { IfOk result (λ t. t ≡ ty.now) }
{
    match ty {
        None => Ok(None),
        Some(ty) => Ok(Some(copy(alloc, ty)?)),
    }
}

/// What the type of that name stands for.
#[tactic(auto, unfolding(crate::specs::Types::type_known))]
fn type_known(alloc: Global, names: &Names, name: u32) -> Result<Option<ConcreteType>, NoMemory>
    ensures { IfOk result (λ t. t ≡ spec.type_known names.now.known name) }
{
    match names.known.get(name) {
        None => Ok(None),
        Some(ty) => copy_found(alloc, ty),
    }
}

/// What a name stands for outside of adts with parameters.
#[tactic(auto, unfolding(crate::specs::Types::global))]
fn global(alloc: Global, names: &Names, name: u32) -> Result<Option<ConcreteType>, NoMemory>
    ensures { IfOk result (λ t. t ≡ spec.global names.now name) }
{
    if adt_named(names, name).is_some() {
        return Ok(None);
    }
    type_known(alloc, names, name)
}

/// The argument of a parameter in an instance.
#[tactic(auto, unfolding(crate::specs::Types::argument))]
fn argument<'i>(names: &Names, i: &'i Instance, name: u32) -> Option<&'i ConcreteType>
    ensures { option_copied result ≡ spec.argument names.now i.now name }
{
    match parameter_named(names, i.adt, name) {
        None => None,
        Some(k) => i.arguments.get(k),
    }
}

/// The instance at hand by its adt's name, or what the name stands for outside.
#[tactic(auto, unfolding(crate::specs::Types::own_or_global))]
fn own_or_global(
    alloc: Global,
    names: &Names,
    i: &Instance,
    name: u32,
) -> Result<Option<ConcreteType>, NoMemory>
    ensures { IfOk result (λ t. t ≡ spec.own_or_global names.now i.now name) }
{
    if name != i.adt {
        return global(alloc, names, name);
    }
    let arguments = copies(alloc, i.arguments.as_slice())?;
    Ok(Some(ConcreteType::Instance {
        adt: i.adt,
        arguments,
    }))
}

/// What a name without type arguments stands for.
pub(crate) fn plain(
    alloc: Global,
    names: &Names,
    inside: &Option<Instance>,
    name: u32,
) -> Result<Option<ConcreteType>, NoMemory>
    ensures { IfOk result (λ t. t ≡ spec.plain names.now inside.now name) }
{
    match inside {
        None => global(alloc, names, name),
        Some(i) => match argument(names, i, name) {
            None => own_or_global(alloc, names, i, name),
            Some(ty) => Ok(Some(copy(alloc, ty)?)),
        },
    }
}

fn is_argument(names: &Names, inside: &Option<Instance>, name: u32) -> bool
    ensures { result ≡ spec.is_argument names.now inside.now name }
{
    match inside {
        None => false,
        Some(i) => argument(names, i, name).is_some(),
    }
}

/// The instance that a name with type arguments names.
#[tactic(auto, unfolding(crate::specs::Types::applied))]
fn applied(
    names: &Names,
    inside: &Option<Instance>,
    name: u32,
    arguments: Items<ConcreteType>,
) -> Option<Instance>
    ensures { result ≡ spec.applied names.now inside.now name arguments }
{
    if is_argument(names, inside, name) {
        return None;
    }
    match adt_named(names, name) {
        None => None,
        Some(parameters) => {
            if arguments.len() != parameters.len() {
                return None;
            }
            Some(Instance {
                adt: name,
                arguments,
            })
        }
    }
}

fn capacity(names: &Names, at: Place, bound: &Option<Bound>) -> Option<u32>
    ensures { result ≡ spec.capacity names.now at bound.now }
{
    match bound {
        None => Some(0),
        Some(b) => bound_value(&names.constants, b, at),
    }
}

fn chan_type(
    alloc: Global,
    element: Option<ConcreteType>,
    capacity: Option<u32>,
) -> Result<Option<ConcreteType>, NoMemory>
    ensures { IfOk result (λ t. t ≡ spec.chan_type element capacity) }
{
    match element {
        None => Ok(None),
        Some(element) => match capacity {
            None => Ok(None),
            Some(capacity) => {
                let element = Boxed::new(alloc, element)?;
                Ok(Some(ConcreteType::Chan { element, capacity }))
            }
        },
    }
}

/// An array of so many elements.
pub(crate) fn array_type(
    alloc: Global,
    element: Option<ConcreteType>,
    count: Option<u32>,
) -> Result<Option<ConcreteType>, NoMemory>
    ensures { IfOk result (λ t. t ≡ spec.array_type element count) }
{
    match element {
        None => Ok(None),
        Some(element) => match count {
            None => Ok(None),
            Some(count) => {
                let element = Boxed::new(alloc, element)?;
                Ok(Some(ConcreteType::Array { element, count }))
            }
        },
    }
}

/// A pointer to it.
pub(crate) fn pointer_to(
    alloc: Global,
    to: Option<ConcreteType>,
) -> Result<Option<ConcreteType>, NoMemory>
    ensures { IfOk result (λ t. t ≡ option_map ty.Pointer to) }
{
    match to {
        None => Ok(None),
        Some(to) => Ok(Some(ConcreteType::Pointer(Boxed::new(alloc, to)?))),
    }
}

/// All of the types, if each has a meaning.
#[cycle(resolve)]
#[tactic(auto, using(crate::proofs::TypesAre::lists))]
fn all_types(
    alloc: Global,
    names: &Names,
    inside: &Option<Instance>,
    list: &[TypeTree],
) -> Result<Option<Items<ConcreteType>>, NoMemory>
    ensures { IfOk result (λ ts. ts ≡ spec.all_of (map (spec.type_of names.now inside.now) list.now)) }
{
    let mut types = Items::new(alloc);
    for t in list {
        match type_of(alloc, names, inside, t)? {
            None => return Ok(None),
            Some(ty) => types.push(ty)?,
        }
    }
    Ok(Some(types))
}

/// The instance that a name with these type arguments names.
#[cycle(resolve)]
pub(crate) fn named_by(
    alloc: Global,
    names: &Names,
    inside: &Option<Instance>,
    name: u32,
    arguments: &[TypeTree],
) -> Result<Option<Instance>, NoMemory>
    ensures { IfOk result (λ i. i ≡ spec.named_by names.now inside.now name (map (spec.type_of names.now inside.now) arguments.now)) }
{
    match arguments.split_first() {
        None => Ok(None),
        Some(_) => match all_types(alloc, names, inside, arguments)? {
            None => Ok(None),
            Some(types) => Ok(applied(names, inside, name, types)),
        },
    }
}

/// What a name with these type arguments, or without any, stands for.
#[cycle(resolve)]
fn type_named(
    alloc: Global,
    names: &Names,
    inside: &Option<Instance>,
    name: u32,
    arguments: &[TypeTree],
) -> Result<Option<ConcreteType>, NoMemory>
    ensures { IfOk result (λ t. t ≡ spec.type_named names.now inside.now name (map (spec.type_of names.now inside.now) arguments.now)) }
{
    match arguments.split_first() {
        None => plain(alloc, names, inside, name),
        Some(_) => match named_by(alloc, names, inside, name, arguments)? {
            None => Ok(None),
            Some(Instance { adt, arguments }) => {
                Ok(Some(ConcreteType::Instance { adt, arguments }))
            }
        },
    }
}

/// What a written type is. Inside an instance its arguments stand for the adt's parameters. It is missing where a bound or type
/// arguments in it have no meaning.
#[cycle(resolve)]
#[tactic(auto, using(crate::proofs::TypesAre::type_is))]
pub fn type_of(
    alloc: Global,
    names: &Names,
    inside: &Option<Instance>,
    t: &TypeTree,
) -> Result<Option<ConcreteType>, NoMemory>
    ensures { IfOk result (λ ty. ty ≡ spec.type_of names.now inside.now t.now) }
{
    match t {
        TypeTree::Basic { basic, .. } => Ok(Some(ConcreteType::Basic(*basic))),
        TypeTree::Named {
            name,
            arguments,
            ..
        } => type_named(alloc, names, inside, *name, arguments.as_slice()),
        TypeTree::Tuple { parts, .. } => {
            match all_types(alloc, names, inside, parts.as_slice())? {
                None => Ok(None),
                Some(types) => Ok(Some(ConcreteType::Tuple(types))),
            }
        }
        TypeTree::Chan {
            at,
            element,
            capacity: bound,
        } => {
            let element = type_of(alloc, names, inside, element.get())?;
            chan_type(alloc, element, capacity(names, *at, bound))
        }
        TypeTree::Pointer { to, .. } => {
            let to = type_of(alloc, names, inside, to.get())?;
            pointer_to(alloc, to)
        }
        TypeTree::Array { at, bound, element } => {
            let element = type_of(alloc, names, inside, element.get())?;
            array_type(alloc, element, bound_value(&names.constants, bound, *at))
        }
    }
}
