//! What the items of a text declare.
ghost use Rattle.std.specs.Prelude.{◌≡◌, [], map, fold, IfOk, OnOk};
ghost use Rattle.al_poly.specs.Concrete.{pointers};
ghost use Rattle.al_poly.specs.Types as spec;

use crate::by_name::ByName;
use crate::concrete_type::ConcreteType;
use crate::instance::Instance;
use crate::names::Names;
use crate::resolve::{array_type, plain, pointer_to, type_of};
use al_base::{NoMemory, Place};
use al_items::{Boxed, Items};
use al_tree::{
    BasicType, Bound, Dcl, Item, Name, Parameter, Tree, TypeTree, bound_value, enum_values,
};
use std::alloc::Global;

/// So many pointers to a type.
#[tactic(auto, using(crate::proofs::ArraysAre::pointers_are))]
fn pointers_to(alloc: Global, stars: u32, ty: ConcreteType) -> Result<ConcreteType, NoMemory>
    ensures { IfOk result (λ t. t ≡ pointers stars ty) }
{
    let mut found = ty;
    for _made in 0..stars {
        found = ConcreteType::Pointer(Boxed::new(alloc, found)?);
    }
    Ok(found)
}

/// A base type with so many stars.
fn starred(
    alloc: Global,
    names: &Names,
    inside: &Option<Instance>,
    stars: u32,
    base: &TypeTree,
) -> Result<Option<ConcreteType>, NoMemory>
    ensures { IfOk result (λ t. t ≡ spec.starred names.now inside.now stars base.now) }
{
    match type_of(alloc, names, inside, base)? {
        None => Ok(None),
        Some(ty) => Ok(Some(pointers_to(alloc, stars, ty)?)),
    }
}

fn bound_of(names: &Names, at: Place, bound: &Option<Bound>) -> Option<u32>
    ensures { result ≡ spec.bound_of names.now at bound.now }
{
    match bound {
        None => None,
        Some(b) => bound_value(&names.constants, b, at),
    }
}

/// Arrays of a type, the first bound outermost.
#[tactic(auto, using(crate::proofs::ArraysAre::arrays_are))]
fn arrays(
    alloc: Global,
    names: &Names,
    at: Place,
    bounds: &[Option<Bound>],
    ty: Option<ConcreteType>,
) -> Result<Option<ConcreteType>, NoMemory>
    ensures { IfOk result (λ t. t ≡ spec.arrays names.now at bounds.now ty) }
{
    let mut found = ty;
    let mut rest = bounds;
    while let Some((b, front)) = rest.split_last() {
        found = array_type(alloc, found, bound_of(names, at, b))?;
        rest = front;
    }
    Ok(found)
}

/// As `arrays`, where each bound is there.
#[tactic(auto, using(crate::proofs::ArraysAre::arrays_are))]
fn arrays_of(
    alloc: Global,
    names: &Names,
    at: Place,
    bounds: &[Bound],
    ty: Option<ConcreteType>,
) -> Result<Option<ConcreteType>, NoMemory>
    ensures { IfOk result (λ t. t ≡ spec.plain_arrays names.now at bounds.now ty) }
{
    let mut found = ty;
    let mut rest = bounds;
    while let Some((b, front)) = rest.split_last() {
        found = array_type(alloc, found, bound_value(&names.constants, b, at))?;
        rest = front;
    }
    Ok(found)
}

/// What a declaration gives a name: its base type with what stands round the name. Inside an instance its arguments stand
/// for the adt's parameters. It is missing where a bound or type arguments in it have no meaning.
#[tactic(auto, unfolding(crate::specs::Types::declared))]
pub fn declared(
    alloc: Global,
    names: &Names,
    inside: &Option<Instance>,
    base: &TypeTree,
    dcl: &Dcl,
) -> Result<Option<ConcreteType>, NoMemory>
    ensures { IfOk result (λ t. t ≡ spec.declared names.now inside.now base.now dcl.now) }
{
    let ty = starred(alloc, names, inside, dcl.stars, base)?;
    arrays_of(alloc, names, dcl.at, dcl.bounds.as_slice(), ty)
}

/// An array parameter is a pointer.
fn parameter_arrays(
    alloc: Global,
    names: &Names,
    at: Place,
    bounds: &[Option<Bound>],
    ty: Option<ConcreteType>,
) -> Result<Option<ConcreteType>, NoMemory>
    ensures { IfOk result (λ t. t ≡ spec.parameter_arrays names.now at bounds.now ty) }
{
    match bounds.split_first() {
        None => Ok(ty),
        Some((_, inner)) => {
            let element = arrays(alloc, names, at, inner, ty)?;
            pointer_to(alloc, element)
        }
    }
}

fn parameter_type(
    alloc: Global,
    names: &Names,
    inside: &Option<Instance>,
    parameter: &Parameter,
) -> Result<Option<ConcreteType>, NoMemory>
    ensures { IfOk result (λ t. t ≡ spec.parameter_type names.now inside.now parameter.now) }
{
    match parameter {
        Parameter::Plain {
            at,
            base,
            stars,
            name: _,
            bounds,
        } => {
            let ty = starred(alloc, names, inside, *stars, base)?;
            parameter_arrays(alloc, names, *at, bounds.as_slice(), ty)
        }
        Parameter::OwnPointer { name, .. } => {
            let own = plain(alloc, names, inside, *name)?;
            pointer_to(alloc, own)
        }
        Parameter::OwnValue { name, .. } => plain(alloc, names, inside, *name),
    }
}

#[tactic(auto, using(crate::proofs::TypesAre::lists))]
fn parameter_types(
    alloc: Global,
    names: &Names,
    inside: &Option<Instance>,
    list: &[Parameter],
) -> Result<Option<Items<ConcreteType>>, NoMemory>
    ensures { IfOk result (λ ts. ts ≡ spec.all_of (map (spec.parameter_type names.now inside.now) list.now)) }
{
    let mut types = Items::new(alloc);
    for p in list {
        match parameter_type(alloc, names, inside, p)? {
            None => return Ok(None),
            Some(ty) => types.push(ty)?,
        }
    }
    Ok(Some(types))
}

fn function_of(
    alloc: Global,
    returns: Option<ConcreteType>,
    parameters: Option<Items<ConcreteType>>,
) -> Result<Option<ConcreteType>, NoMemory>
    ensures { IfOk result (λ t. t ≡ spec.function_of returns parameters) }
{
    match returns {
        None => Ok(None),
        Some(returns) => match parameters {
            None => Ok(None),
            Some(parameters) => {
                let returns = Boxed::new(alloc, returns)?;
                Ok(Some(ConcreteType::Function {
                    returns,
                    parameters,
                }))
            }
        },
    }
}

/// The type of a function whose result is the base type with so many stars.
#[tactic(auto, unfolding(crate::specs::Types::function_type))]
pub fn function_type(
    alloc: Global,
    names: &Names,
    inside: &Option<Instance>,
    base: &TypeTree,
    stars: u32,
    list: &[Parameter],
) -> Result<Option<ConcreteType>, NoMemory>
    ensures { IfOk result (λ t. t ≡ spec.function_type names.now inside.now base.now stars list.now) }
{
    let returns = starred(alloc, names, inside, stars, base)?;
    let parameters = parameter_types(alloc, names, inside, list)?;
    function_of(alloc, returns, parameters)
}

fn add_known(names: &mut Names, name: u32, ty: Option<ConcreteType>) -> Result<(), NoMemory>
    ensures { OnOk result (names.new ≡ spec.with_known names.old name ty) }
{
    names.known.insert(name, ty)
}

fn add_enum(names: &mut Names, name: &Option<Name>) -> Result<(), NoMemory>
    ensures { OnOk result (names.new ≡ spec.with_enum names.old name.now) }
{
    match name {
        None => Ok(()),
        Some(n) => add_known(names, n.name, Some(ConcreteType::Basic(BasicType::Int))),
    }
}

/// Adds what an item declares.
#[tactic(auto, unfolding(crate::specs::Types::with_item))]
fn add_item(alloc: Global, names: &mut Names, item: &Item) -> Result<(), NoMemory>
    ensures { OnOk result (names.new ≡ spec.with_item names.old item.now) }
{
    match item {
        Item::Typedef { base, dcl, .. } => {
            let ty = declared(alloc, names, &None, base, dcl)?;
            add_known(names, dcl.name.name, ty)
        }
        Item::FunctionType {
            base,
            stars,
            name,
            parameters,
            ..
        } => {
            let ty = function_type(alloc, names, &None, base, *stars, parameters.as_slice())?;
            add_known(names, name.name, ty)
        }
        Item::Forward { name, .. } => {
            add_known(names, name.name, Some(ConcreteType::Named(name.name)))
        }
        Item::Aggregate { name, .. } => {
            add_known(names, name.name, Some(ConcreteType::Named(name.name)))
        }
        Item::Adt { name, .. } => {
            add_known(names, name.name, Some(ConcreteType::Named(name.name)))
        }
        Item::Enum { name, .. } => add_enum(names, name),
        Item::Declare { .. } | Item::Function { .. } => Ok(()),
    }
}

fn numbers_of(alloc: Global, list: &[Name]) -> Result<Items<u32>, NoMemory>
    ensures { IfOk result (λ ns. ns ≡ map spec.number_of list.now) }
{
    let mut numbers = Items::with_capacity(alloc, list.len())?;
    for n in list {
        numbers.push(n.name)?;
    }
    Ok(numbers)
}

/// Adds an adt, if it has parameters.
fn add_adt(
    alloc: Global,
    adts: &mut ByName<Items<u32>>,
    name: &Name,
    list: &[Name],
) -> Result<(), NoMemory>
    ensures { OnOk result (adts.new ≡ spec.with_adt adts.old name.now list.now) }
{
    match list.split_first() {
        None => Ok(()),
        Some(_) => {
            let parameters = numbers_of(alloc, list)?;
            adts.insert(name.name, parameters)
        }
    }
}

/// Adds the adt with parameters that an item has.
#[tactic(auto, unfolding(crate::specs::Types::with_adt_in))]
fn add_adt_in(alloc: Global, adts: &mut ByName<Items<u32>>, item: &Item) -> Result<(), NoMemory>
    ensures { OnOk result (adts.new ≡ spec.with_adt_in adts.old item.now) }
{
    match item {
        Item::Adt {
            name,
            parameters,
            ..
        } => add_adt(alloc, adts, name, parameters.as_slice()),
        Item::Typedef { .. }
        | Item::FunctionType { .. }
        | Item::Forward { .. }
        | Item::Aggregate { .. }
        | Item::Enum { .. }
        | Item::Declare { .. }
        | Item::Function { .. } => Ok(()),
    }
}

/// The adts with parameters.
fn adts_of(alloc: Global, items: &[Item]) -> Result<ByName<Items<u32>>, NoMemory>
    ensures { IfOk result (λ adts. adts ≡ fold spec.with_adt_in [] items.now) }
{
    let mut adts = ByName::new(alloc);
    for item in items {
        add_adt_in(alloc, &mut adts, item)?;
    }
    Ok(adts)
}

/// Adds what items declare.
fn add_items(alloc: Global, names: &mut Names, items: &[Item]) -> Result<(), NoMemory>
    ensures { OnOk result (names.new ≡ fold spec.with_item names.old items.now) }
{
    for item in items {
        add_item(alloc, names, item)?;
    }
    Ok(())
}

/// What the names of a whole text stand for.
#[tactic(auto, unfolding(crate::specs::Types::names_of))]
pub fn names_of(alloc: Global, tree: &Tree) -> Result<Names, NoMemory>
    ensures { IfOk result (λ names. names ≡ spec.names_of tree.now.items) }
{
    let mut names = Names {
        constants: enum_values(alloc, tree)?,
        adts: adts_of(alloc, tree.items.as_slice())?,
        known: ByName::new(alloc),
    };
    add_items(alloc, &mut names, tree.items.as_slice())?;
    Ok(names)
}
