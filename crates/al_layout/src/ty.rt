//! The types of members.
ghost use Rattle.std.specs.Prelude.{◌≡◌, map, IfOk, option_map, option_and_then};
ghost use Rattle.std.specs.Option.{option_copied};
ghost use Rattle.al_layout.specs.Types as spec;
ghost use Rattle.al_typed.specs.declared.ty.Ty.TheVariants as variant;

use crate::lookup::{form_named, form_of_instance};
use al_base::{Kind, NoMemory};
use al_form::{Forms, MemberType};
use al_items::{Boxed, Items};
use al_poly::ConcreteType;
use al_tree::BasicType;
use al_typed::Ty;
use std::alloc::Global;

fn basic_type(basic: BasicType) -> Ty
    ensures { result ≡ spec.basic_type basic }
{
    match basic {
        BasicType::Byte => Ty::Integer(Kind::Byte),
        BasicType::Sint => Ty::Integer(Kind::Sint),
        BasicType::Usint => Ty::Integer(Kind::Usint),
        BasicType::Int => Ty::Integer(Kind::Int),
        BasicType::Uint => Ty::Integer(Kind::Uint),
        BasicType::Lint => Ty::Integer(Kind::Lint),
        BasicType::Ulint => Ty::Integer(Kind::Ulint),
        BasicType::Void => Ty::Void,
    }
}

fn within(number: Option<&usize>) -> Option<u32>
    ensures { result ≡ option_and_then spec.within (option_copied number.entry) }
{
    match number {
        None => None,
        Some(n) => {
            if *n <= 4_294_967_295 {
                Some(*n as u32)
            } else {
                None
            }
        }
    }
}

/// The number that a form has, where the forms have these numbers.
#[tactic(auto, unfolding(crate::specs::Types::number_of_form))]
pub fn number_of_form(numbers: &[usize], form: Option<usize>) -> Option<u32>
    ensures { result ≡ spec.number_of_form numbers.now form }
{
    match form {
        None => None,
        Some(form) => within(numbers.get(form)),
    }
}

/// The type that has that form.
pub fn type_of_form(numbers: &[usize], form: Option<usize>) -> Option<Ty>
    ensures { result ≡ spec.type_of_form numbers.now form }
{
    match number_of_form(numbers, form) {
        None => None,
        Some(n) => Some(Ty::Aggregate(n)),
    }
}

fn boxed(alloc: Global, ty: Option<Ty>) -> Result<Option<Boxed<Ty>>, NoMemory>
    ensures { IfOk result (λ t. t ≡ ty) }
{
    match ty {
        None => Ok(None),
        Some(ty) => Ok(Some(Boxed::new(alloc, ty)?)),
    }
}

fn pointer_to(alloc: Global, to: Option<Ty>) -> Result<Option<Ty>, NoMemory>
    ensures { IfOk result (λ t. t ≡ option_map variant.Pointer to) }
{
    match boxed(alloc, to)? {
        None => Ok(None),
        Some(to) => Ok(Some(Ty::Pointer(to))),
    }
}

fn chan_of(alloc: Global, element: Option<Ty>, capacity: u32) -> Result<Option<Ty>, NoMemory>
    ensures { IfOk result (λ t. t ≡ spec.chan_of element capacity) }
{
    match boxed(alloc, element)? {
        None => Ok(None),
        Some(element) => Ok(Some(Ty::Chan { element, capacity })),
    }
}

fn array_of(alloc: Global, element: Option<Ty>, count: u32) -> Result<Option<Ty>, NoMemory>
    ensures { IfOk result (λ t. t ≡ spec.array_of element count) }
{
    match boxed(alloc, element)? {
        None => Ok(None),
        Some(element) => Ok(Some(Ty::Array { element, count })),
    }
}

fn tuple_of(parts: Option<Items<Ty>>) -> Option<Ty>
    ensures { result ≡ option_map variant.Tuple parts }
{
    match parts {
        None => None,
        Some(parts) => Some(Ty::Tuple(parts)),
    }
}

fn function_of(
    alloc: Global,
    returns: Option<Ty>,
    parameters: Option<Items<Ty>>,
) -> Result<Option<Ty>, NoMemory>
    ensures { IfOk result (λ t. t ≡ spec.function_of returns parameters) }
{
    match returns {
        None => Ok(None),
        Some(returns) => match parameters {
            None => Ok(None),
            Some(parameters) => {
                let returns = Boxed::new(alloc, returns)?;
                Ok(Some(Ty::Function {
                    returns,
                    parameters,
                }))
            }
        },
    }
}

/// All of the types, if each has a meaning.
#[cycle(resolve)]
#[tactic(auto, using(crate::proofs::TypesAre::lists))]
fn tys_of(
    alloc: Global,
    forms: &Forms,
    numbers: &[usize],
    list: &[ConcreteType],
) -> Result<Option<Items<Ty>>, NoMemory>
    ensures { IfOk result (λ ts. ts ≡ spec.all_of (map (spec.ty_of forms.now numbers.now) list.now)) }
{
    let mut types = Items::new(alloc);
    for t in list {
        match ty_of(alloc, forms, numbers, t)? {
            None => return Ok(None),
            Some(ty) => types.push(ty)?,
        }
    }
    Ok(Some(types))
}

/// The type, where the forms have these numbers. It is missing where a name in it has no form.
#[cycle(resolve)]
#[tactic(auto, using(crate::proofs::TypesAre::ty_is))]
pub fn ty_of(
    alloc: Global,
    forms: &Forms,
    numbers: &[usize],
    t: &ConcreteType,
) -> Result<Option<Ty>, NoMemory>
    ensures { IfOk result (λ ty. ty ≡ spec.ty_of forms.now numbers.now t.now) }
{
    match t {
        ConcreteType::Basic(basic) => Ok(Some(basic_type(*basic))),
        ConcreteType::Named(name) => Ok(type_of_form(numbers, form_named(forms, *name))),
        ConcreteType::Instance { adt, arguments } => Ok(type_of_form(
            numbers,
            form_of_instance(forms, *adt, arguments.as_slice()),
        )),
        ConcreteType::Tuple(parts) => {
            Ok(tuple_of(tys_of(alloc, forms, numbers, parts.as_slice())?))
        }
        ConcreteType::Chan { element, capacity } => {
            let element = ty_of(alloc, forms, numbers, element.get())?;
            chan_of(alloc, element, *capacity)
        }
        ConcreteType::Pointer(to) => {
            let to = ty_of(alloc, forms, numbers, to.get())?;
            pointer_to(alloc, to)
        }
        ConcreteType::Array { element, count } => {
            let element = ty_of(alloc, forms, numbers, element.get())?;
            array_of(alloc, element, *count)
        }
        ConcreteType::Function {
            returns,
            parameters,
        } => {
            let returns = ty_of(alloc, forms, numbers, returns.get())?;
            let parameters = tys_of(alloc, forms, numbers, parameters.as_slice())?;
            function_of(alloc, returns, parameters)
        }
    }
}

/// The type of a member.
pub fn member_ty(
    alloc: Global,
    forms: &Forms,
    numbers: &[usize],
    ty: &MemberType,
) -> Result<Option<Ty>, NoMemory>
    ensures { IfOk result (λ t. t ≡ spec.member_ty forms.now numbers.now ty.now) }
{
    match ty {
        MemberType::Written(None) => Ok(None),
        MemberType::Written(Some(t)) => ty_of(alloc, forms, numbers, t),
        MemberType::Inner(form) => Ok(type_of_form(numbers, Some(*form))),
    }
}
