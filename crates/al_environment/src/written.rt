//! What written types are.
ghost use Rattle.std.specs.Prelude.{◌≡◌, map, IfOk, option_map, option_and_then};
ghost use Rattle.al_environment.specs.Lookups.{instance_type as named_instance};
ghost use Rattle.al_environment.specs.Written as spec;
ghost use Rattle.al_typed.specs.declared.ty.Ty.TheVariants as ty;

use crate::environment::{Environment, Here};
use crate::lookup::{instance_type, plain_type};
use al_base::{Kind, NoMemory, Place};
use al_items::{Boxed, Items};
use al_tree::{BasicType, Bound, TypeTree, bound_value};
use al_typed::Ty;
use std::alloc::Global;

fn basic_type(basic: BasicType) -> Ty
    ensures { result ≡ spec.basic_type basic }
{
    match basic {
        BasicType::Byte => Ty::Integer(Kind::Byte),
        BasicType::Sint => Ty::Integer(Kind::Sint),
        BasicType::Usint => Ty::Integer(Kind::Usint),
        BasicType::Int => Ty::Integer(Kind::Int),
        BasicType::Uint => Ty::Integer(Kind::Uint),
        BasicType::Lint => Ty::Integer(Kind::Lint),
        BasicType::Ulint => Ty::Integer(Kind::Ulint),
        BasicType::Void => Ty::Void,
    }
}

fn capacity(env: &Environment, at: Place, bound: &Option<Bound>) -> Option<u32>
    ensures { result ≡ spec.capacity env.now at bound.now }
{
    match bound {
        None => Some(0),
        Some(b) => bound_value(&env.scopes.constants, b, at),
    }
}

fn chan_type(
    alloc: Global,
    element: Option<Ty>,
    capacity: Option<u32>,
) -> Result<Option<Ty>, NoMemory>
    ensures { IfOk result (λ t. t ≡ spec.chan_type element capacity) }
{
    match element {
        None => Ok(None),
        Some(element) => match capacity {
            None => Ok(None),
            Some(capacity) => {
                let element = Boxed::new(alloc, element)?;
                Ok(Some(Ty::Chan { element, capacity }))
            }
        },
    }
}

fn array_type(
    alloc: Global,
    element: Option<Ty>,
    count: Option<u32>,
) -> Result<Option<Ty>, NoMemory>
    ensures { IfOk result (λ t. t ≡ spec.array_type element count) }
{
    match element {
        None => Ok(None),
        Some(element) => match count {
            None => Ok(None),
            Some(count) => {
                let element = Boxed::new(alloc, element)?;
                Ok(Some(Ty::Array { element, count }))
            }
        },
    }
}

fn pointer_to(alloc: Global, to: Option<Ty>) -> Result<Option<Ty>, NoMemory>
    ensures { IfOk result (λ t. t ≡ option_map ty.Pointer to) }
{
    match to {
        None => Ok(None),
        Some(to) => Ok(Some(Ty::Pointer(Boxed::new(alloc, to)?))),
    }
}

fn instance_of(env: &Environment, name: u32, arguments: Option<Items<Ty>>) -> Option<Ty>
    ensures { result ≡ option_and_then (named_instance env.now name) arguments }
{
    match arguments {
        None => None,
        Some(arguments) => instance_type(env, name, arguments.as_slice()),
    }
}

/// All of the types, if each has a meaning.
#[cycle(written)]
#[tactic(auto, using(crate::proofs::WrittenIs::lists))]
fn all_written(
    alloc: Global,
    env: &Environment,
    here: &Here,
    list: &[TypeTree],
) -> Result<Option<Items<Ty>>, NoMemory>
    ensures { IfOk result (λ ts. ts ≡ spec.all_of (map (spec.written env.now here.now) list.now)) }
{
    let mut types = Items::new(alloc);
    for t in list {
        match written_type(alloc, env, here, t)? {
            None => return Ok(None),
            Some(ty) => types.push(ty)?,
        }
    }
    Ok(Some(types))
}

/// What a name with these type arguments, or without any, stands for.
#[cycle(written)]
fn type_named(
    alloc: Global,
    env: &Environment,
    here: &Here,
    name: u32,
    arguments: &[TypeTree],
) -> Result<Option<Ty>, NoMemory>
    ensures { IfOk result (λ t. t ≡ spec.type_named env.now here.now name (map (spec.written env.now here.now) arguments.now)) }
{
    match arguments.split_first() {
        None => plain_type(alloc, env, here, name),
        Some(_) => {
            let types = all_written(alloc, env, here, arguments)?;
            Ok(instance_of(env, name, types))
        }
    }
}

/// What a written type is where it stands. It is missing where a name in it stands for no type here, where its type arguments
/// name no instance, or where a bound in it has no value from 0 to 2^32 - 1.
#[cycle(written)]
#[tactic(auto, using(crate::proofs::WrittenIs::written_is))]
pub fn written_type(
    alloc: Global,
    env: &Environment,
    here: &Here,
    t: &TypeTree,
) -> Result<Option<Ty>, NoMemory>
    ensures { IfOk result (λ ty. ty ≡ spec.written env.now here.now t.now) }
{
    match t {
        TypeTree::Basic { basic, .. } => Ok(Some(basic_type(*basic))),
        TypeTree::Named {
            name,
            arguments,
            ..
        } => type_named(alloc, env, here, *name, arguments.as_slice()),
        TypeTree::Tuple { parts, .. } => match all_written(alloc, env, here, parts.as_slice())? {
            None => Ok(None),
            Some(types) => Ok(Some(Ty::Tuple(types))),
        },
        TypeTree::Chan {
            at,
            element,
            capacity: bound,
        } => {
            let element = written_type(alloc, env, here, element.get())?;
            chan_type(alloc, element, capacity(env, *at, bound))
        }
        TypeTree::Pointer { to, .. } => {
            let to = written_type(alloc, env, here, to.get())?;
            pointer_to(alloc, to)
        }
        TypeTree::Array { at, bound, element } => {
            let element = written_type(alloc, env, here, element.get())?;
            array_type(
                alloc,
                element,
                bound_value(&env.scopes.constants, bound, *at),
            )
        }
    }
}
