//! The elements of the channel types that a text names.
ghost use Rattle.std.specs.Prelude.{◌≡◌, IfOk, OnOk};
ghost use Rattle.al_elements.specs.Elements.{each};
ghost use Rattle.al_elements.specs.Named as spec;

use crate::element::{all_elements_in, elements_in};
use al_base::NoMemory;
use al_environment::{Environment, InstanceType, MemberNames, NamedFunction, Signature, Variable};
use al_items::Items;
use al_typed::{Aggregate, Function, Local, Ty};
use std::alloc::Global;

/// Those in a type that may be missing.
fn in_optional(alloc: Global, ty: &Option<Ty>, list: &mut Items<Ty>) -> Result<(), NoMemory>
    ensures { OnOk result (list.new ≡ spec.in_optional ty.now list.old) }
{
    match ty {
        None => Ok(()),
        Some(ty) => elements_in(alloc, ty, list),
    }
}

/// Those in the types of a function.
fn in_signature(alloc: Global, s: &Signature, list: &mut Items<Ty>) -> Result<(), NoMemory>
    ensures { OnOk result (list.new ≡ spec.in_signature s.now list.old) }
{
    elements_in(alloc, &s.returns, list)?;
    all_elements_in(alloc, s.parameters.as_slice(), list)
}

/// Those in the types of members.
fn in_members(alloc: Global, row: &Aggregate, list: &mut Items<Ty>) -> Result<(), NoMemory>
    ensures { OnOk result (list.new ≡ spec.in_members row.now list.old) }
{
    match &row.members {
        None => Ok(()),
        Some(members) => all_elements_in(alloc, members.as_slice(), list),
    }
}

fn in_functions(
    alloc: Global,
    functions: &[NamedFunction],
    list: &mut Items<Ty>,
) -> Result<(), NoMemory>
    ensures { OnOk result (list.new ≡ each spec.in_function functions.now list.old) }
{
    for function in functions {
        in_signature(alloc, &function.signature, list)?;
    }
    Ok(())
}

// ---- what items declare

fn in_types(alloc: Global, types: &[Option<Ty>], list: &mut Items<Ty>) -> Result<(), NoMemory>
    ensures { OnOk result (list.new ≡ each spec.in_optional types.now list.old) }
{
    for ty in types {
        in_optional(alloc, ty, list)?;
    }
    Ok(())
}

fn in_globals(alloc: Global, globals: &[Variable], list: &mut Items<Ty>) -> Result<(), NoMemory>
    ensures { OnOk result (list.new ≡ each spec.in_global globals.now list.old) }
{
    for global in globals {
        elements_in(alloc, &global.ty, list)?;
    }
    Ok(())
}

fn in_signatures(
    alloc: Global,
    functions: &[Signature],
    list: &mut Items<Ty>,
) -> Result<(), NoMemory>
    ensures { OnOk result (list.new ≡ each spec.in_signature functions.now list.old) }
{
    for s in functions {
        in_signature(alloc, s, list)?;
    }
    Ok(())
}

fn in_names(alloc: Global, names: &[MemberNames], list: &mut Items<Ty>) -> Result<(), NoMemory>
    ensures { OnOk result (list.new ≡ each spec.in_names names.now list.old) }
{
    for named in names {
        in_functions(alloc, named.functions.as_slice(), list)?;
    }
    Ok(())
}

fn in_instances(
    alloc: Global,
    instances: &[InstanceType],
    list: &mut Items<Ty>,
) -> Result<(), NoMemory>
    ensures { OnOk result (list.new ≡ each spec.in_instance instances.now list.old) }
{
    for instance in instances {
        all_elements_in(alloc, instance.arguments.as_slice(), list)?;
    }
    Ok(())
}

fn in_rows(alloc: Global, rows: &[Aggregate], list: &mut Items<Ty>) -> Result<(), NoMemory>
    ensures { OnOk result (list.new ≡ each spec.in_members rows.now list.old) }
{
    for row in rows {
        in_members(alloc, row, list)?;
    }
    Ok(())
}

/// Those in what items declare.
#[tactic(auto, unfolding(crate::specs::Named::in_environment))]
fn in_environment(alloc: Global, env: &Environment, list: &mut Items<Ty>) -> Result<(), NoMemory>
    ensures { OnOk result (list.new ≡ spec.in_environment env.now list.old) }
{
    in_types(alloc, env.types.as_slice(), list)?;
    in_globals(alloc, env.globals.as_slice(), list)?;
    in_signatures(alloc, env.functions.as_slice(), list)?;
    in_names(alloc, env.names.as_slice(), list)?;
    in_instances(alloc, env.instances.as_slice(), list)?;
    in_rows(alloc, env.aggregates.as_slice(), list)
}

// ---- what bodies declare

fn in_locals(alloc: Global, locals: &[Local], list: &mut Items<Ty>) -> Result<(), NoMemory>
    ensures { OnOk result (list.new ≡ each spec.in_local locals.now list.old) }
{
    for local in locals {
        elements_in(alloc, &local.ty, list)?;
    }
    Ok(())
}

fn in_body(alloc: Global, function: &Function, list: &mut Items<Ty>) -> Result<(), NoMemory>
    ensures { OnOk result (list.new ≡ spec.in_body function.now list.old) }
{
    elements_in(alloc, &function.returns, list)?;
    in_locals(alloc, function.locals.as_slice(), list)
}

fn in_bodies(alloc: Global, functions: &[Function], list: &mut Items<Ty>) -> Result<(), NoMemory>
    ensures { OnOk result (list.new ≡ each spec.in_body functions.now list.old) }
{
    for function in functions {
        in_body(alloc, function, list)?;
    }
    Ok(())
}

/// The elements of the channel types that a text names, each as often as it is named: in what its items declare, in the
/// functions of its program, and in the types that are written in initializers and in bodies.
///
/// Types inside an adt with parameters that has no instance do not count.
#[tactic(auto, unfolding(crate::specs::Named::elements))]
pub fn elements(
    alloc: Global,
    env: &Environment,
    functions: &[Function],
    initial: &[Ty],
    written: &[Ty],
) -> Result<Items<Ty>, NoMemory>
    ensures { IfOk result (λ list. list ≡ spec.elements env.now functions.now initial.now written.now) }
{
    let mut list = Items::new(alloc);
    in_environment(alloc, env, &mut list)?;
    in_bodies(alloc, functions, &mut list)?;
    all_elements_in(alloc, initial, &mut list)?;
    all_elements_in(alloc, written, &mut list)?;
    Ok(list)
}
