//! Which function a value names.
ghost use Rattle.std.specs.Prelude.{◌≡◌, ◌≢◌, ℕ, Some, IfOk, IfSome, IfNone};
ghost use Rattle.al_typed.specs.Typed.{function_type, local_types};
ghost use Rattle.al_meaning.specs.Calls as spec;
ghost use Rattle.al_meaning.specs.Here as here;
ghost use Rattle.al_meaning.specs.Places.{function_address, function_at};
ghost use Rattle.al_walk_calls.specs.Names.{of_type};

use crate::rows::is_numbered;
use al_base::NoMemory;
use al_convert::{pointed, same};
use al_items::Items;
use al_typed::{Function, Local, Program, Ty};
use std::alloc::Global;

/// The types of locals.
fn types_of(alloc: Global, locals: &[Local]) -> Result<Items<Ty>, NoMemory>
    ensures { IfOk result (λ ts. ts ≡ local_types locals.now) }
{
    let mut types = Items::with_capacity(alloc, locals.len())?;
    for local in locals {
        types.push(local.ty.copy(alloc)?)?;
    }
    Ok(types)
}

/// The type of a function.
fn type_of(alloc: Global, f: &Function) -> Result<Ty, NoMemory>
    ensures { IfOk result (λ t. t ≡ function_type f.now) }
{
    let locals = f.locals.as_slice();
    let count = (f.parameters as usize).min(locals.len());
    let parts = locals.split_at(count);
    let parameters = types_of(alloc, parts.0)?;
    let returns = f.returns.boxed(alloc)?;
    Ok(Ty::Function {
        returns,
        parameters,
    })
}

/// Whether a function has this type. A branch of a par has none.
fn has_type(alloc: Global, ty: &Ty, f: &Function) -> Result<bool, NoMemory>
    ensures { IfOk result (λ b. b ≡ spec.has_type ty.now f.now.around f.now) }
{
    if !f.around.is_empty() {
        return Ok(false);
    }
    let own = type_of(alloc, f)?;
    Ok(same(false, ty, &own))
}

/// The number whose function has this address, where one may.
fn number_at(value: u32) -> Option<u32>
    ensures at { IfSome result (λ n. value ≡ function_address n) }
    ensures none { IfNone result ((n : ℕ) → value ≢ function_address n) }
{
    if value < 0x0800_0000 {
        return None;
    }
    let behind = value - 0x0800_0000;
    if behind % 4 != 0 {
        return None;
    }
    Some(behind / 4)
}

/// The number of a function, where it has this type.
fn numbered(
    alloc: Global,
    ty: &Ty,
    number: u32,
    function: &Function,
) -> Result<Option<u32>, NoMemory>
    ensures { IfOk result (λ n. n ≡ of_type ty.now number (Some function.now)) }
{
    let is_so = has_type(alloc, ty, function)?;
    if is_so { Ok(Some(number)) } else { Ok(None) }
}

/// That number, where the function of it has this type.
fn named_at(alloc: Global, ty: &Ty, number: u32, p: &Program) -> Result<Option<u32>, NoMemory>
    ensures { IfOk result (λ n. n ≡ of_type ty.now number (function_at p.now number)) }
{
    if is_numbered(p, number) {
        let functions = p.functions.as_slice();
        let at = number as usize;
        let found = numbered(alloc, ty, number, &functions[at])?;
        Ok(found)
    } else {
        Ok(None)
    }
}

/// The number of the function that a value names, where it has this type.
fn named_of_type(alloc: Global, ty: &Ty, value: u32, p: &Program) -> Result<Option<u32>, NoMemory>
    ensures { IfOk result (λ n. n ≡ spec.named_by ty.now value 0 p.now.functions) }
{
    match number_at(value) {
        None => Ok(None),
        Some(number) => named_at(alloc, ty, number, p),
    }
}

/// The number of the function that a pointer's value names, where the pointer's type is one to its type.
pub fn named_by(
    alloc: Global,
    pointer: &Ty,
    value: u32,
    p: &Program,
) -> Result<Option<u32>, NoMemory>
    ensures { IfOk result (λ n. n ≡ spec.named_by (here.pointee pointer.now) value 0 p.now.functions) }
{
    match pointed(pointer) {
        None => Ok(None),
        Some(to) => named_of_type(alloc, to, value, p),
    }
}
