//! Classes of functions of one type.
ghost use Rattle.std.specs.Prelude.{◌≡◌, IfOk};
ghost use Rattle.al_typed.specs.Typed.{function_type, local_types};
ghost use Rattle.al_meaning.specs.Calls.{has_type};
ghost use Rattle.al_meaning.specs.Here as here;
ghost use Rattle.al_lower_code.specs.Classes as spec;

use al_base::NoMemory;
use al_convert::same;
use al_items::Items;
use al_lower_base::{Spot, slot_behind};
use al_typed::{Function, Local, Program, Ty};
use std::alloc::Global;

/// The types of locals.
fn types_of(alloc: Global, locals: &[Local]) -> Result<Items<Ty>, NoMemory>
    ensures { IfOk result (λ ts. ts ≡ local_types locals.now) }
{
    let mut types = Items::with_capacity(alloc, locals.len())?;
    for local in locals {
        types.push(local.ty.copy(alloc)?)?;
    }
    Ok(types)
}

/// The type of a function.
fn type_of(alloc: Global, f: &Function) -> Result<Ty, NoMemory>
    ensures { IfOk result (λ t. t ≡ function_type f.now) }
{
    let locals = f.locals.as_slice();
    let count = (f.parameters as usize).min(locals.len());
    let parts = locals.split_at(count);
    let parameters = types_of(alloc, parts.0)?;
    let returns = f.returns.boxed(alloc)?;
    Ok(Ty::Function {
        returns,
        parameters,
    })
}

/// Whether a function has this type. A branch of a par has none.
fn is_of_type(alloc: Global, ty: &Ty, f: &Function) -> Result<bool, NoMemory>
    ensures { IfOk result (λ b. b ≡ has_type ty.now f.now.around f.now) }
{
    if !f.around.is_empty() {
        return Ok(false);
    }
    let own = type_of(alloc, f)?;
    Ok(same(false, ty, &own))
}

/// The class of the functions of a type: the number of the first one, or of one behind all where there is none.
pub fn class_number(alloc: Global, p: &Program, ty: &Ty) -> Result<u32, NoMemory>
    ensures { IfOk result (λ number. number ≡ spec.class_number p.now ty.now) }
{
    let mut number: u32 = 0;
    for f in p.functions.as_slice() {
        if is_of_type(alloc, ty, f)? {
            return Ok(number);
        }
        number = slot_behind(number, 1)?;
    }
    Ok(number)
}

/// The class of the functions that a pointer of a type may name.
#[tactic(auto, unfolding(al_meaning::specs::Here::pointee))]
pub fn pointed_class(s: Spot<'_>, ty: &Ty) -> Result<u32, NoMemory>
    ensures { IfOk result (λ number. number ≡ spec.class_number s.entry.program.now (here.pointee ty.now)) }
{
    match ty {
        Ty::Pointer(to) => class_number(s.alloc, s.program, to.get()),
        Ty::Void
        | Ty::Integer(_)
        | Ty::Array { .. }
        | Ty::Chan { .. }
        | Ty::Tuple(_)
        | Ty::Aggregate(_)
        | Ty::Function { .. } => class_number(s.alloc, s.program, &Ty::Void),
    }
}
