//! Typing rule 18 of shared locals, and types as wholes.
ghost use Rattle.std.specs.Prelude.{◌≡◌, ◌++◌, nat_le, map, IfOk, OnOk};
ghost use Rattle.al_typed.specs.Layout.{IsLaidOut, in_order as ordered, layout};
ghost use Rattle.al_typed.specs.WellTyped as typed;
ghost use Rattle.al_type_function.specs.Locals as spec;

use al_base::{NoMemory, Place};
use al_items::Items;
use al_rules::{TypeFault, ask};
use al_sound_types::{is_sound, types_hold};
use al_typed::{Aggregate, Local, Ty, in_order};
use std::alloc::Global;

fn push_shared(alloc: Global, l: &Local, types: &mut Items<Ty>) -> Result<(), NoMemory>
    ensures { OnOk result (types.new ≡ types.old ++ spec.shared_type l.now) }
{
    if !l.is_shared {
        return Ok(());
    }
    let ty = l.ty.copy(alloc)?;
    types.push(ty)
}

/// The types of the shared ones.
#[tactic(auto, using(crate::proofs::SharedAre::shared_are))]
fn shared_types(alloc: Global, locals: &[Local]) -> Result<Items<Ty>, NoMemory>
    ensures { IfOk result (λ ts. ts ≡ typed.shared_types locals.now) }
{
    let mut types = Items::new(alloc);
    for l in locals {
        push_shared(alloc, l, &mut types)?;
    }
    Ok(types)
}

#[tactic(auto, using(crate::proofs::SharedAre::small_size))]
fn is_small(rows: &[Aggregate], types: &[Ty]) -> bool
    requires { IsLaidOut rows.now }
    ensures { result ≡ nat_le (ordered (map (layout rows.now) types.now)).size 268435456 }
{
    in_order(rows, types).size <= 268_435_456
}

/// 18. A function's shared locals together have at most 2^28 bytes.
fn rule_18_locals(alloc: Global, rows: &[Aggregate], locals: &[Local]) -> Result<bool, NoMemory>
    requires { IsLaidOut rows.now }
    ensures { IfOk result (λ holds. holds ≡ spec.rule_18_locals rows.now locals.now) }
{
    let types = shared_types(alloc, locals)?;
    Ok(is_small(rows, types.as_slice()))
}

/// Asks it of the function or branch at a place.
pub(crate) fn ask_locals(
    alloc: Global,
    rows: &[Aggregate],
    at: Place,
    locals: &[Local],
    faults: &mut Items<TypeFault>,
) -> Result<(), NoMemory>
    requires { IsLaidOut rows.now }
    ensures { OnOk result (faults.new ≡ faults.old ++ spec.locals_faults rows.now at locals.now) }
{
    let holds = rule_18_locals(alloc, rows, locals)?;
    ask(faults, 18, at, holds)
}

/// Asks whether the function or branch at a place may have these locals and write these types.
pub(crate) fn ask_types(
    rows: &[Aggregate],
    at: Place,
    locals: &[Local],
    written: &[Ty],
    faults: &mut Items<TypeFault>,
) -> Result<(), NoMemory>
    requires { IsLaidOut rows.now }
    ensures { OnOk result (faults.new ≡ faults.old ++ spec.types_faults rows.now at locals.now written.now) }
{
    ask(faults, 18, at, types_hold(rows, locals, written))
}

/// Asks whether the function at a place may return that type.
pub(crate) fn ask_result(
    rows: &[Aggregate],
    at: Place,
    returns: &Ty,
    faults: &mut Items<TypeFault>,
) -> Result<(), NoMemory>
    requires { IsLaidOut rows.now }
    ensures { OnOk result (faults.new ≡ faults.old ++ spec.result_faults rows.now at returns.now) }
{
    ask(faults, 18, at, is_sound(rows, returns))
}
