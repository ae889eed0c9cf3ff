//! Expressions that change variables or store, and targets.
ghost use Rattle.std.specs.Prelude.{◌≡◌, ◌+◌, ◌++◌, IfOk, OnOk};
ghost use Rattle.al_typed.specs.Layout.{IsLaidOut};
ghost use Rattle.al_typed.specs.Typed.{type_of};
ghost use Rattle.al_lower_code.specs.Actions as acts;
ghost use Rattle.al_lower_code.specs.Expressions as spec;
ghost use Rattle.al_lower_code.specs.Values as values;
ghost use Rattle.al_lower_expr.specs.Stored as stored;
ghost use Rattle.al_lower_forms.specs.Steps as steps;
ghost use Rattle.al_lower_operands.specs.Rows as rows;
ghost use Rattle.al_lower_base.specs.Spots.{spot_of, where_of};

use crate::expr::{operand, place, value};
use al_base::NoMemory;
use al_lower_base::{Code, Spot, Where, home_of, save, slot_behind};
use al_lower_forms::{
    Step, begin_update, change_by, change_constant, end_update, kept, local_at, step_found,
    step_slots,
};
use al_lower_operands::{keeps, place_at};
use al_lower_parts::{count_targets, save_target};
use al_typed::{Change, TExpr, TPlace, TTarget, Ty};

/// The places of targets in a row.
#[cycle(expr)]
fn targets(code: &mut Code, s: Spot<'_>, xs: &[TTarget], to: u32) -> Result<(), NoMemory>
    requires { IsLaidOut s.program.now.aggregates }
    ensures { OnOk result (code.new ≡ code.old ++ (rows.aimed_of (spot_of s.entry) xs.now).code to) }
{
    let mut at = to;
    for x in xs {
        target(code, s, x, at)?;
        at = slot_behind(at, count_targets(s, x)?)?;
    }
    Ok(())
}

/// The places of a target are found, whose addresses stand in one slot each from `to` on.
#[cycle(expr)]
#[tactic(auto, using(al_lower_operands::proofs::Forms::targets_are))]
pub fn target(code: &mut Code, s: Spot<'_>, x: &TTarget, to: u32) -> Result<(), NoMemory>
    requires { IsLaidOut s.program.now.aggregates }
    ensures { OnOk result (code.new ≡ code.old ++ (spec.aimed (spot_of s.entry) x.now).code to) }
{
    match x {
        TTarget::Into(p) => place(code, s, p.get(), true, to),
        TTarget::Dropped(_) => Ok(()),
        TTarget::Parts { parts, .. } => targets(code, s, parts.as_slice(), to),
    }
}

/// A value to a place that has been found, and the slot where it stands then.
#[cycle(expr)]
fn store(
    code: &mut Code,
    s: Spot<'_>,
    ty: &Ty,
    at: Where,
    e: &TExpr,
    to: u32,
) -> Result<u32, NoMemory>
    requires { IsLaidOut s.program.now.aggregates }
    ensures code { OnOk result (code.new ≡ code.old ++ stored.stores (spot_of s.entry) ty.now (where_of at) (spec.coded (spot_of s.entry) e.now) to) }
    ensures slot { IfOk result (λ slot. slot ≡ stored.stored_slot (where_of at) (spec.coded (spot_of s.entry) e.now) to) }
{
    let free = slot_behind(to, 1)?;
    match home_of(at) {
        Some(home) => {
            value(code, s, e, home, free)?;
            Ok(home)
        }
        None => {
            let slot = operand(code, s, e, free)?;
            save(code, s, ty, at, slot)?;
            Ok(slot)
        }
    }
}

/// A place is found, and then the value, which goes there.
#[cycle(expr)]
fn assign_one(
    code: &mut Code,
    s: Spot<'_>,
    ty: &Ty,
    x: &TPlace,
    e: &TExpr,
    to: u32,
) -> Result<u32, NoMemory>
    requires { IsLaidOut s.program.now.aggregates }
    ensures code { OnOk result (code.new ≡ code.old ++ acts.assigns_one (spot_of s.entry) ty.now (spec.placed (spot_of s.entry) x.now) (spec.coded (spot_of s.entry) e.now) to) }
    ensures slot { IfOk result (λ slot. slot ≡ acts.assigned_slot (spec.placed (spot_of s.entry) x.now) (spec.coded (spot_of s.entry) e.now) to) }
{
    let lasting = !keeps(s, e)?;
    place(code, s, x, lasting, to)?;
    let at = place_at(s, x, lasting, to)?;
    store(code, s, ty, at, e, to)
}

/// The places of a target are found, then the value, and then its parts go there.
#[cycle(expr)]
fn assign_parts(
    code: &mut Code,
    s: Spot<'_>,
    x: &TTarget,
    e: &TExpr,
    to: u32,
) -> Result<u32, NoMemory>
    requires { IsLaidOut s.program.now.aggregates }
    ensures code { OnOk result (code.new ≡ code.old ++ acts.assigns_parts (spec.aimed (spot_of s.entry) x.now) (spec.coded (spot_of s.entry) e.now) to) }
    ensures slot { IfOk result (λ slot. slot ≡ to + (spec.aimed (spot_of s.entry) x.now).count) }
{
    target(code, s, x, to)?;
    let from = slot_behind(to, count_targets(s, x)?)?;
    value(code, s, e, from, from)?;
    save_target(code, s, x, to, from)?;
    Ok(from)
}

/// An assignment, and the slot where its value stands then.
#[cycle(expr)]
fn assign(
    code: &mut Code,
    s: Spot<'_>,
    ty: &Ty,
    x: &TTarget,
    e: &TExpr,
    to: u32,
) -> Result<u32, NoMemory>
    requires { IsLaidOut s.program.now.aggregates }
    ensures code { OnOk result (code.new ≡ code.old ++ (acts.assign_coded (spot_of s.entry) ty.now (spec.aimed (spot_of s.entry) x.now) (spec.coded (spot_of s.entry) e.now)).effect to) }
    ensures slot { IfOk result (λ slot. slot ≡ stored.value_slot (spec.aimed (spot_of s.entry) x.now) (spec.coded (spot_of s.entry) e.now) to) }
{
    match x {
        TTarget::Into(p) => assign_one(code, s, ty, p.get(), e, to),
        TTarget::Dropped(_) => assign_parts(code, s, x, e, to),
        TTarget::Parts { .. } => assign_parts(code, s, x, e, to),
    }
}

/// An assignment whose value is wanted from `dest` on, if at all.
#[cycle(expr)]
pub fn assigns(
    code: &mut Code,
    s: Spot<'_>,
    ty: &Ty,
    x: &TTarget,
    e: &TExpr,
    dest: Option<u32>,
    to: u32,
) -> Result<(), NoMemory>
    requires { IsLaidOut s.program.now.aggregates }
    ensures { OnOk result (code.new ≡ code.old ++ steps.wanted (acts.assign_coded (spot_of s.entry) ty.now (spec.aimed (spot_of s.entry) x.now) (spec.coded (spot_of s.entry) e.now)) dest to) }
{
    let slot = assign(code, s, ty, x, e, to)?;
    kept(code, s, ty, dest, slot)
}

/// A local that is given the value of an expression.
pub fn initialize(
    code: &mut Code,
    s: Spot<'_>,
    local: u32,
    e: &TExpr,
    to: u32,
) -> Result<(), NoMemory>
    requires { IsLaidOut s.program.now.aggregates }
    ensures { OnOk result (code.new ≡ code.old ++ acts.assigns_one (spot_of s.entry) (type_of e.now) (values.local_placed (spot_of s.entry) local) (spec.coded (spot_of s.entry) e.now) to) }
{
    let at = local_at(s, local)?;
    store(code, s, e.ty(), at, e, to)?;
    Ok(())
}

/// The right side of `op=`, and what is done with the old value.
#[cycle(expr)]
fn change(
    code: &mut Code,
    s: Spot<'_>,
    ty: &Ty,
    how: Change,
    e: &TExpr,
    new: u32,
    old: u32,
    to: u32,
) -> Result<(), NoMemory>
    requires { IsLaidOut s.program.now.aggregates }
    ensures { OnOk result (code.new ≡ code.old ++ acts.change_code (spot_of s.entry) ty.now how (spec.coded (spot_of s.entry) e.now) new old to) }
{
    if change_constant(code, s, ty, how, e, new, old)? {
        return Ok(());
    }
    let right = operand(code, s, e, to)?;
    change_by(code, s, ty, how, new, old, right)
}

/// `op=` on what stands at a place that has been found. The new value is wanted from `dest` on, if at all.
#[cycle(expr)]
fn update_at(
    code: &mut Code,
    s: Spot<'_>,
    ty: &Ty,
    how: Change,
    e: &TExpr,
    at: Where,
    dest: Option<u32>,
    to: u32,
) -> Result<(), NoMemory>
    requires { IsLaidOut s.program.now.aggregates }
    ensures { OnOk result (code.new ≡ code.old ++ stored.updates_at (spot_of s.entry) ty.now how (spec.coded (spot_of s.entry) e.now) (where_of at) dest to) }
{
    let it = begin_update(code, s, ty, how, e, at, to)?;
    change(code, s, ty, how, e, it.new, it.old, it.free)?;
    end_update(code, s, ty, how, at, it.new)?;
    kept(code, s, ty, dest, it.new)
}

/// `op=`, whose value is wanted from `dest` on, if at all.
#[cycle(expr)]
pub fn update(
    code: &mut Code,
    s: Spot<'_>,
    ty: &Ty,
    x: &TPlace,
    how: Change,
    e: &TExpr,
    dest: Option<u32>,
    to: u32,
) -> Result<(), NoMemory>
    requires { IsLaidOut s.program.now.aggregates }
    ensures { OnOk result (code.new ≡ code.old ++ steps.wanted (acts.update_coded (spot_of s.entry) ty.now (spec.placed (spot_of s.entry) x.now) how (spec.coded (spot_of s.entry) e.now)) dest to) }
{
    let lasting = !keeps(s, e)?;
    place(code, s, x, lasting, to)?;
    let at = place_at(s, x, lasting, to)?;
    update_at(code, s, ty, how, e, at, dest, to)
}

/// `++`, `--` and zerox, whose value is wanted from `dest` on, if at all.
#[cycle(expr)]
pub fn stepped(
    code: &mut Code,
    s: Spot<'_>,
    ty: &Ty,
    how: Step,
    x: &TPlace,
    dest: Option<u32>,
    to: u32,
) -> Result<(), NoMemory>
    requires { IsLaidOut s.program.now.aggregates }
    ensures { OnOk result (code.new ≡ code.old ++ steps.wanted (steps.stepped (spot_of s.entry) ty.now how (spec.placed (spot_of s.entry) x.now)) dest to) }
{
    if step_slots(code, s, ty, how, x, dest, to)? {
        return Ok(());
    }
    place(code, s, x, false, to)?;
    step_found(code, s, ty, how, x, dest, to)
}
