//! `op=`, before and behind its right side.
ghost use Rattle.std.specs.Prelude.{◌≡◌, ◌+◌, ◌++◌, None, if◌then◌else◌, IfOk, OnOk};
ghost use Rattle.al_typed.specs.Layout.{IsLaidOut};
ghost use Rattle.al_typed.specs.declared.ty.Ty.{Ty as TySpec};
ghost use Rattle.al_typed.specs.declared.expression.Change.TheVariants as change;
ghost use Rattle.al_lower_code.specs.Expressions as code_of;
ghost use Rattle.al_lower_forms.specs.Updates as spec;
ghost use Rattle.al_lower_base.specs.Spots.{spot_of, where_of};

use crate::joins::advance;
use crate::pieces::offset;
use al_base::{Kind, NoMemory};
use al_lower_base::{
    Code, Spot, Where, copies, operator, operator_by, push, read, save, slot_behind, words,
};
use al_lower_operands::{keeps, known};
use al_lower_parts::{before_change, behind_change, changed_home, constant_right, pointee_bytes};
use al_typed::{BinaryOp, Change, TExpr, Ty};

/// An operator whose right side is a constant that it takes; says whether it is.
fn apply_constant(
    code: &mut Code,
    s: Spot<'_>,
    op: BinaryOp,
    kind: Kind,
    e: &TExpr,
    new: u32,
    old: u32,
) -> Result<bool, NoMemory>
    requires { IsLaidOut s.program.now.aggregates }
    ensures { (t : TySpec) → IfOk result (λ done. spec.ByConstant (spot_of s.entry) t (change.Apply op kind) (code_of.coded (spot_of s.entry) e.now) new old code.old code.new done) }
{
    match constant_right(s, op, kind, e)? {
        Some(word) => {
            push(code, s.line, operator_by(op, kind, new, old, word))?;
            Ok(true)
        }
        None => Ok(false),
    }
}

/// A pointer that moves by a known count of elements; says whether it is.
fn move_constant(
    code: &mut Code,
    s: Spot<'_>,
    ty: &Ty,
    back: bool,
    e: &TExpr,
    new: u32,
    old: u32,
) -> Result<bool, NoMemory>
    requires { IsLaidOut s.program.now.aggregates }
    ensures { IfOk result (λ done. spec.ByConstant (spot_of s.entry) ty.now (change.Move back) (code_of.coded (spot_of s.entry) e.now) new old code.old code.new done) }
{
    match known(s, e)? {
        Some(count) => {
            let size = pointee_bytes(s, ty)?;
            offset(code, s, back, size, count, new, old)?;
            Ok(true)
        }
        None => Ok(false),
    }
}

/// A change by a constant right side, where its operation takes one; says whether it does.
pub fn change_constant(
    code: &mut Code,
    s: Spot<'_>,
    ty: &Ty,
    how: Change,
    e: &TExpr,
    new: u32,
    old: u32,
) -> Result<bool, NoMemory>
    requires { IsLaidOut s.program.now.aggregates }
    ensures { IfOk result (λ done. spec.ByConstant (spot_of s.entry) ty.now how (code_of.coded (spot_of s.entry) e.now) new old code.old code.new done) }
{
    match how {
        Change::Apply { op, kind } => apply_constant(code, s, op, kind, e, new, old),
        Change::Move { back } => move_constant(code, s, ty, back, e, new, old),
    }
}

/// A change by a right side that stands in slots.
pub fn change_by(
    code: &mut Code,
    s: Spot<'_>,
    ty: &Ty,
    how: Change,
    new: u32,
    old: u32,
    right: u32,
) -> Result<(), NoMemory>
    requires { IsLaidOut s.program.now.aggregates }
    ensures { OnOk result (code.new ≡ code.old ++ spec.change_by (spot_of s.entry) ty.now how new old right) }
{
    match how {
        Change::Apply { op, kind } => push(code, s.line, operator(op, kind, new, old, right)),
        Change::Move { back } => advance(code, s, back, pointee_bytes(s, ty)?, new, old, right),
    }
}

/// Where the old value of what is changed stands, where the new one comes to stand, and the slots that are free.
#[derive(Clone, Copy)]
pub struct Changing {
    pub new: u32,
    pub old: u32,
    pub free: u32,
}

/// A variable in slots that is changed by an expression: it is read where it stands, unless the expression may change it.
fn begin_home(
    code: &mut Code,
    s: Spot<'_>,
    ty: &Ty,
    e: &TExpr,
    home: u32,
    to: u32,
) -> Result<u32, NoMemory>
    requires { IsLaidOut s.program.now.aggregates }
    ensures code { OnOk result (code.new ≡ code.old ++ spec.opens_home (spot_of s.entry) ty.now (code_of.coded (spot_of s.entry) e.now) home to) }
    ensures old { IfOk result (λ slot. slot ≡ spec.home_old (code_of.coded (spot_of s.entry) e.now) home to) }
{
    if keeps(s, e)? {
        return Ok(home);
    }
    let old = slot_behind(to, 1)?;
    copies(code, s.line, old, home, words(s, ty)?)?;
    Ok(old)
}

/// What stands at any other place is read.
fn begin_stored(
    code: &mut Code,
    s: Spot<'_>,
    ty: &Ty,
    how: Change,
    at: Where,
    to: u32,
) -> Result<u32, NoMemory>
    requires { IsLaidOut s.program.now.aggregates }
    ensures code { OnOk result (code.new ≡ code.old ++ spec.opens_stored (spot_of s.entry) ty.now how (where_of at) to) }
    ensures old { IfOk result (λ slot. slot ≡ to + 1) }
{
    let old = slot_behind(to, 1)?;
    read(code, s, ty, at, old)?;
    before_change(code, s, ty, how, old)?;
    Ok(old)
}

/// What stands at a place that is changed by an expression is read, where that has to be.
pub fn begin_update(
    code: &mut Code,
    s: Spot<'_>,
    ty: &Ty,
    how: Change,
    e: &TExpr,
    at: Where,
    to: u32,
) -> Result<Changing, NoMemory>
    requires { IsLaidOut s.program.now.aggregates }
    ensures code { OnOk result (code.new ≡ code.old ++ spec.opens (spot_of s.entry) ty.now how (code_of.coded (spot_of s.entry) e.now) (where_of at) to) }
    ensures new { IfOk result (λ it. it.new ≡ spec.new_slot ty.now how (where_of at) to) }
    ensures old { IfOk result (λ it. it.old ≡ spec.old_slot ty.now how (code_of.coded (spot_of s.entry) e.now) (where_of at) to) }
    ensures free { IfOk result (λ it. it.free ≡ to + 3) }
{
    let free = slot_behind(to, 3)?;
    match changed_home(ty, how, at) {
        Some(home) => {
            let old = begin_home(code, s, ty, e, home, to)?;
            Ok(Changing {
                new: home,
                old,
                free,
            })
        }
        None => {
            let old = begin_stored(code, s, ty, how, at, to)?;
            Ok(Changing {
                new: old,
                old,
                free,
            })
        }
    }
}

/// The new value, which stands from `new` on, goes to its place, where it does not stand there.
pub fn end_update(
    code: &mut Code,
    s: Spot<'_>,
    ty: &Ty,
    how: Change,
    at: Where,
    new: u32,
) -> Result<(), NoMemory>
    requires { IsLaidOut s.program.now.aggregates }
    ensures { OnOk result (code.new ≡ code.old ++ spec.closes (spot_of s.entry) ty.now how (where_of at) new) }
{
    match changed_home(ty, how, at) {
        Some(_) => Ok(()),
        None => {
            behind_change(code, s, ty, how, new)?;
            save(code, s, ty, at, new)
        }
    }
}
