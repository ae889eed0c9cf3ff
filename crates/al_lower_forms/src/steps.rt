//! `++`, `--` and zerox, on variables and on what stands elsewhere.
ghost use Rattle.std.specs.Prelude.{◌≡◌, ◌+◌, ◌++◌, false, IfOk, OnOk};
ghost use Rattle.al_typed.specs.Layout.{IsLaidOut};
ghost use Rattle.al_lower_code.specs.Expressions as code_of;
ghost use Rattle.al_lower_forms.specs.Steps as spec;
ghost use Rattle.al_lower_base.specs.Spots.{spot_of, where_of};

use crate::wanted::kept;
use al_base::NoMemory;
use al_lower_base::{Code, Spot, Where, home_of, slot_behind, words, zeros};
use al_lower_operands::place_at;
use al_lower_parts::{
    clear_stored, clear_variable, gives_old, step_home, step_stored, step_variable,
};
use al_typed::{StepOp, TPlace, Ty};

/// What becomes of what stands at a place.
#[derive(Clone, Copy)]
pub enum Step {
    /// One more, or one less.
    By(StepOp),
    /// It is 0.
    Clear,
}

/// The variable in these slots is changed, and its value is wanted from `dest` on, if at all.
fn step_in(
    code: &mut Code,
    s: Spot<'_>,
    ty: &Ty,
    how: Step,
    home: u32,
    dest: Option<u32>,
    to: u32,
) -> Result<(), NoMemory>
    requires { IsLaidOut s.program.now.aggregates }
    ensures { OnOk result (code.new ≡ code.old ++ spec.wanted (spec.in_variable (spot_of s.entry) ty.now how home) dest to) }
{
    match how {
        Step::By(op) => match dest {
            Some(dest) => step_variable(code, s, ty, op, home, dest, to),
            None => step_home(code, s, ty, op, home, to),
        },
        Step::Clear => match dest {
            Some(dest) => clear_variable(code, s, ty, home, dest, to),
            None => zeros(code, s.line, home, words(s, ty)?),
        },
    }
}

/// A variable that is changed in its slots; says whether the place is one.
pub fn step_slots(
    code: &mut Code,
    s: Spot<'_>,
    ty: &Ty,
    how: Step,
    x: &TPlace,
    dest: Option<u32>,
    to: u32,
) -> Result<bool, NoMemory>
    requires { IsLaidOut s.program.now.aggregates }
    ensures { IfOk result (λ done. spec.InSlots (spot_of s.entry) ty.now how (code_of.placed (spot_of s.entry) x.now) dest to code.old code.new done) }
{
    match home_of(place_at(s, x, false, 0)?) {
        Some(home) => {
            step_in(code, s, ty, how, home, dest, to)?;
            Ok(true)
        }
        None => Ok(false),
    }
}

/// Through which slots the new value of `++` or `--` goes.
fn stepped_slot(s: Spot<'_>, ty: &Ty, op: StepOp, to: u32) -> Result<u32, NoMemory>
    requires { IsLaidOut s.program.now.aggregates }
    ensures { IfOk result (λ slot. slot ≡ spec.stepped_slot (spot_of s.entry) ty.now op to) }
{
    let old = slot_behind(to, 1)?;
    if gives_old(op) {
        return slot_behind(old, words(s, ty)?);
    }
    Ok(old)
}

/// What stands at a place is read, and changed there.
fn step_at(
    code: &mut Code,
    s: Spot<'_>,
    ty: &Ty,
    how: Step,
    at: Where,
    to: u32,
) -> Result<(), NoMemory>
    requires { IsLaidOut s.program.now.aggregates }
    ensures { OnOk result (code.new ≡ code.old ++ spec.step_at (spot_of s.entry) ty.now how (where_of at) to) }
{
    match how {
        Step::By(op) => {
            let new = stepped_slot(s, ty, op, to)?;
            step_stored(code, s, ty, op, at, new, to)
        }
        Step::Clear => clear_stored(code, s, ty, at, to),
    }
}

/// The same for a place that was found in slots from `to` on; its value is wanted from `dest` on, if at all.
pub fn step_found(
    code: &mut Code,
    s: Spot<'_>,
    ty: &Ty,
    how: Step,
    x: &TPlace,
    dest: Option<u32>,
    to: u32,
) -> Result<(), NoMemory>
    requires { IsLaidOut s.program.now.aggregates }
    ensures { OnOk result (code.new ≡ code.old ++ (spec.step_at (spot_of s.entry) ty.now how ((code_of.placed (spot_of s.entry) x.now).at false to) to ++ spec.kept (spot_of s.entry) ty.now dest (to + 1))) }
{
    let at = place_at(s, x, false, to)?;
    step_at(code, s, ty, how, at, to)?;
    kept(code, s, ty, dest, slot_behind(to, 1)?)
}
