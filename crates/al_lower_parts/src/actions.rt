//! The last operations of expressions that change variables, store, call or communicate.
ghost use Rattle.std.specs.Prelude.{◌≡◌, ◌+◌, ◌++◌, ◌∷◌, [], IfOk, OnOk};
ghost use Rattle.al_typed.specs.Layout.{IsLaidOut};
ghost use Rattle.al_meaning.specs.Evaluate.{goes_back};
ghost use Rattle.al_lower_code.specs.Actions as spec;
ghost use Rattle.al_lower_code.specs.Homes as homes;
ghost use Rattle.al_ir.specs.declared.op.Op.TheVariants as op;
ghost use Rattle.al_lower_parts.specs.Parts as parts;
ghost use Rattle.al_lower_base.specs.Spots.{spot_of, where_of};

use al_base::{Kind, NoMemory};
use al_ir::{Op, TalkBranch};
use al_items::Items;
use al_lower_base::{
    Code, Spot, Where, clear, copies, home_of, moves, push, read, save, slot_behind, step, trims,
    units_of, words, zeros,
};
use al_typed::{Change, StepOp, Ty};
use al_variables::kind_of;

/// Whether `++` or `--` gives the old value.
pub fn gives_old(op: StepOp) -> bool
    ensures { result ≡ spec.gives_old op }
{
    match op {
        StepOp::PreIncrement | StepOp::PreDecrement => false,
        StepOp::PostIncrement | StepOp::PostDecrement => true,
    }
}

/// Whether it goes back.
fn is_back(op: StepOp) -> bool
    ensures { result ≡ goes_back op }
{
    match op {
        StepOp::PreIncrement | StepOp::PostIncrement => false,
        StepOp::PreDecrement | StepOp::PostDecrement => true,
    }
}

/// `++` and `--` on a variable in its slots.
pub fn step_home(
    code: &mut Code,
    s: Spot<'_>,
    ty: &Ty,
    op: StepOp,
    home: u32,
    to: u32,
) -> Result<(), NoMemory>
    requires { IsLaidOut s.program.now.aggregates }
    ensures { OnOk result (code.new ≡ code.old ++ spec.steps_home (spot_of s.entry) ty.now op home to) }
{
    step(code, s, is_back(op), ty, home, home, to)
}

/// The value of `++` and `--` on a variable.
pub fn step_variable(
    code: &mut Code,
    s: Spot<'_>,
    ty: &Ty,
    op: StepOp,
    home: u32,
    dest: u32,
    to: u32,
) -> Result<(), NoMemory>
    requires { IsLaidOut s.program.now.aggregates }
    ensures { OnOk result (code.new ≡ code.old ++ (spec.steps_variable (spot_of s.entry) ty.now op home).value dest to) }
{
    let n = words(s, ty)?;
    if gives_old(op) {
        copies(code, s.line, to, home, n)?;
        step_home(code, s, ty, op, home, slot_behind(to, n)?)?;
        return moves(code, s.line, dest, to, n);
    }
    step_home(code, s, ty, op, home, to)?;
    moves(code, s.line, dest, home, n)
}

/// `++` and `--` on what stands at any other place.
pub fn step_stored(
    code: &mut Code,
    s: Spot<'_>,
    ty: &Ty,
    op: StepOp,
    at: Where,
    new: u32,
    to: u32,
) -> Result<(), NoMemory>
    requires { IsLaidOut s.program.now.aggregates }
    ensures { OnOk result (code.new ≡ code.old ++ parts.steps_at (spot_of s.entry) ty.now op (where_of at) new to) }
{
    let old = slot_behind(to, 1)?;
    read(code, s, ty, at, old)?;
    step(
        code,
        s,
        is_back(op),
        ty,
        new,
        old,
        slot_behind(old, words(s, ty)?)?,
    )?;
    save(code, s, ty, at, new)
}

/// The value of a variable, which is 0 then.
pub fn clear_variable(
    code: &mut Code,
    s: Spot<'_>,
    ty: &Ty,
    home: u32,
    dest: u32,
    to: u32,
) -> Result<(), NoMemory>
    requires { IsLaidOut s.program.now.aggregates }
    ensures { OnOk result (code.new ≡ code.old ++ (spec.clears_variable (spot_of s.entry) ty.now home).value dest to) }
{
    let n = words(s, ty)?;
    copies(code, s.line, to, home, n)?;
    zeros(code, s.line, home, n)?;
    moves(code, s.line, dest, to, n)
}

/// The value at any other place, which is 0 then.
pub fn clear_stored(
    code: &mut Code,
    s: Spot<'_>,
    ty: &Ty,
    at: Where,
    to: u32,
) -> Result<(), NoMemory>
    requires { IsLaidOut s.program.now.aggregates }
    ensures { OnOk result (code.new ≡ code.old ++ parts.clears_at (spot_of s.entry) ty.now (where_of at) to) }
{
    let old = slot_behind(to, 1)?;
    read(code, s, ty, at, old)?;
    clear(code, s, ty, at, slot_behind(old, words(s, ty)?)?)
}

/// Whether the operator of `op=` works on the type of the place as it is.
pub fn is_direct(ty: &Ty, how: Change) -> bool
    ensures { result ≡ spec.is_direct ty.now how }
{
    match how {
        Change::Apply { kind, .. } => kind_of(ty).width() == kind.width(),
        Change::Move { .. } => true,
    }
}

/// The slots of the variable that is changed where it stands.
pub fn changed_home(ty: &Ty, how: Change, at: Where) -> Option<u32>
    ensures { result ≡ spec.changed_home ty.now how (where_of at) }
{
    if is_direct(ty, how) {
        home_of(at)
    } else {
        None
    }
}

/// One conversion in place, if the kinds differ.
fn convert_at(code: &mut Code, s: Spot<'_>, from: Kind, into: Kind, at: u32) -> Result<(), NoMemory>
    ensures { OnOk result (code.new ≡ code.old ++ homes.here (spot_of s.entry) (op.Convert from into at at)) }
{
    push(
        code,
        s.line,
        Op::Convert {
            from,
            into,
            to: at,
            of: at,
        },
    )
}

/// The old value as one of the operator's type, where it stands.
pub fn before_change(
    code: &mut Code,
    s: Spot<'_>,
    ty: &Ty,
    how: Change,
    at: u32,
) -> Result<(), NoMemory>
    ensures { OnOk result (code.new ≡ code.old ++ spec.before_change (spot_of s.entry) ty.now how at) }
{
    match how {
        Change::Apply { kind, .. } => {
            if is_direct(ty, how) {
                return Ok(());
            }
            convert_at(code, s, kind_of(ty), kind, at)
        }
        Change::Move { .. } => Ok(()),
    }
}

/// The new value as one of the place's type, where it stands.
pub fn behind_change(
    code: &mut Code,
    s: Spot<'_>,
    ty: &Ty,
    how: Change,
    at: u32,
) -> Result<(), NoMemory>
    ensures { OnOk result (code.new ≡ code.old ++ spec.behind_change (spot_of s.entry) ty.now how at) }
{
    match how {
        Change::Apply { kind, .. } => {
            if is_direct(ty, how) {
                return Ok(());
            }
            convert_at(code, s, kind, kind_of(ty), at)
        }
        Change::Move { .. } => Ok(()),
    }
}

/// A talk of one branch.
pub fn talk(
    code: &mut Code,
    s: Spot<'_>,
    branch: TalkBranch,
    records: u32,
    to: u32,
    got: u32,
) -> Result<(), NoMemory>
    ensures { OnOk result (code.new ≡ code.old ++ homes.here (spot_of s.entry) (op.Talk (branch ∷ []) records to got)) }
{
    let mut branches = Items::new(s.alloc);
    branches.push(branch)?;
    push(
        code,
        s.line,
        Op::Talk {
            branches,
            records,
            to,
            got,
        },
    )
}

/// A value from the channel in a slot.
pub fn receive(
    code: &mut Code,
    s: Spot<'_>,
    ty: &Ty,
    chan: u32,
    dest: u32,
    to: u32,
) -> Result<(), NoMemory>
    requires { IsLaidOut s.program.now.aggregates }
    ensures { OnOk result (code.new ≡ code.old ++ parts.receives (spot_of s.entry) ty.now chan dest to) }
{
    let n = words(s, ty)?;
    let got = slot_behind(to, 6)?;
    let branch = TalkBranch {
        chan,
        words: n,
        send: None,
    };
    talk(
        code,
        s,
        branch,
        slot_behind(to, 2)?,
        slot_behind(to, 1)?,
        got,
    )?;
    let units = units_of(s, ty)?;
    trims(code, s.line, got, &units)?;
    moves(code, s.line, dest, got, n)
}

/// A value of a type in slots to a channel.
pub fn send(
    code: &mut Code,
    s: Spot<'_>,
    ty: &Ty,
    chan: u32,
    from: u32,
    to: u32,
) -> Result<(), NoMemory>
    requires { IsLaidOut s.program.now.aggregates }
    ensures { OnOk result (code.new ≡ code.old ++ parts.sends (spot_of s.entry) ty.now chan from to) }
{
    let n = words(s, ty)?;
    let went = slot_behind(slot_behind(to, 1)?, n)?;
    let branch = TalkBranch {
        chan,
        words: n,
        send: Some(from),
    };
    talk(code, s, branch, slot_behind(went, 1)?, went, went)
}
