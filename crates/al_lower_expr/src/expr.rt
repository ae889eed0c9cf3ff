//! The operations of every expression and place, from those of their parts.
ghost use Rattle.std.specs.Prelude.{◌≡◌, ◌+◌, ◌++◌, if◌then◌else◌, IfOk, OnOk};
ghost use Rattle.al_typed.specs.Layout.{IsLaidOut};
ghost use Rattle.al_lower_code.specs.Coded.{operand_code, operand_slot, first_code, first_slot};
ghost use Rattle.al_lower_code.specs.Expressions as spec;
ghost use Rattle.al_lower_operands.specs.Rows as rows;
ghost use Rattle.al_lower_base.specs.Spots.{spot_of};

use crate::actions::{assigns, stepped, update};
use crate::calls::{call, call_pointer, print_value};
use crate::forms::{
    changed_value, element, found, joined, move_value, sequence_effect, sequence_value, taken,
    tuple_value, used,
};
use crate::operators::{binary_value, logical_unless, logical_value, unary_value};
use al_base::NoMemory;
use al_lower_base::{Code, Spot, slot_behind, words};
use al_lower_forms::{Find, Form, Join, Step, Take, Use, compares_words, form_of};
use al_lower_operands::{keeps, stands};
use al_lower_parts::{constant, global, skips_known, turn};
use al_typed::{TExpr, TPlace};

/// The value of an expression, which comes to stand in slots from `dest` on. Slots from `to` on are free.
#[cycle(expr)]
pub fn value(code: &mut Code, s: Spot<'_>, e: &TExpr, dest: u32, to: u32) -> Result<(), NoMemory>
    requires { IsLaidOut s.program.now.aggregates }
    ensures { OnOk result (code.new ≡ code.old ++ (spec.coded (spot_of s.entry) e.now).value dest to) }
{
    match form_of(s, e)? {
        Form::Folded(bits) => constant(code, s, e.ty(), bits, dest),
        Form::Part(of) => value(code, s, of, dest, to),
        Form::Open => match e {
            TExpr::Load { ty, place } => found(code, s, place.get(), Find::Read(ty), dest, to),
            TExpr::Decay { place, .. } => found(code, s, place.get(), Find::Address, dest, to),
            TExpr::Address { place, .. } => found(code, s, place.get(), Find::Address, dest, to),
            TExpr::Unary { ty, op, of } => unary_value(code, s, ty, *op, of.get(), dest, to),
            TExpr::Not { of, .. } => used(code, s, of.get(), Use::Negate, dest, to),
            TExpr::Binary {
                op,
                kind,
                left,
                right,
                ..
            } => binary_value(code, s, *op, *kind, left.get(), right.get(), dest, to),
            TExpr::Logical {
                op,
                left,
                right,
                ..
            } => logical_value(code, s, *op, left.get(), right.get(), dest, to),
            TExpr::Move {
                ty,
                movement,
                pointer,
                count,
            } => move_value(code, s, ty, *movement, pointer.get(), count.get(), dest, to),
            TExpr::Difference { left, right, .. } => {
                joined(code, s, left.get(), right.get(), Join::Between, dest, to)
            }
            TExpr::Assign { ty, target, value } => {
                assigns(code, s, ty, target.get(), value.get(), Some(dest), to)
            }
            TExpr::Update {
                ty,
                place,
                change,
                value,
            } => update(
                code,
                s,
                ty,
                place.get(),
                *change,
                value.get(),
                Some(dest),
                to,
            ),
            TExpr::Step { ty, op, place } => {
                stepped(code, s, ty, Step::By(*op), place.get(), Some(dest), to)
            }
            TExpr::Zerox { ty, place } => {
                stepped(code, s, ty, Step::Clear, place.get(), Some(dest), to)
            }
            TExpr::Tuple { ty, parts } => tuple_value(code, s, ty, parts.as_slice(), dest, to),
            TExpr::Call {
                ty,
                function,
                receiver,
                arguments,
            } => call(code, s, *function, receiver, arguments, ty, Some(dest), to),
            TExpr::CallPointer {
                ty,
                pointer,
                arguments,
            } => call_pointer(code, s, ty, pointer.get(), arguments, Some(dest), to),
            TExpr::Print {
                ty,
                format,
                arguments,
            } => print_value(code, s, ty, format, arguments, dest, to),
            TExpr::Terminate { status, .. } => used(
                code,
                s,
                status.get(),
                Use::Terminate,
                dest,
                to,
            ),
            TExpr::Receive { ty, chan } => used(code, s, chan.get(), Use::Receive(ty), dest, to),
            TExpr::Send { chan, value, .. } => {
                joined(code, s, chan.get(), value.get(), Join::Send, dest, to)
            }
            TExpr::CanReceive { chan, .. } => used(code, s, chan.get(), Use::CanReceive, dest, to),
            TExpr::CanSend { chan, .. } => used(code, s, chan.get(), Use::CanSend, dest, to),
            TExpr::MemberOf { ty, value, path } => {
                let path = path.as_slice();
                taken(code, s, value.get(), Take::Member { ty, path }, dest, to)
            }
            TExpr::Cast { ty, of } | TExpr::Convert { ty, of } => {
                changed_value(code, s, ty, of.get(), dest, to)
            }
            TExpr::Sequence { first, last, .. } => {
                sequence_value(code, s, first.as_slice(), last.get(), dest, to)
            }
            TExpr::Iterator { number, .. } => turn(code, s, *number, dest),
            TExpr::Constant { .. }
            | TExpr::Text { .. }
            | TExpr::Nil { .. }
            | TExpr::Function { .. }
            | TExpr::SizeofType { .. } => Ok(()),
            TExpr::SizeofPlace { .. } => Ok(()),
            TExpr::SizeofValue { .. } => Ok(()),
        },
    }
}

/// An expression whose value is dropped.
#[cycle(expr)]
pub fn effect(code: &mut Code, s: Spot<'_>, e: &TExpr, to: u32) -> Result<(), NoMemory>
    requires { IsLaidOut s.program.now.aggregates }
    ensures { OnOk result (code.new ≡ code.old ++ (spec.coded (spot_of s.entry) e.now).effect to) }
{
    match form_of(s, e)? {
        Form::Folded(_) => Ok(()),
        Form::Part(of) => effect(code, s, of, to),
        Form::Open => match e {
            TExpr::Assign { ty, target, value } => {
                assigns(code, s, ty, target.get(), value.get(), None, to)
            }
            TExpr::Update {
                ty,
                place,
                change,
                value,
            } => update(code, s, ty, place.get(), *change, value.get(), None, to),
            TExpr::Step { ty, op, place } => {
                stepped(code, s, ty, Step::By(*op), place.get(), None, to)
            }
            TExpr::Zerox { ty, place } => stepped(code, s, ty, Step::Clear, place.get(), None, to),
            TExpr::Call {
                ty,
                function,
                receiver,
                arguments,
            } => call(code, s, *function, receiver, arguments, ty, None, to),
            TExpr::CallPointer {
                ty,
                pointer,
                arguments,
            } => call_pointer(code, s, ty, pointer.get(), arguments, None, to),
            TExpr::Sequence { first, last, .. } => {
                sequence_effect(code, s, first.as_slice(), last.get(), to)
            }
            _ => dropped(code, s, e, to),
        },
    }
}

/// A value that is found, unless it stands in slots already, and dropped.
#[cycle(expr)]
fn dropped(code: &mut Code, s: Spot<'_>, e: &TExpr, to: u32) -> Result<(), NoMemory>
    requires { IsLaidOut s.program.now.aggregates }
    ensures { OnOk result (code.new ≡ code.old ++ operand_code (spec.coded (spot_of s.entry) e.now) to) }
{
    operand(code, s, e, to)?;
    Ok(())
}

/// A condition: where it does not hold, so many operations behind these are left out.
#[cycle(expr)]
pub fn unless(code: &mut Code, s: Spot<'_>, e: &TExpr, to: u32, count: u32) -> Result<(), NoMemory>
    requires { IsLaidOut s.program.now.aggregates }
    ensures { OnOk result (code.new ≡ code.old ++ (spec.coded (spot_of s.entry) e.now).unless to count) }
{
    match form_of(s, e)? {
        Form::Folded(bits) => skips_known(code, s, bits, count),
        Form::Part(of) => unless(code, s, of, to, count),
        Form::Open => match e {
            TExpr::Not { of, .. } => used(code, s, of.get(), Use::SkipIfSet { count }, to, to),
            TExpr::Binary {
                op,
                kind,
                left,
                right,
                ..
            } => {
                if compares_words(*op, *kind) {
                    let how = Join::SkipUnless {
                        op: *op,
                        kind: *kind,
                        count,
                    };
                    joined(code, s, left.get(), right.get(), how, to, to)
                } else {
                    used(code, s, e, Use::SkipIfZero { count }, to, to)
                }
            }
            TExpr::Logical {
                op,
                left,
                right,
                ..
            } => logical_unless(code, s, *op, left.get(), right.get(), to, count),
            _ => used(code, s, e, Use::SkipIfZero { count }, to, to),
        },
    }
}

/// The value of an expression that is used as an address at once, or later. `leads` of al_lower_operands says where it leads then.
#[cycle(expr)]
pub fn pointer(
    code: &mut Code,
    s: Spot<'_>,
    e: &TExpr,
    lasting: bool,
    to: u32,
) -> Result<(), NoMemory>
    requires { IsLaidOut s.program.now.aggregates }
    ensures { OnOk result (code.new ≡ code.old ++ (spec.coded (spot_of s.entry) e.now).pointer lasting to) }
{
    match form_of(s, e)? {
        Form::Folded(_) => value(code, s, e, to, to),
        Form::Part(of) => pointer(code, s, of, lasting, to),
        Form::Open => match e {
            TExpr::Decay { place: at, .. } => place(code, s, at.get(), lasting, to),
            TExpr::Address { place: at, .. } => place(code, s, at.get(), lasting, to),
            _ => value_pointer(code, s, e, lasting, to),
        },
    }
}

/// An address that is a value as any other.
#[cycle(expr)]
fn value_pointer(
    code: &mut Code,
    s: Spot<'_>,
    e: &TExpr,
    lasting: bool,
    to: u32,
) -> Result<(), NoMemory>
    requires { IsLaidOut s.program.now.aggregates }
    ensures { OnOk result (code.new ≡ code.old ++ (if lasting then (spec.coded (spot_of s.entry) e.now).value to to else operand_code (spec.coded (spot_of s.entry) e.now) to)) }
{
    if lasting {
        value(code, s, e, to, to)
    } else {
        dropped(code, s, e, to)
    }
}

/// The value of an expression that is used at once, and the slot from which on it stands then.
#[cycle(expr)]
pub fn operand(code: &mut Code, s: Spot<'_>, e: &TExpr, to: u32) -> Result<u32, NoMemory>
    requires { IsLaidOut s.program.now.aggregates }
    ensures code { OnOk result (code.new ≡ code.old ++ operand_code (spec.coded (spot_of s.entry) e.now) to) }
    ensures slot { IfOk result (λ slot. slot ≡ operand_slot (spec.coded (spot_of s.entry) e.now) to) }
{
    match stands(s, e)? {
        Some(slot) => Ok(slot),
        None => {
            value(code, s, e, to, to)?;
            Ok(to)
        }
    }
}

/// The same of a value that is used when the next one has been found.
#[cycle(expr)]
pub fn first(
    code: &mut Code,
    s: Spot<'_>,
    e: &TExpr,
    next: &TExpr,
    to: u32,
) -> Result<u32, NoMemory>
    requires { IsLaidOut s.program.now.aggregates }
    ensures code { OnOk result (code.new ≡ code.old ++ first_code (spec.coded (spot_of s.entry) e.now) (spec.coded (spot_of s.entry) next.now) to) }
    ensures slot { IfOk result (λ slot. slot ≡ first_slot (spec.coded (spot_of s.entry) e.now) (spec.coded (spot_of s.entry) next.now) to) }
{
    if keeps(s, next)? {
        operand(code, s, e, to)
    } else {
        value(code, s, e, to, to)?;
        Ok(to)
    }
}

/// A place is found, which is used at once, or later. `place_at` of al_lower_operands says where it is then.
#[cycle(expr)]
pub fn place(
    code: &mut Code,
    s: Spot<'_>,
    p: &TPlace,
    lasting: bool,
    to: u32,
) -> Result<(), NoMemory>
    requires { IsLaidOut s.program.now.aggregates }
    ensures { OnOk result (code.new ≡ code.old ++ (spec.placed (spot_of s.entry) p.now).code lasting to) }
{
    match p {
        TPlace::Local { .. } | TPlace::Outer { .. } => Ok(()),
        TPlace::Global { number, .. } => global(code, s, *number, to),
        TPlace::Pointed { pointer: e, .. } => pointer(code, s, e.get(), lasting, to),
        TPlace::PointedMember { pointer: e, .. } => pointer(code, s, e.get(), lasting, to),
        TPlace::Element { ty, base, index } => {
            element(code, s, ty, base.get(), index.get(), lasting, to)
        }
        TPlace::Member { of, .. } => place(code, s, of.get(), lasting, to),
    }
}

/// The values of expressions in a row, one behind the other from `to` on.
#[cycle(expr)]
pub fn row_values(code: &mut Code, s: Spot<'_>, row: &[TExpr], to: u32) -> Result<(), NoMemory>
    requires { IsLaidOut s.program.now.aggregates }
    ensures { OnOk result (code.new ≡ code.old ++ (rows.row_of (spot_of s.entry) row.now).values to) }
{
    let mut at = to;
    for e in row {
        value(code, s, e, at, at)?;
        at = slot_behind(at, words(s, e.ty())?)?;
    }
    Ok(())
}

/// Expressions in a row, each of which is found and dropped.
#[cycle(expr)]
pub fn row_effects(code: &mut Code, s: Spot<'_>, row: &[TExpr], to: u32) -> Result<(), NoMemory>
    requires { IsLaidOut s.program.now.aggregates }
    ensures { OnOk result (code.new ≡ code.old ++ (rows.row_of (spot_of s.entry) row.now).effects to) }
{
    for e in row {
        effect(code, s, e, to)?;
    }
    Ok(())
}
