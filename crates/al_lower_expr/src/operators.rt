//! Operators on one value and on two, and conditions.
ghost use Rattle.std.specs.Prelude.{◌≡◌, ◌++◌, OnOk};
ghost use Rattle.al_typed.specs.Layout.{IsLaidOut};
ghost use Rattle.al_typed.specs.Typed.{type_of};
ghost use Rattle.al_lower_code.specs.Homes as homes;
ghost use Rattle.al_lower_code.specs.Expressions as spec;
ghost use Rattle.al_lower_code.specs.Values as values;
ghost use Rattle.al_lower_expr.specs.Computed as computed;
ghost use Rattle.al_lower_base.specs.Spots.{spot_of};

use crate::expr::{unless, value};
use crate::forms::{joined, used};
use al_base::{Kind, NoMemory};
use al_items::Items;
use al_lower_base::{Code, Spot, slot_behind};
use al_lower_forms::{Join, Use, count_of, false_behind, sign_of, skipped, true_before};
use al_lower_operands::is_truth;
use al_lower_parts::constant_right;
use al_typed::{BinaryOp, Logic, TExpr, Ty, UnaryOp};

/// An operator on one value.
#[cycle(expr)]
pub fn unary_value(
    code: &mut Code,
    s: Spot<'_>,
    ty: &Ty,
    op: UnaryOp,
    of: &TExpr,
    dest: u32,
    to: u32,
) -> Result<(), NoMemory>
    requires { IsLaidOut s.program.now.aggregates }
    ensures { OnOk result (code.new ≡ code.old ++ (values.unary_coded (spot_of s.entry) ty.now op (spec.coded (spot_of s.entry) of.now)).value dest to) }
{
    match sign_of(ty, op) {
        None => value(code, s, of, dest, to),
        Some(how) => used(code, s, of, how, dest, to),
    }
}

/// An operator on two values.
#[cycle(expr)]
pub fn binary_value(
    code: &mut Code,
    s: Spot<'_>,
    op: BinaryOp,
    kind: Kind,
    left: &TExpr,
    right: &TExpr,
    dest: u32,
    to: u32,
) -> Result<(), NoMemory>
    requires { IsLaidOut s.program.now.aggregates }
    ensures { OnOk result (code.new ≡ code.old ++ values.binary_value (spot_of s.entry) op kind (homes.words (spot_of s.entry) (type_of left.now)) (spec.coded (spot_of s.entry) left.now) (spec.coded (spot_of s.entry) right.now) dest to) }
{
    match constant_right(s, op, kind, right)? {
        Some(word) => used(code, s, left, Use::By { op, kind, word }, dest, to),
        None => joined(code, s, left, right, Join::Operator { op, kind }, dest, to),
    }
}

/// 0 or 1 for a value.
#[cycle(expr)]
fn truth_value(code: &mut Code, s: Spot<'_>, e: &TExpr, dest: u32, to: u32) -> Result<(), NoMemory>
    requires { IsLaidOut s.program.now.aggregates }
    ensures { OnOk result (code.new ≡ code.old ++ values.truth_of (spot_of s.entry) (homes.words (spot_of s.entry) (type_of e.now)) (spec.coded (spot_of s.entry) e.now) dest to) }
{
    if is_truth(s, e)? {
        value(code, s, e, dest, to)
    } else {
        used(code, s, e, Use::Truth, dest, to)
    }
}

/// `&&` and `||`, where the right side is left out once the left side decides.
#[cycle(expr)]
pub fn logical_value(
    code: &mut Code,
    s: Spot<'_>,
    op: Logic,
    left: &TExpr,
    right: &TExpr,
    dest: u32,
    to: u32,
) -> Result<(), NoMemory>
    requires { IsLaidOut s.program.now.aggregates }
    ensures { OnOk result (code.new ≡ code.old ++ computed.logical_value (spot_of s.entry) op (homes.words (spot_of s.entry) (type_of right.now)) (spec.coded (spot_of s.entry) left.now) (spec.coded (spot_of s.entry) right.now) dest to) }
{
    let mut second = Items::new(s.alloc);
    truth_value(&mut second, s, right, dest, to)?;
    let n = count_of(&second)?;
    match op {
        Logic::And => {
            unless(code, s, left, to, slot_behind(n, 1)?)?;
            false_behind(code, s, second, dest)
        }
        Logic::Or => {
            unless(code, s, left, to, 2)?;
            true_before(code, s, n, second, dest)
        }
    }
}

/// The same as conditions.
#[cycle(expr)]
pub fn logical_unless(
    code: &mut Code,
    s: Spot<'_>,
    op: Logic,
    left: &TExpr,
    right: &TExpr,
    to: u32,
    count: u32,
) -> Result<(), NoMemory>
    requires { IsLaidOut s.program.now.aggregates }
    ensures { OnOk result (code.new ≡ code.old ++ computed.logical_unless (spot_of s.entry) op (spec.coded (spot_of s.entry) left.now) (spec.coded (spot_of s.entry) right.now) to count) }
{
    let mut second = Items::new(s.alloc);
    unless(&mut second, s, right, to, count)?;
    let n = count_of(&second)?;
    match op {
        Logic::And => {
            unless(code, s, left, to, slot_behind(n, count)?)?;
            code.append(second)
        }
        Logic::Or => {
            unless(code, s, left, to, 1)?;
            skipped(code, s, n, second)
        }
    }
}
