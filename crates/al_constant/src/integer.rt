//! Operators on integers by their bits.
ghost use Rattle.std.specs.Prelude.{◌≡◌};
ghost use Rattle.al_constant.specs.Constants as spec;

use al_base::{Kind, Op, apply, convert};
use al_convert::kind_of;
use al_typed::{BinaryOp, Logic, Ty, UnaryOp};

/// An operator on two values of a kind. There is nothing where it divides by 0.
#[tactic(auto, unfolding(crate::specs::Constants::operated))]
pub(crate) fn operated(op: BinaryOp, kind: Kind, a: u64, b: u64) -> Option<u64>
    ensures { result ≡ spec.operated op kind a b }
{
    match op {
        BinaryOp::Multiply => apply(Op::Mul, kind, a, b),
        BinaryOp::Divide => apply(Op::Div, kind, a, b),
        BinaryOp::Remainder => apply(Op::Rem, kind, a, b),
        BinaryOp::Add => apply(Op::Add, kind, a, b),
        BinaryOp::Subtract => apply(Op::Sub, kind, a, b),
        BinaryOp::ShiftLeft => apply(Op::Shl, kind, a, b),
        BinaryOp::ShiftRight => apply(Op::Shr, kind, a, b),
        BinaryOp::BitAnd => apply(Op::And, kind, a, b),
        BinaryOp::BitXor => apply(Op::Xor, kind, a, b),
        BinaryOp::BitOr => apply(Op::Or, kind, a, b),
        BinaryOp::Less => apply(Op::Lt, kind, a, b),
        BinaryOp::Greater => apply(Op::Lt, kind, b, a),
        BinaryOp::LessEqual => apply(Op::Le, kind, a, b),
        BinaryOp::GreaterEqual => apply(Op::Le, kind, b, a),
        BinaryOp::Equal => apply(Op::Eq, kind, a, b),
        BinaryOp::NotEqual => apply(Op::Ne, kind, a, b),
    }
}

/// An operator on a value of a type, which is one of integers.
#[tactic(auto, unfolding(crate::specs::Constants::operated_once, crate::specs::Constants::operated_at))]
pub(crate) fn operated_once(op: UnaryOp, kind: Option<Kind>, a: u64) -> Option<u64>
    ensures { result ≡ spec.operated_at op kind a }
{
    let kind = kind?;
    match op {
        UnaryOp::Plus => Some(a),
        UnaryOp::Minus => apply(Op::Sub, kind, 0, a),
        UnaryOp::Complement => apply(Op::Xor, kind, u64::MAX, a),
    }
}

fn truth(holds: bool) -> u64
    ensures { result ≡ spec.truth holds }
{
    if holds { 1 } else { 0 }
}

/// `&&` and `||`
#[tactic(auto, unfolding(crate::specs::Constants::decided))]
pub(crate) fn decided(op: Logic, a: u64, b: u64) -> Option<u64>
    ensures { result ≡ spec.decided op a b }
{
    match op {
        Logic::And => Some(truth(a != 0 && b != 0)),
        Logic::Or => Some(truth(a != 0 || b != 0)),
    }
}

/// `!`
#[tactic(auto, unfolding(crate::specs::Constants::negated))]
pub(crate) fn negated(a: u64) -> Option<u64>
    ensures { result ≡ spec.negated a }
{
    Some(truth(a == 0))
}

/// A value of one type in another, where both are types of integers.
#[tactic(auto, unfolding(crate::specs::Constants::cast))]
pub(crate) fn cast(from: &Ty, to: &Ty, a: u64) -> Option<u64>
    ensures { result ≡ spec.cast from.now to.now a }
{
    let from = kind_of(from)?;
    let to = kind_of(to)?;
    Some(convert(from, to, a))
}
