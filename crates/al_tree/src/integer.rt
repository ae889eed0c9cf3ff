//! Arithmetic on integers that are known when a text is compiled.
ghost use Rattle.std.specs.Prelude.{◌≡◌, Some, IfSome, ◌<◌, ◌^◌};
ghost use Rattle.al_tree.specs.Integers as spec;

use crate::expression::{BinaryOp, UnaryOp};
use al_base::{Kind, Op, apply, convert};

/// An integer by its kind and its bits in this kind.
#[derive(Clone, Copy, Debug, PartialEq, Eq)]
pub struct Integer {
    pub kind: Kind,
    pub bits: u64,
}

/// The int of these bits.
pub(crate) fn int(bits: u64) -> Integer
    ensures { result ≡ spec.int bits }
{
    Integer {
        kind: Kind::Int,
        bits,
    }
}

#[tactic(auto, unfolding(crate::specs::Integers::promoted))]
fn promoted(kind: Kind) -> Kind
    ensures { result ≡ spec.promoted kind }
{
    match kind {
        Kind::Byte | Kind::Sint | Kind::Usint | Kind::Int => Kind::Int,
        Kind::Uint => Kind::Uint,
        Kind::Lint => Kind::Lint,
        Kind::Ulint => Kind::Ulint,
    }
}

#[tactic(auto, unfolding(crate::specs::Integers::rank))]
fn rank(kind: Kind) -> u8
    ensures { result ≡ spec.rank kind }
{
    match kind {
        Kind::Byte | Kind::Sint | Kind::Usint | Kind::Int => 0,
        Kind::Uint => 1,
        Kind::Lint => 2,
        Kind::Ulint => 3,
    }
}

/// The kind of arithmetic on two integers of these kinds.
#[tactic(auto, unfolding(crate::specs::Integers::common))]
fn common(a: Kind, b: Kind) -> Kind
    ensures { result ≡ spec.common a b }
{
    if rank(a) < rank(b) {
        promoted(b)
    } else {
        promoted(a)
    }
}

/// The integer in another kind, as a cast gives it.
#[tactic(auto, unfolding(crate::specs::Integers::in_kind))]
pub(crate) fn in_kind(kind: Kind, i: Integer) -> Integer
    ensures { result ≡ spec.in_kind kind i }
{
    Integer {
        kind,
        bits: convert(i.kind, kind, i.bits),
    }
}

#[tactic(auto, unfolding(crate::specs::Integers::arithmetic))]
pub(crate) fn arithmetic(op: Op, a: Integer, b: Integer) -> Option<Integer>
    ensures { result ≡ spec.arithmetic op a b }
{
    let kind = common(a.kind, b.kind);
    match apply(op, kind, in_kind(kind, a).bits, in_kind(kind, b).bits) {
        None => None,
        Some(bits) => Some(Integer { kind, bits }),
    }
}

#[tactic(auto, unfolding(crate::specs::Integers::compared))]
fn compared(op: Op, a: Integer, b: Integer) -> Option<Integer>
    ensures { result ≡ spec.compared op a b }
{
    let kind = common(a.kind, b.kind);
    match apply(op, kind, in_kind(kind, a).bits, in_kind(kind, b).bits) {
        None => None,
        Some(bits) => Some(int(bits)),
    }
}

#[tactic(auto, unfolding(crate::specs::Integers::shifted))]
fn shifted(op: Op, a: Integer, b: Integer) -> Option<Integer>
    ensures { result ≡ spec.shifted op a b }
{
    let kind = promoted(a.kind);
    match apply(op, kind, in_kind(kind, a).bits, b.bits) {
        None => None,
        Some(bits) => Some(Integer { kind, bits }),
    }
}

#[tactic(auto, unfolding(crate::specs::Integers::truth))]
fn truth(a: Integer) -> Option<Integer>
    ensures { result ≡ spec.truth a }
{
    compared(Op::Ne, a, int(0))
}

#[tactic(auto, unfolding(crate::specs::Integers::joined))]
fn joined(op: Op, a: Integer, b: Integer) -> Option<Integer>
    ensures { result ≡ spec.joined op a b }
{
    match truth(a) {
        None => None,
        Some(x) => match truth(b) {
            None => None,
            Some(y) => arithmetic(op, x, y),
        },
    }
}

/// What an operator before its operand gives, where it is one of integers.
#[tactic(auto, unfolding(crate::specs::Integers::unary))]
pub(crate) fn unary(op: UnaryOp, a: Integer) -> Option<Integer>
    ensures { result ≡ spec.unary op a }
{
    match op {
        UnaryOp::Plus => Some(in_kind(promoted(a.kind), a)),
        UnaryOp::Minus => arithmetic(Op::Sub, int(0), a),
        UnaryOp::Not => compared(Op::Eq, a, int(0)),
        UnaryOp::Complement => arithmetic(Op::Xor, a, int(0xffff_ffff)),
        _ => None,
    }
}

/// What an operator between two operands gives. There is nothing where it divides by 0.
#[tactic(auto, unfolding(crate::specs::Integers::binary))]
pub(crate) fn binary(op: BinaryOp, a: Integer, b: Integer) -> Option<Integer>
    ensures { result ≡ spec.binary op a b }
{
    match op {
        BinaryOp::Multiply => arithmetic(Op::Mul, a, b),
        BinaryOp::Divide => arithmetic(Op::Div, a, b),
        BinaryOp::Remainder => arithmetic(Op::Rem, a, b),
        BinaryOp::Add => arithmetic(Op::Add, a, b),
        BinaryOp::Subtract => arithmetic(Op::Sub, a, b),
        BinaryOp::ShiftLeft => shifted(Op::Shl, a, b),
        BinaryOp::ShiftRight => shifted(Op::Shr, a, b),
        BinaryOp::Less => compared(Op::Lt, a, b),
        BinaryOp::Greater => compared(Op::Lt, b, a),
        BinaryOp::LessEqual => compared(Op::Le, a, b),
        BinaryOp::GreaterEqual => compared(Op::Le, b, a),
        BinaryOp::Equal => compared(Op::Eq, a, b),
        BinaryOp::NotEqual => compared(Op::Ne, a, b),
        BinaryOp::BitAnd => arithmetic(Op::And, a, b),
        BinaryOp::BitXor => arithmetic(Op::Xor, a, b),
        BinaryOp::BitOr => arithmetic(Op::Or, a, b),
        BinaryOp::And => joined(Op::And, a, b),
        BinaryOp::Or => joined(Op::Or, a, b),
    }
}

/// The integer, where it is from 0 to 2^32 - 1.
#[tactic(auto, unfolding(crate::specs::Integers::small, crate::specs::Integers::in_kind))]
pub(crate) fn small(i: Integer) -> Option<u32>
    ensures { result ≡ spec.small i }
{
    let bits = convert(i.kind, Kind::Ulint, i.bits);
    if bits < 1 << 32 {
        Some(bits as u32)
    } else {
        None
    }
}
