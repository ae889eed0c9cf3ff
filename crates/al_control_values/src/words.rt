//! Values as words.
ghost use Rattle.std.specs.Prelude.{◌≡◌, ◌<◌, ◌-◌, ◌%◌, ◌^◌, ◌∷◌, [], drop, slice_index, pos, ◌-ℤ◌, IfOk, IfSome};
ghost use Rattle.al_base.specs.Arith.{width_of, wrapped, integer_of};
ghost use Rattle.al_meaning.specs.Words as spec;
ghost use Rattle.al_typed.specs.WellTyped.{result_kind};

use al_base::{Kind, NoMemory, Op, apply};
use al_event::Words;
use al_items::Items;
use al_typed::{BinaryOp, UnaryOp, Unit};
use std::alloc::Global;

/// The bits of an integer.
pub fn bits(words: &[u32]) -> u64
    ensures { result ≡ spec.bits_of words.now }
{
    match words {
        [] => 0,
        [word] => *word as u64,
        [low, high, ..] => *low as u64 + *high as u64 * 0x1_0000_0000,
    }
}

/// A value of one word.
pub fn one_word(alloc: Global, word: u32) -> Result<Words, NoMemory>
    ensures { IfOk result (λ ws. ws ≡ word ∷ []) }
{
    let mut words = Items::new(alloc);
    words.push(word)?;
    Ok(words)
}

/// The words of an integer of a kind.
pub fn integer_words(alloc: Global, kind: Kind, bits: u64) -> Result<Words, NoMemory>
    requires { bits < 2 ^ width_of kind }
    ensures { IfOk result (λ ws. ws ≡ spec.integer_words kind bits) }
{
    match kind {
        Kind::Lint | Kind::Ulint => {
            let mut words = one_word(alloc, (bits % 0x1_0000_0000) as u32)?;
            words.push((bits / 0x1_0000_0000) as u32)?;
            Ok(words)
        }
        Kind::Byte | Kind::Sint | Kind::Usint | Kind::Int | Kind::Uint => {
            one_word(alloc, bits as u32)
        }
    }
}

/// What a condition asks.
pub fn is_zero(words: &[u32]) -> bool
    ensures { result ≡ spec.is_zero words.now }
{
    bits(words) == 0
}

/// The value of a condition.
pub fn truth(alloc: Global, holds: bool) -> Result<Words, NoMemory>
    ensures { IfOk result (λ ws. ws ≡ spec.truth holds) }
{
    one_word(alloc, holds as u32)
}

/// An operator on the bits of two numbers of a kind. There is no answer for a division by 0.
#[tactic(auto, using(crate::proofs::Remainders::comparison_small))]
fn computed(op: BinaryOp, kind: Kind, a: u64, b: u64) -> Option<u64>
    ensures value { result ≡ spec.computed op kind a b }
    ensures bits { IfSome result (λ n. n < 2 ^ width_of (result_kind op kind)) }
{
    match op {
        BinaryOp::Multiply => apply(Op::Mul, kind, a, b),
        BinaryOp::Divide => apply(Op::Div, kind, a, b),
        BinaryOp::Remainder => apply(Op::Rem, kind, a, b),
        BinaryOp::Add => apply(Op::Add, kind, a, b),
        BinaryOp::Subtract => apply(Op::Sub, kind, a, b),
        BinaryOp::ShiftLeft => apply(Op::Shl, kind, a, b),
        BinaryOp::ShiftRight => apply(Op::Shr, kind, a, b),
        BinaryOp::BitAnd => apply(Op::And, kind, a, b),
        BinaryOp::BitXor => apply(Op::Xor, kind, a, b),
        BinaryOp::BitOr => apply(Op::Or, kind, a, b),
        BinaryOp::Less => apply(Op::Lt, kind, a, b),
        BinaryOp::Greater => apply(Op::Lt, kind, b, a),
        BinaryOp::LessEqual => apply(Op::Le, kind, a, b),
        BinaryOp::GreaterEqual => apply(Op::Le, kind, b, a),
        BinaryOp::Equal => apply(Op::Eq, kind, a, b),
        BinaryOp::NotEqual => apply(Op::Ne, kind, a, b),
    }
}

/// An operator on two values of a kind. There is no answer for a division by 0.
pub fn operated(
    alloc: Global,
    op: BinaryOp,
    kind: Kind,
    a: &[u32],
    b: &[u32],
) -> Result<Option<Words>, NoMemory>
    ensures { IfOk result (λ ws. ws ≡ spec.operated op kind a.now b.now) }
{
    match computed(op, kind, bits(a), bits(b)) {
        None => Ok(None),
        Some(bits) => Ok(Some(integer_words(alloc, result_kind(op, kind), bits)?)),
    }
}

/// The kind of what an operator gives.
fn result_kind(op: BinaryOp, kind: Kind) -> Kind
    ensures { result ≡ result_kind op kind }
{
    match op {
        BinaryOp::Less
        | BinaryOp::Greater
        | BinaryOp::LessEqual
        | BinaryOp::GreaterEqual
        | BinaryOp::Equal
        | BinaryOp::NotEqual => Kind::Int,
        _ => kind,
    }
}

/// The greatest bits of a kind.
fn most(kind: Kind) -> u64
    ensures value { result ≡ 2 ^ width_of kind - 1 }
    ensures bound { result < 2 ^ width_of kind }
{
    match kind {
        Kind::Byte => 0xff,
        Kind::Sint | Kind::Usint => 0xffff,
        Kind::Int | Kind::Uint => 0xffff_ffff,
        Kind::Lint | Kind::Ulint => u64::MAX,
    }
}

/// The bits of the number that is so far below 0.
#[tactic(auto, using(crate::proofs::Remainders::integer_of_zero))]
fn negated_bits(kind: Kind, bits: u64) -> u64
    ensures value { result ≡ wrapped (width_of kind) (pos 0 -ℤ integer_of kind bits) }
    ensures bound { result < 2 ^ width_of kind }
{
    apply(Op::Sub, kind, 0, bits).unwrap_or(0)
}

/// An operator on a value of a kind.
pub fn operated_once(alloc: Global, op: UnaryOp, kind: Kind, a: Words) -> Result<Words, NoMemory>
    ensures { IfOk result (λ ws. ws ≡ spec.operated_once op kind a) }
{
    match op {
        UnaryOp::Plus => Ok(a),
        UnaryOp::Minus => integer_words(alloc, kind, negated_bits(kind, bits(a.as_slice()))),
        UnaryOp::Complement => {
            let complement = most(kind).saturating_sub(bits(a.as_slice()));
            integer_words(alloc, kind, complement)
        }
    }
}

/// A word so many further on.
#[tactic(auto, using(crate::proofs::Remainders::rest_of_sum))]
pub fn sum(a: u64, b: u64) -> u32
    ensures { result ≡ spec.sum a b }
{
    ((a % 0x1_0000_0000 + b % 0x1_0000_0000) % 0x1_0000_0000) as u32
}

/// What is to be added for a count less.
fn negated(n: u64) -> u64
    ensures { result ≡ spec.negated n }
{
    0x1_0000_0000 - n % 0x1_0000_0000
}

/// A pointer that moves by a count of elements of `size` bytes, forward or back.
#[tactic(auto, using(crate::proofs::Remainders::rest_of_step, crate::proofs::Remainders::rest_of_step_back))]
pub fn stepped_by(back: bool, size: u32, pointer: u64, count: u64) -> u32
    ensures { result ≡ spec.stepped_by back size pointer count }
{
    let moved = count % 0x1_0000_0000 * size as u64;
    if back {
        sum(pointer, negated(moved))
    } else {
        sum(pointer, moved)
    }
}

/// How many elements of `size` bytes one pointer is behind another.
#[tactic(auto, using(crate::proofs::Remainders::nothing_between, crate::proofs::Remainders::between_ahead, crate::proofs::Remainders::between_behind))]
pub fn elements_between(size: u32, a: u64, b: u64) -> u32
    ensures { result ≡ spec.elements_between size a b }
{
    if size == 0 {
        return 0;
    }
    let behind = sum(a, negated(b));
    if behind < 0x8000_0000 {
        behind / size
    } else {
        sum(0, negated((0x1_0000_0000 - behind as u64) / size as u64))
    }
}

/// A word that keeps so many bytes.
#[tactic(auto, using(crate::proofs::Remainders::kept_whole))]
fn kept(word: u32, size: u8) -> u32
    ensures { result ≡ word % 256 ^ size }
{
    match size {
        0 => 0,
        1 => word % 0x100,
        2 => word % 0x1_0000,
        3 => word % 0x100_0000,
        _ => word,
    }
}

/// The first word, 0 where there is none, and the others.
pub fn split_word(words: &[u32]) -> (u32, &[u32])
    ensures word { result.0 ≡ slice_index words.now 0 }
    ensures rest { result.1.now ≡ drop 1 words.now }
{
    match words {
        [] => (0, words),
        [word, more @ ..] => (*word, more),
    }
}

/// Words of which each keeps the bytes of its unit.
pub fn fitted_to(alloc: Global, units: &[Unit], words: &[u32]) -> Result<Words, NoMemory>
    ensures { IfOk result (λ ws. ws ≡ spec.fitted_to units.now words.now) }
{
    let mut fitted = Items::new(alloc);
    let mut rest = words;
    for unit in units {
        let cut = split_word(rest);
        fitted.push(kept(cut.0, unit.size))?;
        rest = cut.1;
    }
    Ok(fitted)
}

/// Words that are all 0.
pub fn zero_words(alloc: Global, count: u64) -> Result<Words, NoMemory>
    ensures { IfOk result (λ ws. ws ≡ spec.zero_words count) }
{
    Ok(Items::from_vec(vec![in alloc; 0; count as usize]?))
}
