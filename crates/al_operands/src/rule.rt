//! The typing rules that types decide, by their numbers.
ghost use Rattle.std.specs.Prelude.{◌≡◌};
ghost use Rattle.al_typed.specs.WellTyped.{is_arithmetic as gives_number};
ghost use Rattle.al_operands.specs.Rules as rule;

use crate::operand::Operand;
use al_base::Kind;
use al_convert::{
    Literal, converts, element_of, is_array, is_channel, is_function, is_integer, is_of_kind,
    is_scalar, is_void, pointed, points_to_complete, same, type_converts,
};
use al_typed::{Aggregate, BinaryOp, PrintPiece, TExpr, Ty, is_complete};

/// Whether a type is one of pointers.
pub fn is_pointer(t: &Ty) -> bool
    ensures { result ≡ rule.is_pointer t.now }
{
    pointed(t).is_some()
}

/// Whether a type is int or uint.
fn is_address_sized(t: &Ty) -> bool
    ensures { result ≡ rule.is_address_sized t.now }
{
    is_of_kind(Kind::Int, t) || is_of_kind(Kind::Uint, t)
}

/// Whether a value is written as nil.
#[tactic(auto, unfolding(crate::specs::Rules::is_nil))]
pub fn is_nil(written: &Literal) -> bool
    ensures { result ≡ rule.is_nil written.now }
{
    match written {
        Literal::Nil { at: _ } => true,
        Literal::Zero | Literal::Tuple(_) | Literal::Other => false,
    }
}

#[tactic(auto, unfolding(crate::specs::Rules::rule_7_is_complete))]
pub fn rule_7_is_complete(aggregates: &[Aggregate], t: &Ty) -> bool
    ensures { result ≡ rule.rule_7_is_complete aggregates.now t.now }
{
    is_complete(aggregates, t)
}

#[tactic(auto, unfolding(crate::specs::Rules::rule_24_adds))]
pub fn rule_24_adds(aggregates: &[Aggregate], a: &Ty, b: &Ty) -> bool
    ensures { result ≡ rule.rule_24_adds aggregates.now a.now b.now }
{
    (is_integer(a) && (is_integer(b) || points_to_complete(aggregates, b)))
        || (points_to_complete(aggregates, a) && is_integer(b))
}

#[tactic(auto, unfolding(crate::specs::Rules::rule_24_subtracts))]
pub fn rule_24_subtracts(aggregates: &[Aggregate], a: &Ty, b: &Ty) -> bool
    ensures { result ≡ rule.rule_24_subtracts aggregates.now a.now b.now }
{
    (is_integer(a) && is_integer(b))
        || (points_to_complete(aggregates, a) && (is_integer(b) || same(false, a, b)))
}

#[tactic(auto, unfolding(crate::specs::Rules::rule_24_multiplies))]
pub fn rule_24_multiplies(a: &Ty, b: &Ty) -> bool
    ensures { result ≡ rule.rule_24_multiplies a.now b.now }
{
    is_integer(a) && is_integer(b)
}

#[tactic(auto, unfolding(crate::specs::Rules::rule_24_signs))]
pub fn rule_24_signs(a: &Ty) -> bool
    ensures { result ≡ rule.rule_24_signs a.now }
{
    is_integer(a)
}

#[tactic(auto, unfolding(crate::specs::Rules::rule_25_has_integers))]
pub fn rule_25_has_integers(a: &Ty, b: &Ty) -> bool
    ensures { result ≡ rule.rule_25_has_integers a.now b.now }
{
    is_integer(a) && is_integer(b)
}

#[tactic(auto, unfolding(crate::specs::Rules::rule_25_complements))]
pub fn rule_25_complements(a: &Ty) -> bool
    ensures { result ≡ rule.rule_25_complements a.now }
{
    is_integer(a)
}

/// Whether two types are integers, or pointers that convert.
fn are_ordered(a: &Ty, b: &Ty) -> bool
    ensures { result ≡ rule.are_ordered a.now b.now }
{
    (is_integer(a) && is_integer(b)) || (is_pointer(a) && type_converts(a, b))
}

fn is_channel_or_nil(x: &Operand) -> bool
    ensures { result ≡ rule.is_channel_or_nil x.now }
{
    is_channel(x.value.ty()) || is_nil(&x.written)
}

#[tactic(auto, unfolding(crate::specs::Rules::rule_26_orders))]
pub fn rule_26_orders(x: &Operand, y: &Operand) -> bool
    ensures { result ≡ rule.rule_26_orders x.now y.now }
{
    !is_nil(&x.written) && !is_nil(&y.written) && are_ordered(x.value.ty(), y.value.ty())
}

#[tactic(auto, unfolding(crate::specs::Rules::rule_26_equates))]
pub fn rule_26_equates(x: &Operand, y: &Operand) -> bool
    ensures { result ≡ rule.rule_26_equates x.now y.now }
{
    are_ordered(x.value.ty(), y.value.ty()) || (is_channel_or_nil(x) && is_channel_or_nil(y))
}

#[tactic(auto, unfolding(crate::specs::Rules::rule_27_is_condition))]
pub fn rule_27_is_condition(t: &Ty) -> bool
    ensures { result ≡ rule.rule_27_is_condition t.now }
{
    is_scalar(t)
}

#[tactic(auto, unfolding(crate::specs::Rules::rule_28_steps))]
pub fn rule_28_steps(aggregates: &[Aggregate], t: &Ty) -> bool
    ensures { result ≡ rule.rule_28_steps aggregates.now t.now }
{
    is_integer(t) || points_to_complete(aggregates, t)
}

/// Rule 29, of what is assigned and of the operand of zerox.
#[tactic(auto, unfolding(crate::specs::Rules::rule_29_is_no_array))]
pub fn rule_29_is_no_array(t: &Ty) -> bool
    ensures { result ≡ rule.rule_29_is_no_array t.now }
{
    !is_array(t)
}

#[tactic(auto, unfolding(crate::specs::Rules::rule_30_points))]
pub fn rule_30_points(t: &Ty) -> bool
    ensures { result ≡ rule.rule_30_points t.now }
{
    match pointed(t) {
        None => false,
        Some(to) => !is_void(to) && !is_function(to),
    }
}

#[tactic(auto, unfolding(crate::specs::Rules::rule_31_indexes))]
pub fn rule_31_indexes(aggregates: &[Aggregate], a: &Ty, b: &Ty) -> bool
    ensures { result ≡ rule.rule_31_indexes aggregates.now a.now b.now }
{
    points_to_complete(aggregates, a) && is_integer(b)
}

/// Rule 33, of what is assigned; what is passed, sent or returned converts by it too.
#[tactic(auto, unfolding(crate::specs::Rules::rule_33_converts))]
pub fn rule_33_converts(x: &Operand, to: &Ty) -> bool
    ensures { result ≡ rule.rule_33_converts x.now to.now }
{
    converts(&x.written, x.value.ty(), to)
}

/// Whether an operator is `+` or `-`.
fn moves(how: BinaryOp) -> bool
    ensures { result ≡ rule.moves how }
{
    matches!(how, BinaryOp::Add | BinaryOp::Subtract)
}

/// Whether an operator gives a value of the kind of its operands, and no truth.
fn is_arithmetic(how: BinaryOp) -> bool
    ensures { result ≡ gives_number how }
{
    !matches!(
        how,
        BinaryOp::Less
            | BinaryOp::Greater
            | BinaryOp::LessEqual
            | BinaryOp::GreaterEqual
            | BinaryOp::Equal
            | BinaryOp::NotEqual
    )
}

#[tactic(auto, unfolding(crate::specs::Rules::rule_34_updates))]
pub fn rule_34_updates(aggregates: &[Aggregate], how: BinaryOp, a: &Ty, b: &Ty) -> bool
    ensures { result ≡ rule.rule_34_updates aggregates.now how a.now b.now }
{
    is_integer(b)
        && ((is_integer(a) && is_arithmetic(how))
            || (points_to_complete(aggregates, a) && moves(how)))
}

fn takes_none(piece: PrintPiece) -> bool
    ensures { result ≡ rule.takes_none piece }
{
    matches!(piece, PrintPiece::Byte(_) | PrintPiece::Percent)
}

/// Whether a type is `byte*`.
fn is_text(t: &Ty) -> bool
    ensures { result ≡ rule.is_text t.now }
{
    match pointed(t) {
        None => false,
        Some(to) => is_of_kind(Kind::Byte, to),
    }
}

fn is_printed(piece: PrintPiece, t: &Ty) -> bool
    ensures { result ≡ rule.is_printed piece t.now }
{
    match piece {
        PrintPiece::Text => is_text(t),
        PrintPiece::Byte(_)
        | PrintPiece::Percent
        | PrintPiece::Signed
        | PrintPiece::Unsigned
        | PrintPiece::Hexadecimal
        | PrintPiece::Character => is_integer(t),
    }
}

#[tactic(auto, using(crate::proofs::PrintsAre::prints_are))]
pub fn rule_36_prints(pieces: &[PrintPiece], arguments: &[TExpr]) -> bool
    ensures { result ≡ rule.rule_36_prints pieces.now arguments.now }
{
    let mut left = arguments;
    for piece in pieces {
        if takes_none(*piece) {
            continue;
        }
        let [first, others @ ..] = left else {
            return false;
        };
        if !is_printed(*piece, first.ty()) {
            return false;
        }
        left = others;
    }
    left.is_empty()
}

fn are_cast(from: &Ty, to: &Ty) -> bool
    ensures { result ≡ rule.are_cast from.now to.now }
{
    (is_integer(from) && is_integer(to))
        || (is_pointer(from) && (is_pointer(to) || is_address_sized(to)))
        || (is_address_sized(from) && is_pointer(to))
        || same(false, from, to)
}

fn nil_is_cast(to: &Ty) -> bool
    ensures { result ≡ rule.nil_is_cast to.now }
{
    is_pointer(to) || is_channel(to) || is_address_sized(to)
}

#[tactic(auto, unfolding(crate::specs::Rules::rule_38_casts))]
pub fn rule_38_casts(x: &Operand, to: &Ty) -> bool
    ensures { result ≡ rule.rule_38_casts x.now to.now }
{
    if is_nil(&x.written) {
        nil_is_cast(to)
    } else {
        are_cast(x.value.ty(), to)
    }
}

#[tactic(auto, unfolding(crate::specs::Rules::rule_39_has_size))]
pub fn rule_39_has_size(aggregates: &[Aggregate], t: &Ty) -> bool
    ensures { result ≡ rule.rule_39_has_size aggregates.now t.now }
{
    is_complete(aggregates, t)
}

#[tactic(auto, unfolding(crate::specs::Rules::rule_43_is_channel))]
pub fn rule_43_is_channel(t: &Ty) -> bool
    ensures { result ≡ rule.rule_43_is_channel t.now }
{
    is_channel(t)
}

#[tactic(auto, unfolding(crate::specs::Rules::rule_43_sends))]
pub fn rule_43_sends(chan: &Ty, x: &Operand) -> bool
    ensures { result ≡ rule.rule_43_sends chan.now x.now }
{
    match element_of(chan) {
        None => false,
        Some(element) => rule_33_converts(x, element),
    }
}

#[tactic(auto, unfolding(crate::specs::Rules::rule_44_is_no_void))]
pub fn rule_44_is_no_void(t: &Ty) -> bool
    ensures { result ≡ rule.rule_44_is_no_void t.now }
{
    !is_void(t)
}
