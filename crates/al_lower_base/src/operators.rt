//! Operators, conditions and steps of values that stand in slots.
ghost use Rattle.std.specs.Prelude.{◌≡◌, ◌+◌, ◌<◌, ◌^◌, ◌++◌, IfOk, OnOk, true};
ghost use Rattle.al_base.specs.Arith.{divides};
ghost use Rattle.al_lower_code.specs.Values as values;
ghost use Rattle.al_typed.specs.Layout.{IsLaidOut};
ghost use Rattle.al_lower_code.specs.Operators as spec;
ghost use Rattle.al_lower_base.specs.Spots.{spot_of};

use crate::code::{Code, constants, push};
use crate::spot::{Spot, bytes};
use al_base::{Kind, NoMemory, Op as Arith};
use al_control_values::stepped_by;
use al_ir::Op;
use al_typed::{BinaryOp, Ty};

/// The operation of an operator. What is greater is less the other way round.
pub fn arith_of(op: BinaryOp) -> Arith
    ensures { result ≡ spec.arith_of op }
{
    match op {
        BinaryOp::Multiply => Arith::Mul,
        BinaryOp::Divide => Arith::Div,
        BinaryOp::Remainder => Arith::Rem,
        BinaryOp::Add => Arith::Add,
        BinaryOp::Subtract => Arith::Sub,
        BinaryOp::ShiftLeft => Arith::Shl,
        BinaryOp::ShiftRight => Arith::Shr,
        BinaryOp::BitAnd => Arith::And,
        BinaryOp::BitXor => Arith::Xor,
        BinaryOp::BitOr => Arith::Or,
        BinaryOp::Less | BinaryOp::Greater => Arith::Lt,
        BinaryOp::LessEqual | BinaryOp::GreaterEqual => Arith::Le,
        BinaryOp::Equal => Arith::Eq,
        BinaryOp::NotEqual => Arith::Ne,
    }
}

/// Whether the operands of its operation change places.
pub fn is_swapped(op: BinaryOp) -> bool
    ensures { result ≡ spec.is_swapped op }
{
    matches!(op, BinaryOp::Greater | BinaryOp::GreaterEqual)
}

/// Whether it gives 0 or 1.
pub fn compares(op: BinaryOp) -> bool
    ensures { result ≡ spec.compares op }
{
    matches!(
        op,
        BinaryOp::Less
            | BinaryOp::Greater
            | BinaryOp::LessEqual
            | BinaryOp::GreaterEqual
            | BinaryOp::Equal
            | BinaryOp::NotEqual
    )
}

/// Whether an integer of that kind takes two words.
pub fn is_long(kind: Kind) -> bool
    ensures { result ≡ spec.is_long kind }
{
    kind.width() == 64
}

/// An operation on words or on pairs of them, as the kind has it.
pub fn arithmetic(kind: Kind, op: Arith, to: u32, left: u32, right: u32) -> Op
    ensures { result ≡ spec.arithmetic kind op to left right }
{
    let signed = kind.is_signed();
    if is_long(kind) {
        Op::Long {
            op,
            signed,
            to,
            left,
            right,
        }
    } else {
        Op::Word {
            op,
            signed,
            to,
            left,
            right,
        }
    }
}

/// An operator on two values of a kind.
pub fn operator(op: BinaryOp, kind: Kind, to: u32, left: u32, right: u32) -> Op
    ensures { result ≡ spec.operator op kind to left right }
{
    if is_swapped(op) {
        arithmetic(kind, arith_of(op), to, right, left)
    } else {
        arithmetic(kind, arith_of(op), to, left, right)
    }
}

/// Whether an operation divides.
fn divides(op: Arith) -> bool
    ensures { result ≡ divides op }
{
    matches!(op, Arith::Div | Arith::Rem)
}

/// Whether the right side with these bits may be a constant of the operation.
pub fn takes_constant(op: BinaryOp, kind: Kind, bits: u64) -> bool
    ensures value { result ≡ spec.takes_constant op kind bits }
    ensures word { result ≡ true → bits < 2 ^ 32 }
{
    let is_short = bits < 0x800 || (bits >= 0xffff_f800 && bits < 0x1_0000_0000);
    !is_long(kind) && !is_swapped(op) && is_short && !(divides(arith_of(op)) && bits == 0)
}

/// An operator with a constant on the right.
pub fn operator_by(op: BinaryOp, kind: Kind, to: u32, left: u32, word: u32) -> Op
    ensures { result ≡ spec.operator_by op kind to left word }
{
    Op::WordBy {
        op: arith_of(op),
        signed: kind.is_signed(),
        to,
        left,
        word,
    }
}

/// Leaves so many operations out where a value of so many words is 0. A word of a pair goes into `free`.
pub fn skip_if_zero(
    code: &mut Code,
    s: Spot<'_>,
    words: u32,
    at: u32,
    free: u32,
    count: u32,
) -> Result<(), NoMemory>
    ensures { OnOk result (code.new ≡ code.old ++ spec.skip_if_zero (spot_of s.entry) words at free count) }
{
    if words == 2 {
        push(code, s.line, Op::IsLongSet { to: free, from: at })?;
        return push(code, s.line, Op::SkipIfZero { slot: free, count });
    }
    push(code, s.line, Op::SkipIfZero { slot: at, count })
}

/// Leaves them out where it is not 0.
pub fn skip_if_set(
    code: &mut Code,
    s: Spot<'_>,
    words: u32,
    at: u32,
    free: u32,
    count: u32,
) -> Result<(), NoMemory>
    ensures { OnOk result (code.new ≡ code.old ++ spec.skip_if_set (spot_of s.entry) words at free count) }
{
    if words == 2 {
        push(code, s.line, Op::IsLongSet { to: free, from: at })?;
        return push(code, s.line, Op::SkipIfSet { slot: free, count });
    }
    push(code, s.line, Op::SkipIfSet { slot: at, count })
}

/// 1 where a value of so many words is not 0, else 0.
pub fn truth(code: &mut Code, s: Spot<'_>, words: u32, to: u32, at: u32) -> Result<(), NoMemory>
    ensures { OnOk result (code.new ≡ code.old ++ spec.truth_code (spot_of s.entry) words to at) }
{
    if words == 2 {
        return push(code, s.line, Op::IsLongSet { to, from: at });
    }
    push(code, s.line, Op::IsZero { to, from: at })?;
    push(code, s.line, Op::IsZero { to, from: to })
}

/// 1 where it is 0, else 0.
pub fn negation(
    code: &mut Code,
    s: Spot<'_>,
    words: u32,
    to: u32,
    at: u32,
    free: u32,
) -> Result<(), NoMemory>
    ensures { OnOk result (code.new ≡ code.old ++ spec.negation_code (spot_of s.entry) words to at free) }
{
    if words == 2 {
        push(code, s.line, Op::IsLongSet { to: free, from: at })?;
        return push(code, s.line, Op::IsZero { to, from: free });
    }
    push(code, s.line, Op::IsZero { to, from: at })
}

/// A comparison of words, and a jump over so many operations where it does not hold.
pub fn skip_unless(
    code: &mut Code,
    s: Spot<'_>,
    op: BinaryOp,
    kind: Kind,
    left: u32,
    right: u32,
    count: u32,
) -> Result<(), NoMemory>
    ensures { OnOk result (code.new ≡ code.old ++ values.skip_unless (spot_of s.entry) op kind left right count) }
{
    let signed = kind.is_signed();
    let swapped = is_swapped(op);
    push(
        code,
        s.line,
        Op::SkipUnless {
            op: arith_of(op),
            signed,
            left: if swapped { right } else { left },
            right: if swapped { left } else { right },
            count,
        },
    )
}

/// What is added to a pointer that moves by so many elements.
pub fn step_bytes(back: bool, size: u32, count: u64) -> u32
    ensures { result ≡ spec.step_bytes back size count }
{
    stepped_by(back, size, 0, count)
}

fn step_operator(back: bool) -> Arith
    ensures { result ≡ spec.step_operator back }
{
    if back { Arith::Sub } else { Arith::Add }
}

/// One more or less of an integer, in slots from `to` on; two slots from `free` on serve it.
fn step_integer(
    code: &mut Code,
    s: Spot<'_>,
    back: bool,
    kind: Kind,
    to: u32,
    from: u32,
    free: u32,
) -> Result<(), NoMemory>
    ensures { OnOk result (code.new ≡ code.old ++ spec.step_integer (spot_of s.entry) back kind to from free) }
{
    let op = step_operator(back);
    if is_long(kind) {
        constants(code, s.line, free, &[1, 0])?;
        return push(
            code,
            s.line,
            Op::Long {
                op,
                signed: kind.is_signed(),
                to,
                left: from,
                right: free,
            },
        );
    }
    if kind.width() == 32 {
        return push(
            code,
            s.line,
            Op::WordBy {
                op,
                signed: kind.is_signed(),
                to,
                left: from,
                word: 1,
            },
        );
    }
    push(
        code,
        s.line,
        Op::WordBy {
            op,
            signed: false,
            to,
            left: from,
            word: 1,
        },
    )?;
    push(
        code,
        s.line,
        Op::Extract {
            to,
            from: to,
            skip: 0,
            size: (kind.width() / 8) as u8,
        },
    )
}

/// One more or less of a value of a type.
#[tactic(auto, unfolding(al_lower_code::specs::Operators::step_code))]
pub fn step(
    code: &mut Code,
    s: Spot<'_>,
    back: bool,
    ty: &Ty,
    to: u32,
    from: u32,
    free: u32,
) -> Result<(), NoMemory>
    requires { IsLaidOut s.program.now.aggregates }
    ensures { OnOk result (code.new ≡ code.old ++ spec.step_code (spot_of s.entry) back ty.now to from free) }
{
    match ty {
        Ty::Integer(kind) => step_integer(code, s, back, *kind, to, from, free),
        Ty::Pointer(of) => {
            let size = bytes(s, of.get())?;
            push(
                code,
                s.line,
                Op::Offset {
                    to,
                    from,
                    bytes: step_bytes(back, size, 1),
                },
            )
        }
        Ty::Void
        | Ty::Array { .. }
        | Ty::Chan { .. }
        | Ty::Tuple(_)
        | Ty::Aggregate(_)
        | Ty::Function { .. } => Ok(()),
    }
}
