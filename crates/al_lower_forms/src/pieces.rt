//! Pieces of expressions that are put together of lists of operations, or need no part of an expression.
ghost use Rattle.std.specs.Prelude.{◌≡◌, ◌++◌, ◌∷◌, [], ◌&&◌, not, length, IfOk, OnOk};
ghost use Rattle.al_ir.specs.declared.op.Op.TheVariants as op;
ghost use Rattle.al_lower_code.specs.Homes as homes;
ghost use Rattle.al_lower_code.specs.Operators as operators;
ghost use Rattle.al_lower_base.specs.Spots.{spot_of};
ghost use Rattle.al_lower_forms.specs.Pieces as spec;

use al_base::{Kind, NoMemory};
use al_ir::Op;
use al_lower_base::{Code, Spot, compares, is_long, push, some, step_bytes};
use al_typed::{BinaryOp, Ty};
use al_variables::word_of;

/// How many operations there are.
pub fn count_of(code: &Code) -> Result<u32, NoMemory>
    ensures { IfOk result (λ n. n ≡ length code.now) }
{
    some(word_of(code.len() as u64))
}

/// Operations that give 0 or 1, which are followed by 0 for those who come past them.
pub fn false_behind(code: &mut Code, s: Spot<'_>, second: Code, dest: u32) -> Result<(), NoMemory>
    ensures { OnOk result (code.new ≡ code.old ++ (second ++ homes.operation s.entry.line (op.Skip 1) ∷ homes.operation s.entry.line (op.Constant dest 0) ∷ [])) }
{
    code.append(second)?;
    push(code, s.line, Op::Skip { count: 1 })?;
    push(code, s.line, Op::Constant { to: dest, word: 0 })
}

/// So many operations, which are left out.
pub fn skipped(code: &mut Code, s: Spot<'_>, count: u32, second: Code) -> Result<(), NoMemory>
    ensures { OnOk result (code.new ≡ code.old ++ homes.operation s.entry.line (op.Skip count) ∷ second) }
{
    push(code, s.line, Op::Skip { count })?;
    code.append(second)
}

/// The same behind a 1.
pub fn true_before(
    code: &mut Code,
    s: Spot<'_>,
    count: u32,
    second: Code,
    dest: u32,
) -> Result<(), NoMemory>
    ensures { OnOk result (code.new ≡ code.old ++ homes.operation s.entry.line (op.Constant dest 1) ∷ homes.operation s.entry.line (op.Skip count) ∷ second) }
{
    push(code, s.line, Op::Constant { to: dest, word: 1 })?;
    skipped(code, s, count, second)
}

/// An address so many elements further on, or back.
pub fn offset(
    code: &mut Code,
    s: Spot<'_>,
    back: bool,
    size: u32,
    count: u64,
    to: u32,
    from: u32,
) -> Result<(), NoMemory>
    ensures { OnOk result (code.new ≡ code.old ++ homes.here (spot_of s.entry) (op.Offset to from (operators.step_bytes back size count))) }
{
    push(
        code,
        s.line,
        Op::Offset {
            to,
            from,
            bytes: step_bytes(back, size, count),
        },
    )
}

/// Whether a type is one of integers.
pub fn is_integer(ty: &Ty) -> bool
    ensures { result ≡ spec.is_integer ty.now }
{
    matches!(ty, Ty::Integer(_))
}

/// Whether an operator compares words.
pub fn compares_words(op: BinaryOp, kind: Kind) -> bool
    ensures { result ≡ (operators.compares op && not (operators.is_long kind)) }
{
    compares(op) && !is_long(kind)
}
