//! The last operations of values, behind those of their parts.
ghost use Rattle.std.specs.Prelude.{◌≡◌, ◌++◌, ◌-◌, ◌^◌, ℕ, Some, IfOk, OnOk};
ghost use Rattle.al_typed.specs.Layout.{IsLaidOut};
ghost use Rattle.al_typed.specs.declared.ty.Ty.{Ty as TySpec};
ghost use Rattle.al_meaning.specs.Shown as shown;
ghost use Rattle.al_meaning.specs.Words.{integer_words};
ghost use Rattle.al_meaning.specs.Here as here;
ghost use Rattle.al_lower_code.specs.Coded as coding;
ghost use Rattle.al_lower_code.specs.Homes as homes;
ghost use Rattle.al_lower_code.specs.Moving as moving;
ghost use Rattle.al_lower_code.specs.Operators as operators;
ghost use Rattle.al_lower_code.specs.Values as spec;
ghost use Rattle.al_lower_code.specs.Expressions.{coded};
ghost use Rattle.al_base.specs.declared.arith.Op.TheVariants as arith;
ghost use Rattle.al_lower_base.specs.Spots.{spot_of};

use al_base::{Kind, NoMemory, Op as Arith};
use al_ir::Op;
use al_lower_base::{Code, Spot, arithmetic, is_long, push, slot_behind, some, takes_constant};
use al_lower_operands::known;
use al_typed::{BinaryOp, TExpr, Ty};
use al_variables::{kind_of, pointee_size, word_of};

/// An integer of a kind into slots.
pub fn integer(code: &mut Code, s: Spot<'_>, kind: Kind, bits: u64, to: u32) -> Result<(), NoMemory>
    ensures { OnOk result (code.new ≡ code.old ++ moving.constants s.entry.line to (integer_words kind bits)) }
{
    if is_long(kind) {
        let low = (bits % 0x1_0000_0000) as u32;
        let high = (bits / 0x1_0000_0000) as u32;
        push(code, s.line, Op::Constant { to, word: low })?;
        let behind = slot_behind(to, 1)?;
        return push(
            code,
            s.line,
            Op::Constant {
                to: behind,
                word: high,
            },
        );
    }
    let word = some(word_of(bits))?;
    push(code, s.line, Op::Constant { to, word })
}

/// The constant of a type with these bits into slots.
pub fn constant(code: &mut Code, s: Spot<'_>, ty: &Ty, bits: u64, dest: u32) -> Result<(), NoMemory>
    ensures { OnOk result (code.new ≡ code.old ++ moving.constants s.entry.line dest (integer_words (shown.kind_of ty.now) bits)) }
{
    integer(code, s, kind_of(ty), bits, dest)
}

/// No operation where a condition with these bits holds.
pub fn skips_known(code: &mut Code, s: Spot<'_>, bits: u64, count: u32) -> Result<(), NoMemory>
    ensures { OnOk result (code.new ≡ code.old ++ coding.skips_known (spot_of s.entry) bits count) }
{
    if bits == 0 {
        return push(code, s.line, Op::Skip { count });
    }
    Ok(())
}

/// The constant on the right side of an operator, where its operation takes it.
pub fn constant_right(
    s: Spot<'_>,
    op: BinaryOp,
    kind: Kind,
    right: &TExpr,
) -> Result<Option<u32>, NoMemory>
    requires { IsLaidOut s.program.now.aggregates }
    ensures { IfOk result (λ bits. bits ≡ spec.constant_right op kind (coded (spot_of s.entry) right.now)) }
{
    match known(s, right)? {
        None => Ok(None),
        Some(bits) => {
            if takes_constant(op, kind, bits) {
                Ok(Some(bits as u32))
            } else {
                Ok(None)
            }
        }
    }
}

/// How many bytes what a pointer leads to takes.
pub fn pointee_bytes(s: Spot<'_>, ty: &Ty) -> Result<u32, NoMemory>
    requires { IsLaidOut s.program.now.aggregates }
    ensures { IfOk result (λ n. n ≡ homes.size (spot_of s.entry) (here.pointee ty.now)) }
{
    some(pointee_size(s.program, ty))
}

/// A constant less a value.
pub fn less(
    code: &mut Code,
    s: Spot<'_>,
    kind: Kind,
    bits: u64,
    dest: u32,
    free: u32,
    slot: u32,
) -> Result<(), NoMemory>
    ensures { OnOk result (code.new ≡ code.old ++ (moving.constants s.entry.line free (integer_words kind bits) ++ homes.here (spot_of s.entry) (operators.arithmetic kind arith.Sub dest free slot))) }
{
    integer(code, s, kind, bits, free)?;
    push(code, s.line, arithmetic(kind, Arith::Sub, dest, free, slot))
}

/// The turn at hand of an iterator of the statement.
pub fn turn(code: &mut Code, s: Spot<'_>, number: u32, dest: u32) -> Result<(), NoMemory>
    ensures { (t : TySpec) → (to : ℕ) → OnOk result (code.new ≡ code.old ++ (spec.iterator_coded (spot_of s.entry) t number).value dest to) }
{
    let from = slot_behind(s.turns, number)?;
    push(code, s.line, Op::Copy { to: dest, from })
}
