//! Iterators: a value is found and dropped in each turn of all of them.
ghost use Rattle.std.specs.Prelude.{◌≡◌, ◌+◌, ◌*◌, ◌++◌, IfOk, OnOk, length};
ghost use Rattle.al_typed.specs.Layout.{IsLaidOut};
ghost use Rattle.al_lower_code.specs.Expressions.{coded};
ghost use Rattle.al_lower_code.specs.Heads as spec;
ghost use Rattle.al_lower_base.specs.Spots.{spot_of};
ghost use Rattle.al_lower_heads.specs.Turns as turns;

use crate::conditions::effect_at;
use al_base::{NoMemory, Op as Arith};
use al_ir::Op;
use al_items::Items;
use al_lower_base::{Code, Spot, push, slot_behind, some};
use al_lower_expr::{effect, value};
use al_typed::{TBounds, TExpr};
use al_variables::word_of;

/// How many operations there are.
pub(crate) fn count_of(code: &Code) -> Result<u32, NoMemory>
    ensures { IfOk result (λ n. n ≡ length code.now) }
{
    some(word_of(code.len() as u64))
}

/// The bounds of iterators, one behind the other from `to` on.
fn bounds(code: &mut Code, s: Spot<'_>, iterators: &[TBounds], to: u32) -> Result<(), NoMemory>
    requires { IsLaidOut s.program.now.aggregates }
    ensures { OnOk result (code.new ≡ code.old ++ spec.bounds_code (spot_of s.entry) iterators.now to) }
{
    let mut first = to;
    for iterator in iterators {
        value(code, s, &iterator.from, first, first)?;
        let last = slot_behind(first, 1)?;
        value(code, s, &iterator.to, last, last)?;
        first = slot_behind(first, 2)?;
    }
    Ok(())
}

/// The first turn of each of so many iterators, the outermost first, whose turns stand from `turn` on and whose bounds from
/// `bound` on. The body has so many operations.
fn begins(
    code: &mut Code,
    s: Spot<'_>,
    count: u32,
    turn: u32,
    bound: u32,
    size: u32,
) -> Result<(), NoMemory>
    ensures { OnOk result (code.new ≡ code.old ++ turns.begins (spot_of s.entry) count turn bound size) }
{
    let (mut left, mut slot, mut first) = (count, turn, bound);
    while left > 0 {
        left -= 1;
        push(
            code,
            s.line,
            Op::Copy {
                to: slot,
                from: first,
            },
        )?;
        let skipped = some(word_of(4 * (left as u64) + (size as u64) + 2))?;
        push(
            code,
            s.line,
            Op::SkipUnless {
                op: Arith::Lt,
                signed: true,
                left: slot,
                right: slot_behind(first, 1)?,
                count: skipped,
            },
        )?;
        slot = slot_behind(slot, 1)?;
        first = slot_behind(first, 2)?;
    }
    Ok(())
}

/// The next turn of each of them, the innermost first. Those of the outermost begin at the operation of number pc.
fn ends(code: &mut Code, s: Spot<'_>, count: u32, turn: u32, pc: u32) -> Result<(), NoMemory>
    ensures { OnOk result (code.new ≡ code.old ++ turns.ends (spot_of s.entry) count turn pc) }
{
    let mut left = count;
    while left > 0 {
        left -= 1;
        let slot = slot_behind(turn, left)?;
        push(
            code,
            s.line,
            Op::WordBy {
                op: Arith::Add,
                signed: true,
                to: slot,
                left: slot,
                word: 1,
            },
        )?;
        let to = some(word_of((pc as u64) + 2 * (left as u64) + 1))?;
        push(code, s.line, Op::Turn { to })?;
    }
    Ok(())
}

/// Operations in each turn of so many iterators.
fn turned(
    code: &mut Code,
    s: Spot<'_>,
    count: u32,
    bound: u32,
    body: Code,
    pc: u32,
) -> Result<(), NoMemory>
    ensures { OnOk result (code.new ≡ code.old ++ spec.turns_code (spot_of s.entry) count s.entry.turns bound body pc) }
{
    let size = count_of(&body)?;
    begins(code, s, count, s.turns, bound, size)?;
    code.append(body)?;
    ends(code, s, count, s.turns, pc)
}

/// A value that is found and dropped in each turn of so many iterators, whose bounds stand from `bound` on.
fn repeated(
    code: &mut Code,
    s: Spot<'_>,
    count: u32,
    bound: u32,
    e: &TExpr,
    pc: u32,
) -> Result<(), NoMemory>
    requires { IsLaidOut s.program.now.aggregates }
    ensures { OnOk result (code.new ≡ code.old ++ spec.turns_code (spot_of s.entry) count s.entry.turns bound ((coded (spot_of s.entry) e.now).effect (s.entry.turns + 3 * count)) pc) }
{
    let free = some(word_of((s.turns as u64) + 3 * (count as u64)))?;
    let mut body = Items::new(s.alloc);
    effect(&mut body, s, e, free)?;
    turned(code, s, count, bound, body, pc)
}

/// The bounds of iterators, and a value that is found and dropped in each turn of all of them. The first operation is the one
/// of number pc.
pub fn iterated(
    code: &mut Code,
    s: Spot<'_>,
    iterators: &[TBounds],
    e: &TExpr,
    pc: u32,
) -> Result<(), NoMemory>
    requires { IsLaidOut s.program.now.aggregates }
    ensures { OnOk result (code.new ≡ code.old ++ spec.value_code (spot_of s.entry) iterators.now e.now pc) }
{
    if iterators.is_empty() {
        return effect_at(code, s, e);
    }
    let count = some(word_of(iterators.len() as u64))?;
    let bound = slot_behind(s.turns, count)?;
    let before = count_of(code)?;
    bounds(code, s, iterators, bound)?;
    let behind = count_of(code)?;
    let begin = slot_behind(pc, behind - before)?;
    repeated(code, s, count, bound, e, begin)
}
