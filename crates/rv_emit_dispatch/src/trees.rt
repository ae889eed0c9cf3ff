//! Trees of comparisons.

ghost use Rattle.std.specs.Prelude.{◌≡◌, ◌-◌, ◌*◌, ◌^◌, ◌≤◌, ◌++◌, All, length, slice_index, OnOk, IfOk};
ghost use Rattle.al_ir.specs.Control.{function_at, stack_of};
ghost use Rattle.rv_form.specs.Dispatch.{tree_of, tree, tree_width, tree_code};
ghost use Rattle.rv_emit_dispatch.specs.Stacks.{HaveRoom};

use crate::parts::{below, compare, next_word, not_found, one, upwards};
use al_base::NoMemory;
use al_ir::Ir;
use rv_isa::instr::Instr;
use std::alloc::Global;

/// No dispatcher has more words.
const MOST: u32 = 1 << 22;
/// A program has at most 2^16 functions.
const BITS: u32 = 16;

/// So many functions have numbers of so many bits.
fn numbers(bits: u32) -> u32
    requires { bits ≤ 15 }
    ensures value { result ≡ 2 ^ bits }
    ensures few { result ≤ 2 ^ 15 }
{
    1 << bits
}

/// How many words a tree takes of these functions, whose numbers begin at `from` and have so many bits.
fn width(alloc: Global, bits: u32, from: u32, functions: &[u32]) -> Result<u32, NoMemory>
    requires bits { bits ≤ 16 }
    requires numbers { from ≤ 65536 * (16 - bits) }
    ensures value { IfOk result (λ n. n ≡ tree_width (tree_of bits from functions.now)) }
    ensures few { IfOk result (λ n. n ≤ 2 ^ 22) }
{
    if functions.is_empty() {
        return Ok(2);
    }
    if bits == 0 {
        return Ok(10);
    }
    let middle = from + numbers(bits - 1);
    let lower = below(alloc, functions, middle)?;
    let upper = upwards(alloc, functions, middle)?;
    let low = lower.as_slice();
    let high = upper.as_slice();
    if low.is_empty() {
        return width(alloc, bits - 1, middle, high);
    }
    if high.is_empty() {
        return width(alloc, bits - 1, from, low);
    }
    let low_width = width(alloc, bits - 1, from, low)?;
    let high_width = width(alloc, bits - 1, middle, high)?;
    let both = 5 + (low_width + high_width);
    if both > MOST {
        return Err(NoMemory);
    }
    Ok(both)
}

/// The tree of these functions, whose numbers begin at `from` and have so many bits.
fn part(
    code: &mut Vec<Instr>,
    alloc: Global,
    ir: &Ir,
    entries: &[u32],
    bits: u32,
    from: u32,
    functions: &[u32],
) -> Result<(), NoMemory>
    requires room { HaveRoom ir.now }
    requires entries { All (λ entry. entry ≤ 2 ^ 24) entries.now }
    requires bits { bits ≤ 16 }
    requires numbers { from ≤ 65536 * (16 - bits) }
    ensures { OnOk result (code.new.items ≡ code.old.items ++ tree_code (λ f. slice_index entries.now f) (λ f. stack_of (function_at ir.now f)) (length code.old.items) (tree_of bits from functions.now)) }
{
    let Some(first) = functions.first() else {
        return not_found(code);
    };
    let at = next_word(code)?;
    if bits == 0 {
        return one(code, ir, entries, at, *first);
    }
    let middle = from + numbers(bits - 1);
    let lower = below(alloc, functions, middle)?;
    let upper = upwards(alloc, functions, middle)?;
    let low = lower.as_slice();
    let high = upper.as_slice();
    if low.is_empty() {
        return part(code, alloc, ir, entries, bits - 1, middle, high);
    }
    if high.is_empty() {
        return part(code, alloc, ir, entries, bits - 1, from, low);
    }
    let low_width = width(alloc, bits - 1, from, low)?;
    compare(code, middle, at, at + 5 + low_width)?;
    part(code, alloc, ir, entries, bits - 1, from, low)?;
    part(code, alloc, ir, entries, bits - 1, middle, high)
}

/// The dispatcher of the functions of a class.
pub fn dispatcher(
    code: &mut Vec<Instr>,
    alloc: Global,
    ir: &Ir,
    entries: &[u32],
    functions: &[u32],
) -> Result<(), NoMemory>
    requires room { HaveRoom ir.now }
    requires entries { All (λ entry. entry ≤ 2 ^ 24) entries.now }
    ensures { OnOk result (code.new.items ≡ code.old.items ++ tree_code (λ f. slice_index entries.now f) (λ f. stack_of (function_at ir.now f)) (length code.old.items) (tree functions.now)) }
{
    part(code, alloc, ir, entries, BITS, 0, functions)
}
