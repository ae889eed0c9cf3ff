//! Single operations.
ghost use Rattle.std.specs.Prelude.{◌≡◌, ◌≤◌, ◌^◌, ◌&&◌, nat_le, nat_lt, nat_eq, not, length};
ghost use Rattle.al_ir.specs.Bounds.{most_words};
ghost use Rattle.al_ir.specs.Step as step;
ghost use Rattle.al_ir.specs.declared.op.Op.TheVariants as op;
ghost use Rattle.al_base.specs.Arith as arith;
ghost use Rattle.al_ir_bounds.specs.Checks as checks;

use crate::parts::{
    MOST_WORDS, all_start, are_apart, branches_fit, class_takes_from, compares, divides, has,
    is_made, is_short, is_size, kind_words, long_words, skips, starts, takes_from, units_count,
};
use al_base::{Kind, Op as Arith};
use al_event::Block;
use al_ir::{Function, Ir, Op, TalkBranch};

/// The most bytes of a block or of an element.
const MOST_BYTES: u32 = 1 << 28;

/// Two slots.
fn two(f: &Function, a: u32, b: u32) -> bool
    ensures { result ≡ (checks.has f.now a 1 && checks.has f.now b 1) }
{
    has(f, a, 1) && has(f, b, 1)
}

/// Three slots.
fn three(f: &Function, a: u32, b: u32, c: u32) -> bool
    ensures { result ≡ (checks.has f.now a 1 && (checks.has f.now b 1 && checks.has f.now c 1)) }
{
    has(f, a, 1) && two(f, b, c)
}

/// A slot, and a word.
fn constant_fits(f: &Function, to: u32, word: u32) -> bool
    ensures { result ≡ (checks.has f.now to 1 && checks.is_word word) }
{
    has(f, to, 1)
}

/// Any byte.
fn byte_fits(byte: u8) -> bool
    ensures { result ≡ nat_lt byte 256 }
{
    true
}

/// A slot, and a word of a result.
fn result_fits(f: &Function, to: u32, word: u32) -> bool
    ensures { result ≡ (checks.has f.now to 1 && nat_lt word most_words) }
{
    has(f, to, 1) && word < MOST_WORDS
}

/// An operator with a constant.
fn word_by_fits(f: &Function, op: Arith, to: u32, left: u32, word: u32) -> bool
    ensures { result ≡ (checks.has f.now to 1 && (checks.has f.now left 1 && (checks.is_short word && not (arith.divides op && nat_eq word 0)))) }
{
    two(f, to, left) && is_short(word) && !(divides(op) && word == 0)
}

/// An operator on pairs of words.
fn long_fits(f: &Function, op: Arith, to: u32, left: u32, right: u32) -> bool
    ensures { result ≡ (checks.has f.now to (length (step.long_words op 0)) && (checks.has f.now left 2 && checks.has f.now right 2)) }
{
    has(f, to, long_words(op)) && has(f, left, 2) && has(f, right, 2)
}

/// A pair as a condition.
fn long_set_fits(f: &Function, to: u32, from: u32) -> bool
    ensures { result ≡ (checks.has f.now to 1 && checks.has f.now from 2) }
{
    has(f, to, 1) && has(f, from, 2)
}

/// A conversion.
fn convert_fits(f: &Function, from: Kind, into: Kind, to: u32, of: u32) -> bool
    ensures { result ≡ (checks.has f.now to (step.kind_words into) && checks.has f.now of (step.kind_words from)) }
{
    has(f, to, kind_words(into)) && has(f, of, kind_words(from))
}

/// Bytes of a word.
fn extract_fits(f: &Function, to: u32, from: u32, skip: u8, size: u8) -> bool
    ensures { result ≡ (checks.has f.now to 1 && (checks.has f.now from 1 && (nat_lt skip 4 && checks.is_size size))) }
{
    has(f, to, 1) && has(f, from, 1) && skip < 4 && is_size(size)
}

/// A word and a constant.
fn offset_fits(f: &Function, to: u32, from: u32, bytes: u32) -> bool
    ensures { result ≡ (checks.has f.now to 1 && (checks.has f.now from 1 && checks.is_word bytes)) }
{
    two(f, to, from)
}

/// A pointer that moves.
fn advance_fits(f: &Function, size: u32, to: u32, pointer: u32, count: u32) -> bool
    ensures { result ≡ (checks.has f.now to 1 && (checks.has f.now pointer 1 && (checks.has f.now count 1 && checks.is_word size))) }
{
    three(f, to, pointer, count)
}

/// A difference of pointers.
fn between_fits(f: &Function, size: u32, to: u32, left: u32, right: u32) -> bool
    ensures { result ≡ (checks.has f.now to 1 && (checks.has f.now left 1 && (checks.has f.now right 1 && (nat_le 1 size && nat_le size (2 ^ 28))))) }
{
    has(f, to, 1) && has(f, left, 1) && has(f, right, 1) && size >= 1 && size <= MOST_BYTES
}

/// A word of the private globals.
fn private_fits(ir: &Ir, f: &Function, slot: u32, place: u32) -> bool
    ensures { result ≡ (checks.has f.now slot 1 && nat_lt place ir.now.privates) }
{
    has(f, slot, 1) && place < ir.privates
}

/// A jump by a slot's word.
fn skip_if_fits(f: &Function, pc: usize, slot: u32, count: u32) -> bool
    requires { pc ≤ length f.now.code }
    ensures { result ≡ (checks.has f.now slot 1 && checks.skips f.now pc count) }
{
    has(f, slot, 1) && skips(f, pc, count)
}

/// A jump by a comparison.
fn skip_unless_fits(f: &Function, pc: usize, op: Arith, left: u32, right: u32, count: u32) -> bool
    requires { pc ≤ length f.now.code }
    ensures { result ≡ (checks.compares op && (checks.has f.now left 1 && (checks.has f.now right 1 && checks.skips f.now pc count))) }
{
    compares(op) && has(f, left, 1) && has(f, right, 1) && skips(f, pc, count)
}

/// A jump forward.
fn go_to_fits(f: &Function, pc: usize, to: u32) -> bool
    ensures { result ≡ (nat_lt pc to && nat_lt to (length f.now.code)) }
{
    pc < to as usize && (to as usize) < f.code.len()
}

/// A call through a pointer.
fn pointer_call_fits(ir: &Ir, f: &Function, class: u32, pointer: u32, arguments: u32) -> bool
    ensures { result ≡ (checks.has f.now pointer 1 && checks.class_takes_from ir.now f.now class arguments) }
{
    has(f, pointer, 1) && class_takes_from(ir, f, class, arguments)
}

/// The end of a function.
fn leave_fits(f: &Function, words: u32) -> bool
    ensures { result ≡ (checks.has f.now 0 words && nat_le words most_words) }
{
    has(f, 0, words) && words <= MOST_WORDS
}

/// A load or a store of a unit.
fn unit_fits(f: &Function, slot: u32, at: u32, offset: u32, size: u8) -> bool
    ensures { result ≡ (checks.has f.now slot 1 && (checks.has f.now at 1 && (checks.is_word offset && checks.is_size size))) }
{
    two(f, slot, at) && is_size(size)
}

/// Loads of units.
fn loads_fit(f: &Function, to: u32, at: u32, offset: u32, count: Option<u32>) -> bool
    ensures { result ≡ (checks.loads_fit f.now to at offset count) }
{
    match count {
        None => false,
        Some(n) => has(f, to, n) && has(f, at, 1) && are_apart(at, 1, to, n),
    }
}

/// Stores of units.
fn stores_fit(f: &Function, at: u32, offset: u32, from: u32, count: Option<u32>) -> bool
    ensures { result ≡ (checks.stores_fit f.now at offset from count) }
{
    match count {
        None => false,
        Some(n) => has(f, at, 1) && has(f, from, n),
    }
}

/// Units that become 0.
fn clears_fit(ir: &Ir, f: &Function, at: u32, offset: u32, layout: u32) -> bool
    ensures { result ≡ (checks.has f.now at 1 && (checks.is_word offset && checks.is_layout_of ir.now layout)) }
{
    has(f, at, 1) && (layout as usize) < ir.layouts.len()
}

/// A new block.
fn alloc_fits(f: &Function, to: u32, bytes: u32, kind: Block) -> bool
    ensures { result ≡ (checks.has f.now to 1 && (checks.is_made kind && (nat_le 1 bytes && nat_le bytes (2 ^ 28)))) }
{
    has(f, to, 1) && is_made(kind) && bytes >= 1 && bytes <= MOST_BYTES
}

/// A block that is given back.
fn free_fits(f: &Function, at: u32, kind: Block) -> bool
    ensures { result ≡ (checks.has f.now at 1 && checks.is_made kind) }
{
    has(f, at, 1) && is_made(kind)
}

/// A new channel.
fn channel_fits(f: &Function, to: u32, capacity: u32, words: u32) -> bool
    ensures { result ≡ (checks.has f.now to 1 && (nat_le capacity 4096 && nat_le words most_words)) }
{
    has(f, to, 1) && capacity <= 4096 && words <= MOST_WORDS
}

/// A talk.
fn talk_fits(
    ir: &Ir,
    f: &Function,
    branches: &[TalkBranch],
    records: u32,
    to: u32,
    got: u32,
) -> bool
    ensures { result ≡ (checks.fits ir.now f.now 0 (op.Talk branches.now records to got)) }
{
    if branches.is_empty() || branches.len() > 64 {
        return false;
    }
    let count = 4 * branches.len() as u32;
    has(f, records, count) && has(f, to, 1) && branches_fit(f, records, count, to, got, branches)
}

/// A start of a function.
fn start_fits(ir: &Ir, f: &Function, function: u32, arguments: u32, words: u32) -> bool
    ensures { result ≡ (checks.starts ir.now function words && checks.has f.now arguments words) }
{
    starts(ir, function, words) && has(f, arguments, words)
}

/// A par.
fn par_fits(
    ir: &Ir,
    f: &Function,
    functions: &[u32],
    arguments: u32,
    words: u32,
    records: u32,
) -> bool
    ensures { result ≡ (checks.fits ir.now f.now 0 (op.Par functions.now arguments words records)) }
{
    if functions.is_empty() || functions.len() > 64 {
        return false;
    }
    let count = 3 * functions.len() as u32;
    has(f, records, count)
        && has(f, arguments, words)
        && are_apart(arguments, words, records, count)
        && all_start(ir, functions, words)
}

/// Whether an operation, which has that number in a function, keeps the bounds.
pub fn fits(ir: &Ir, f: &Function, pc: usize, op: &Op) -> bool
    requires { pc ≤ length f.now.code }
    ensures { result ≡ checks.fits ir.now f.now pc op.now }
{
    match op {
        Op::Constant { to, word } => constant_fits(f, *to, *word),
        Op::Copy { to, from } => two(f, *to, *from),
        Op::Zero { to, count } => has(f, *to, *count),
        Op::Result { to, word } => result_fits(f, *to, *word),
        Op::Word {
            to,
            left,
            right,
            ..
        } => three(f, *to, *left, *right),
        Op::WordBy {
            op,
            to,
            left,
            word,
            ..
        } => word_by_fits(f, *op, *to, *left, *word),
        Op::Long {
            op,
            to,
            left,
            right,
            ..
        } => long_fits(f, *op, *to, *left, *right),
        Op::Complement { to, from } => two(f, *to, *from),
        Op::IsZero { to, from } => two(f, *to, *from),
        Op::IsLongSet { to, from } => long_set_fits(f, *to, *from),
        Op::Convert { from, into, to, of } => convert_fits(f, *from, *into, *to, *of),
        Op::Extract {
            to,
            from,
            skip,
            size,
        } => extract_fits(f, *to, *from, *skip, *size),
        Op::Offset { to, from, bytes } => offset_fits(f, *to, *from, *bytes),
        Op::Advance {
            size,
            to,
            pointer,
            count,
            ..
        } => advance_fits(f, *size, *to, *pointer, *count),
        Op::Between {
            size,
            to,
            left,
            right,
        } => between_fits(f, *size, *to, *left, *right),
        Op::GetPrivate { to, place } => private_fits(ir, f, *to, *place),
        Op::PutPrivate { place, from } => private_fits(ir, f, *from, *place),
        Op::Skip { count } => skips(f, pc, *count),
        Op::SkipIfZero { slot, count } => skip_if_fits(f, pc, *slot, *count),
        Op::SkipIfSet { slot, count } => skip_if_fits(f, pc, *slot, *count),
        Op::SkipUnless {
            op,
            left,
            right,
            count,
            ..
        } => skip_unless_fits(f, pc, *op, *left, *right, *count),
        Op::GoTo { to } => go_to_fits(f, pc, *to),
        Op::Back { .. } => true,
        Op::Turn { to } => (*to as usize) < f.code.len(),
        Op::Invoke {
            function,
            arguments,
        } => takes_from(ir, f, *function, *arguments),
        Op::InvokePointer {
            class,
            pointer,
            arguments,
        } => pointer_call_fits(ir, f, *class, *pointer, *arguments),
        Op::Become {
            function,
            arguments,
        } => takes_from(ir, f, *function, *arguments),
        Op::Leave { words } => leave_fits(f, *words),
        Op::Load {
            to,
            at,
            offset,
            size,
        } => unit_fits(f, *to, *at, *offset, *size),
        Op::Store {
            at,
            offset,
            size,
            from,
        } => unit_fits(f, *at, *from, *offset, *size),
        Op::LoadUnits {
            to,
            at,
            offset,
            layout,
        } => loads_fit(f, *to, *at, *offset, units_count(ir, *layout)),
        Op::StoreUnits {
            at,
            offset,
            layout,
            from,
        } => stores_fit(f, *at, *offset, *from, units_count(ir, *layout)),
        Op::ClearUnits { at, offset, layout } => clears_fit(ir, f, *at, *offset, *layout),
        Op::Alloc { to, bytes, kind } => alloc_fits(f, *to, *bytes, *kind),
        Op::Free { at, kind } => free_fits(f, *at, *kind),
        Op::NewChan {
            to,
            capacity,
            words,
        } => channel_fits(f, *to, *capacity, *words),
        Op::FreeChan { chan } => has(f, *chan, 1),
        Op::CanRecv { to, chan } => two(f, *to, *chan),
        Op::CanSend { to, chan } => two(f, *to, *chan),
        Op::Talk {
            branches,
            records,
            to,
            got,
        } => talk_fits(ir, f, branches.as_slice(), *records, *to, *got),
        Op::Proc {
            function,
            arguments,
            words,
        } => start_fits(ir, f, *function, *arguments, *words),
        Op::Task {
            function,
            arguments,
            words,
        } => start_fits(ir, f, *function, *arguments, *words),
        Op::Par {
            functions,
            arguments,
            words,
            records,
        } => par_fits(ir, f, functions.as_slice(), *arguments, *words, *records),
        Op::PutByte { byte } => byte_fits(*byte),
        Op::PutCharacter { from } => has(f, *from, 1),
        Op::PutDecimal { from, .. } => has(f, *from, 1),
        Op::PutLongDecimal { from, .. } => has(f, *from, 2),
        Op::PutHex { from } => has(f, *from, 1),
        Op::PutLongHex { from } => has(f, *from, 2),
        Op::PutText { at } => has(f, *at, 1),
        Op::Print => true,
        Op::Terminate { status } => has(f, *status, 1),
        Op::Trap { .. } => true,
    }
}
