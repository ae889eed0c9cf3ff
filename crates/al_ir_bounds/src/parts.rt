//! Slots, sizes, functions and layouts that operations name.
ghost use Rattle.std.specs.Prelude.{◌≡◌, ◌≤◌, nat_lt, length};
ghost use Rattle.std.specs.List.{list_all};
ghost use Rattle.al_base.specs.Arith as base;
ghost use Rattle.al_ir.specs.Control.{arguments_of, function_at};
ghost use Rattle.al_ir.specs.Step.{kind_words, long_words};
ghost use Rattle.al_ir_bounds.specs.Checks as checks;

use al_base::{Kind, Op as Arith};
use al_event::Block;
use al_ir::{Function, Ir, Run, TalkBranch};

/// The most words of a value.
pub const MOST_WORDS: u32 = 1024;

/// Whether a unit may have so many bytes.
pub fn is_size(n: u8) -> bool
    ensures { result ≡ checks.is_size n }
{
    n == 1 || n == 2 || n == 4
}

/// Whether a word is a constant of 12 bits, extended with its sign.
pub fn is_short(n: u32) -> bool
    ensures { result ≡ checks.is_short n }
{
    n < 2048 || n >= 4_294_965_248
}

/// Whether an operator compares.
pub fn compares(op: Arith) -> bool
    ensures { result ≡ checks.compares op }
{
    match op {
        Arith::Lt | Arith::Le | Arith::Eq | Arith::Ne => true,
        Arith::Add
        | Arith::Sub
        | Arith::Mul
        | Arith::Div
        | Arith::Rem
        | Arith::Shl
        | Arith::Shr
        | Arith::And
        | Arith::Or
        | Arith::Xor => false,
    }
}

/// Whether an operator divides.
pub fn divides(op: Arith) -> bool
    ensures { result ≡ base.divides op }
{
    match op {
        Arith::Div | Arith::Rem => true,
        Arith::Add
        | Arith::Sub
        | Arith::Mul
        | Arith::Shl
        | Arith::Shr
        | Arith::And
        | Arith::Or
        | Arith::Xor
        | Arith::Lt
        | Arith::Le
        | Arith::Eq
        | Arith::Ne => false,
    }
}

/// How many words what an operator gives on pairs of words has.
pub fn long_words(op: Arith) -> u32
    ensures { result ≡ length (long_words op 0) }
{
    if compares(op) { 1 } else { 2 }
}

/// How many words an integer of a kind has.
pub fn kind_words(kind: Kind) -> u32
    ensures { result ≡ kind_words kind }
{
    if kind.width() == 64 { 2 } else { 1 }
}

/// Whether so many slots from one on are slots of a function.
pub fn has(f: &Function, t: u32, n: u32) -> bool
    ensures { result ≡ checks.has f.now t n }
{
    t as u64 + n as u64 <= f.slots as u64
}

/// Whether so many slots from one on are none of so many from another on.
pub fn are_apart(t: u32, words: u32, from: u32, n: u32) -> bool
    ensures { result ≡ checks.are_apart t words from n }
{
    t as u64 + words as u64 <= from as u64 || from as u64 + n as u64 <= t as u64
}

/// How many words a function takes; none where there is none of that number.
pub fn arguments_of(ir: &Ir, function: u32) -> u32
    ensures { result ≡ arguments_of (function_at ir.now function) }
{
    let functions = ir.functions.as_slice();
    let number = function as usize;
    if number < functions.len() {
        functions[number].arguments
    } else {
        0
    }
}

/// Whether there is a function of that number.
pub fn is_function(ir: &Ir, function: u32) -> bool
    ensures { result ≡ nat_lt function (length ir.now.functions) }
{
    (function as usize) < ir.functions.len()
}

/// Whether a function of that number finds its words in slots from one on.
pub fn takes_from(ir: &Ir, f: &Function, function: u32, arguments: u32) -> bool
    ensures { result ≡ checks.takes_from ir.now f.now function arguments }
{
    is_function(ir, function) && has(f, arguments, arguments_of(ir, function))
}

/// Whether each of these functions does.
fn all_take_from(ir: &Ir, f: &Function, class: &[u32], arguments: u32) -> bool
    ensures { result ≡ list_all (λ g. checks.takes_from ir.now f.now g arguments) class.now }
{
    class.iter().all(|g| takes_from(ir, f, *g, arguments))
}

/// Whether each function of a class does.
pub fn class_takes_from(ir: &Ir, f: &Function, class: u32, arguments: u32) -> bool
    ensures { result ≡ checks.class_takes_from ir.now f.now class arguments }
{
    match ir.classes.as_slice().get(class as usize) {
        None => false,
        Some(functions) => all_take_from(ir, f, functions.as_slice(), arguments),
    }
}

/// Whether a function of that number is started with so many words.
pub fn starts(ir: &Ir, function: u32, words: u32) -> bool
    ensures { result ≡ checks.starts ir.now function words }
{
    is_function(ir, function) && arguments_of(ir, function) == words
}

/// Whether each of these functions is.
pub fn all_start(ir: &Ir, functions: &[u32], words: u32) -> bool
    ensures { result ≡ list_all (λ g. checks.starts ir.now g words) functions.now }
{
    functions.iter().all(|g| starts(ir, *g, words))
}

/// Whether what a branch sends or receives stands where it may.
fn sent_fits(f: &Function, records: u32, count: u32, to: u32, got: u32, b: TalkBranch) -> bool
    ensures { result ≡ checks.sent_fits f.now records count to got b.words b.send }
{
    match b.send {
        None => has(f, got, b.words) && are_apart(to, 1, got, b.words),
        Some(t) => has(f, t, b.words) && are_apart(t, b.words, records, count),
    }
}

/// Whether a branch of a talk fits.
fn branch_fits(f: &Function, records: u32, count: u32, to: u32, got: u32, b: TalkBranch) -> bool
    ensures { result ≡ checks.branch_fits f.now records count to got b }
{
    has(f, b.chan, 1)
        && are_apart(b.chan, 1, records, count)
        && b.words <= MOST_WORDS
        && sent_fits(f, records, count, to, got, b)
}

/// Whether each branch of a talk does.
pub fn branches_fit(
    f: &Function,
    records: u32,
    count: u32,
    to: u32,
    got: u32,
    branches: &[TalkBranch],
) -> bool
    ensures { result ≡ list_all (checks.branch_fits f.now records count to got) branches.now }
{
    branches
        .iter()
        .all(|b| branch_fits(f, records, count, to, got, *b))
}

/// Whether a jump over so many operations comes to an operation.
pub fn skips(f: &Function, pc: usize, count: u32) -> bool
    requires { pc ≤ length f.now.code }
    ensures { result ≡ checks.skips f.now pc count }
{
    let left = f.code.len() - pc;
    left > 1 && left - 1 > count as usize
}

/// Whether a program makes and gives back blocks of this kind.
pub fn is_made(kind: Block) -> bool
    ensures { result ≡ checks.is_made kind }
{
    match kind {
        Block::Global => false,
        Block::Heap | Block::Frame => true,
    }
}

/// How many units runs have, where they are few.
pub fn few_of(runs: &[Run]) -> Option<u32>
    ensures { result ≡ checks.few_of runs.now }
{
    let mut count: u32 = 0;
    for run in runs {
        if run.count > MOST_WORDS - count {
            return None;
        }
        count += run.count;
    }
    Some(count)
}

/// How many units the layout of that number has, where it is a layout and they are few.
pub fn units_count(ir: &Ir, layout: u32) -> Option<u32>
    ensures { result ≡ checks.units_count ir.now layout }
{
    match ir.layouts.as_slice().get(layout as usize) {
        None => None,
        Some(runs) => few_of(runs.as_slice()),
    }
}
