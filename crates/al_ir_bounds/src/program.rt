//! Functions, layouts, globals and whole programs.
ghost use Rattle.std.specs.Prelude.{◌≡◌, ◌+◌, ◌%◌, ◌^◌, ◌&&◌, true, nat_le, nat_lt, nat_eq, length};
ghost use Rattle.std.specs.List.{list_all};
ghost use Rattle.al_ir.specs.Bounds as bounds;
ghost use Rattle.al_ir.specs.Control as control;
ghost use Rattle.al_ir.specs.declared.op.Op.TheVariants as op;
ghost use Rattle.al_ir.specs.declared.ir.Operation.{Operation as OperationSpec};
ghost use Rattle.al_ir_bounds.specs.Checks as checks;

use crate::operations::fits;
use crate::parts::{MOST_WORDS, arguments_of, few_of, is_size};
use al_base::Op as Arith;
use al_ir::{Function, Functions, Global, Ir, Op, Operation, Run, Runs, StartItem};

/// The most jumps between two turns of a task.
const MOST_JUMPS: u32 = 32_736;

/// The most starting values of globals.
const MOST_STARTS: usize = 1 << 21;

/// Whether a line is one of a text.
fn is_line(n: u32) -> bool
    ensures { result ≡ checks.is_line n }
{
    n >= 1 && n <= 1_048_577
}

/// Whether each operation has a line of a text.
fn have_lines(code: &[Operation]) -> bool
    ensures { result ≡ list_all (λ (o : OperationSpec). checks.is_line o.line) code.now }
{
    code.iter().all(|o| is_line(o.line))
}

/// Whether all operations of a function keep the bounds.
fn operations_fit(ir: &Ir, f: &Function) -> bool
    ensures { result ≡ checks.operations_fit ir.now f.now 0 f.now.code }
{
    let code = f.code.as_slice();
    let mut pc: usize = 0;
    for o in code {
        if !fits(ir, f, pc, &o.op) {
            return false;
        }
        pc += 1;
    }
    true
}

/// Whether a function does not go on behind an operation.
fn stops(op: &Op) -> bool
    ensures { result ≡ bounds.stops op.now }
{
    match op {
        Op::GoTo { .. }
        | Op::Back { .. }
        | Op::Turn { .. }
        | Op::Become { .. }
        | Op::Leave { .. }
        | Op::Terminate { .. }
        | Op::Trap { .. } => true,
        _ => false,
    }
}

/// Whether a function does not go on behind its last operation.
fn ends_well(code: &[Operation]) -> bool
    ensures { result ≡ checks.ends_well code.now }
{
    if code.is_empty() {
        return false;
    }
    stops(&code[code.len() - 1].op)
}

/// How many jumps code for an operator on words makes.
fn word_jumps(by: Arith) -> u32
    ensures { (signed : _) → (to : _) → (left : _) → (right : _) → result ≡ bounds.jumps_of (op.Word by signed to left right) }
{
    match by {
        Arith::Div | Arith::Rem => 1,
        _ => 0,
    }
}

/// How many jumps code for an operation makes at most.
fn jumps_of(op: &Op) -> u32
    ensures { result ≡ bounds.jumps_of op.now }
{
    match op {
        Op::Zero { count, .. } => 1 + count / 8,
        Op::Word { op, .. } => word_jumps(*op),
        Op::Long { .. }
        | Op::Invoke { .. }
        | Op::Become { .. }
        | Op::LoadUnits { .. }
        | Op::StoreUnits { .. }
        | Op::ClearUnits { .. }
        | Op::PutText { .. } => 2,
        Op::Skip { .. }
        | Op::SkipIfZero { .. }
        | Op::SkipIfSet { .. }
        | Op::SkipUnless { .. }
        | Op::GoTo { .. }
        | Op::Back { .. }
        | Op::Turn { .. }
        | Op::Leave { .. } => 1,
        Op::InvokePointer { .. } => 20,
        _ => 0,
    }
}

/// Whether code for these operations makes few enough jumps.
fn few_jumps(code: &[Operation]) -> bool
    ensures { result ≡ nat_le (checks.jumps_in code.now) bounds.most_jumps }
{
    let mut count: u32 = 0;
    for o in code {
        let more = jumps_of(&o.op);
        if more > MOST_JUMPS - count {
            return false;
        }
        count += more;
    }
    true
}

/// Whether the slots and the words of a function are as many as they may be.
fn has_room(f: &Function) -> bool
    ensures { result ≡ checks.has_room f.now }
{
    f.stack <= 16384 && f.slots as u64 + 8 <= f.stack as u64 && f.arguments <= f.slots
}

/// Whether a function keeps the bounds.
fn is_function(ir: &Ir, f: &Function) -> bool
    ensures { result ≡ checks.is_function ir.now f.now }
{
    is_line(f.line)
        && have_lines(f.code.as_slice())
        && has_room(f)
        && operations_fit(ir, f)
        && ends_well(f.code.as_slice())
        && few_jumps(f.code.as_slice())
}

/// Whether each function does.
fn are_functions(ir: &Ir, functions: &[Function]) -> bool
    ensures { result ≡ list_all (checks.is_function ir.now) functions.now }
{
    functions.iter().all(|f| is_function(ir, f))
}

/// Whether each class has few functions.
fn are_small(classes: &[Functions]) -> bool
    ensures { result ≡ list_all (λ (fs : _). nat_le (length fs) 65536) classes.now }
{
    classes.iter().all(|class| class.len() <= 65_536)
}

/// Whether units that follow each other lie in a value.
fn run_fits(run: Run) -> bool
    ensures { result ≡ checks.run_fits run }
{
    is_size(run.size) && run.at as u64 + run.count as u64 * run.size as u64 <= MOST_WORDS as u64
}

/// Whether each of these does.
fn runs_fit(runs: &[Run]) -> bool
    ensures { result ≡ list_all checks.run_fits runs.now }
{
    runs.iter().all(|run| run_fits(*run))
}

/// Whether there are few units.
fn are_few(runs: &[Run]) -> bool
    ensures { result ≡ nat_le (checks.count_of runs.now) bounds.most_words }
{
    few_of(runs).is_some()
}

/// Whether a layout is one of a value that is copied whole.
fn is_layout(runs: &[Run]) -> bool
    ensures { result ≡ checks.is_layout runs.now }
{
    runs_fit(runs) && are_few(runs)
}

/// Whether each layout is.
fn are_layouts(layouts: &[Runs]) -> bool
    ensures { result ≡ list_all checks.is_layout layouts.now }
{
    layouts.iter().all(|runs| is_layout(runs.as_slice()))
}

/// Whether a word has no more than so many bytes.
fn has_bytes(word: u32, size: u8) -> bool
    requires { checks.is_size size ≡ true }
    ensures { result ≡ nat_lt word (256 ^ size) }
{
    match size {
        1 => word < 256,
        2 => word < 65_536,
        _ => true,
    }
}

/// Whether a value stands in its place.
fn stands_well(i: StartItem) -> bool
    requires { checks.is_size i.size ≡ true }
    ensures { result ≡ nat_eq (i.at % i.size) 0 }
{
    i.at % i.size as u32 == 0
}

/// Whether a value at the start stands behind the others in its global.
fn item_fits(behind: u64, bytes: u32, i: StartItem) -> bool
    ensures { result ≡ checks.item_fits behind bytes i }
{
    behind <= i.at as u64
        && is_size(i.size)
        && stands_well(i)
        && i.at as u64 + i.size as u64 <= bytes as u64
        && has_bytes(i.word, i.size)
}

/// Whether all values of a global do.
fn items_fit(bytes: u32, items: &[StartItem]) -> bool
    ensures { result ≡ checks.items_fit 0 bytes items.now }
{
    let mut behind: u64 = 0;
    for i in items {
        if !item_fits(behind, bytes, *i) {
            return false;
        }
        behind = i.at as u64 + i.size as u64;
    }
    true
}

/// Whether a global keeps the bounds.
fn is_global(g: &Global) -> bool
    ensures { result ≡ checks.is_global g.now }
{
    g.bytes >= 1 && g.bytes <= 1 << 28 && items_fit(g.bytes, g.start.as_slice())
}

/// Whether each global does.
fn are_globals(globals: &[Global]) -> bool
    ensures { result ≡ list_all checks.is_global globals.now }
{
    globals.iter().all(|g| is_global(g))
}

/// Whether there are few enough values at the start.
fn few_starts(globals: &[Global]) -> bool
    ensures { result ≡ nat_le (checks.start_count globals.now) (2 ^ 21) }
{
    let mut count: usize = 0;
    for g in globals {
        if g.start.len() > MOST_STARTS - count {
            return false;
        }
        count += g.start.len();
    }
    true
}

/// Whether the main function is there, and takes nothing, or a count and a pointer.
fn main_fits(ir: &Ir) -> bool
    ensures { result ≡ checks.main_fits ir.now }
{
    if (ir.main as usize) < ir.functions.len() {
        let words = arguments_of(ir, ir.main);
        words == 0 || words == 2
    } else {
        false
    }
}

/// Whether a program keeps the bounds of operations, which code for it rests on.
pub fn is_bounded(ir: &Ir) -> bool
    ensures { result ≡ checks.is_bounded ir.now }
{
    are_functions(ir, ir.functions.as_slice())
        && ir.functions.len() <= 65_536
        && are_small(ir.classes.as_slice())
        && are_layouts(ir.layouts.as_slice())
        && are_globals(ir.globals.as_slice())
        && few_starts(ir.globals.as_slice())
        && ir.privates <= 16_384
        && main_fits(ir)
}
