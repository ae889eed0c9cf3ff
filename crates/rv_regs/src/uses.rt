//! What operations do with one slot.
//!
//! `specs/Uses.antt` has the slots that operations read and write, and the operations that come next.

ghost use Rattle.std.specs.Prelude.{◌≡◌, ◌++◌, ◌<◌, ◌^◌, ◌*◌, ◌||◌, ◌&&◌, length};
ghost use Rattle.al_ir.specs.Control.{arguments_of, function_at};
ghost use Rattle.al_ir.specs.Step.{class_of, kind_words, long_words};
ghost use Rattle.rv_regs.specs.Uses.{several, one, class_arguments, channels, sent, sent_by, received};
ghost use Rattle.rv_regs.specs.Marks.{is_in, received_by, named_reads, named_writes, may_find, is_call, is_sure};

use al_base::{Kind, Op as Arith};
use al_ir::{Ir, Op, TalkBranch};

/// Whether a slot is one of so many from one on.
fn has(slot: u32, from: u32, count: u32) -> bool
    ensures { result ≡ is_in slot (several from count) }
{
    from <= slot && (slot as u64) < from as u64 + count as u64
}

/// Whether a slot is one of two.
fn two(slot: u32, a: u32, b: u32) -> bool
    ensures { result ≡ is_in slot (one a ++ one b) }
{
    has(slot, a, 1) || has(slot, b, 1)
}

/// Whether a slot is in one of two pairs.
fn pairs(slot: u32, a: u32, b: u32) -> bool
    ensures { result ≡ is_in slot (several a 2 ++ several b 2) }
{
    has(slot, a, 2) || has(slot, b, 2)
}

/// How many words an operator on pairs gives.
fn long_words(op: Arith) -> u32
    ensures { result ≡ length (long_words op 0) }
{
    match op {
        Arith::Lt | Arith::Le | Arith::Eq | Arith::Ne => 1,
        Arith::Add
        | Arith::Sub
        | Arith::Mul
        | Arith::Div
        | Arith::Rem
        | Arith::Shl
        | Arith::Shr
        | Arith::And
        | Arith::Or
        | Arith::Xor => 2,
    }
}

/// How many words an integer of a kind has.
fn kind_words(kind: Kind) -> u32
    ensures { result ≡ kind_words kind }
{
    if kind.width() == 64 { 2 } else { 1 }
}

/// How many words a function takes; none where there is none of that number.
pub fn arguments_of(ir: &Ir, function: u32) -> u32
    ensures { result ≡ arguments_of (function_at ir.now function) }
{
    let functions = ir.functions.as_slice();
    let number = function as usize;
    if number < functions.len() {
        functions[number].arguments
    } else {
        0
    }
}

/// How many words the functions of a class take.
fn class_arguments(ir: &Ir, class: u32) -> u32
    ensures { result ≡ class_arguments ir.now (class_of ir.now class) }
{
    match ir.classes.as_slice().get(class as usize) {
        None => 0,
        Some(functions) => first_arguments(ir, functions.as_slice()),
    }
}

/// How many words the first of these functions takes.
fn first_arguments(ir: &Ir, functions: &[u32]) -> u32
    ensures { result ≡ class_arguments ir.now functions.now }
{
    match functions {
        [] => 0,
        [first, ..] => arguments_of(ir, *first),
    }
}

/// What a call through a pointer reads.
fn pointer_call_reads(ir: &Ir, class: u32, pointer: u32, arguments: u32, slot: u32) -> bool
    ensures { result ≡ is_in slot (one pointer ++ several arguments (class_arguments ir.now (class_of ir.now class))) }
{
    has(slot, pointer, 1) || has(slot, arguments, class_arguments(ir, class))
}

/// Whether a slot has the channel of a branch.
fn is_channel(branches: &[TalkBranch], slot: u32) -> bool
    ensures { result ≡ is_in slot (channels branches.now) }
{
    for b in branches {
        if has(slot, b.chan, 1) {
            return true;
        }
    }
    false
}

/// Whether a slot has a word that a branch sends.
fn sends(branch: &TalkBranch, slot: u32) -> bool
    ensures { result ≡ is_in slot (sent branch.now.send branch.now.words) }
{
    match branch.send {
        Some(from) => has(slot, from, branch.words),
        None => false,
    }
}

/// Whether a slot may get a word that a branch receives.
fn receives(branch: &TalkBranch, got: u32, slot: u32) -> bool
    ensures { result ≡ is_in slot (received_by got branch.now) }
{
    match branch.send {
        Some(_) => false,
        None => has(slot, got, branch.words),
    }
}

/// Whether a slot has a word that is sent.
#[tactic(auto, using(crate::proofs::Branches::sent_more))]
fn is_sent(branches: &[TalkBranch], slot: u32) -> bool
    ensures { result ≡ is_in slot (sent_by branches.now) }
{
    for b in branches {
        if sends(b, slot) {
            return true;
        }
    }
    false
}

/// Whether a slot may get a word that is received.
#[tactic(auto, using(crate::proofs::Branches::received_more))]
fn is_received(branches: &[TalkBranch], got: u32, slot: u32) -> bool
    ensures { result ≡ is_in slot (received got branches.now) }
{
    for b in branches {
        if receives(b, got, slot) {
            return true;
        }
    }
    false
}

/// Whether a slot is one of so many records of so many words each.
fn is_record(slot: u32, records: u32, words: u32, count: usize) -> bool
    requires { 0 < words }
    ensures { result ≡ is_in slot (several records (words * count)) }
{
    records <= slot && (((slot - records) / words) as usize) < count
}

/// Whether a slot has a word that a talk sends, or may get one that it receives.
#[tactic(auto, using(crate::proofs::Branches::is_in_append))]
fn is_passed(branches: &[TalkBranch], got: u32, slot: u32) -> bool
    ensures { result ≡ is_in slot (sent_by branches.now ++ received got branches.now) }
{
    is_sent(branches, slot) || is_received(branches, got, slot)
}

/// Whether a talk finds a slot by an address.
fn talk_finds(branches: &[TalkBranch], records: u32, got: u32, slot: u32) -> bool
    ensures { result ≡ is_in slot (several records (4 * length branches.now) ++ sent_by branches.now ++ received got branches.now) }
{
    is_record(slot, records, 4, branches.len()) || is_passed(branches, got, slot)
}

/// Whether a start of several procs finds a slot by an address.
fn par_finds(functions: &[u32], arguments: u32, words: u32, records: u32, slot: u32) -> bool
    ensures { result ≡ is_in slot (several records (3 * length functions.now) ++ several arguments words) }
{
    is_record(slot, records, 3, functions.len()) || has(slot, arguments, words)
}

/// Whether an operation may find a slot by an address.
pub fn may_find(ir: &Ir, op: &Op, slot: u32) -> bool
    ensures { result ≡ may_find ir.now op.now slot }
{
    match op {
        Op::Zero { to, count } => *count > 8 && has(slot, *to, *count),
        Op::LoadUnits { to, .. } => *to <= slot,
        Op::StoreUnits { from, .. } => *from <= slot,
        Op::Talk {
            branches,
            records,
            got,
            ..
        } => talk_finds(branches.as_slice(), *records, *got, slot),
        Op::Proc {
            arguments,
            words,
            ..
        } => has(slot, *arguments, *words),
        Op::Task {
            arguments,
            words,
            ..
        } => has(slot, *arguments, *words),
        Op::Par {
            functions,
            arguments,
            words,
            records,
        } => { par_finds(functions.as_slice(), *arguments, *words, *records, slot) }
        _ => false,
    }
}

/// Whether an operation reads a slot that it finds by no address.
pub fn reads(ir: &Ir, op: &Op, slot: u32) -> bool
    ensures { result ≡ is_in slot (named_reads ir.now op.now) }
{
    match op {
        Op::Copy { from, .. } => has(slot, *from, 1),
        Op::Word { left, right, .. } => two(slot, *left, *right),
        Op::WordBy { left, .. } => has(slot, *left, 1),
        Op::Long { left, right, .. } => pairs(slot, *left, *right),
        Op::Complement { from, .. } => has(slot, *from, 1),
        Op::IsZero { from, .. } => has(slot, *from, 1),
        Op::IsLongSet { from, .. } => has(slot, *from, 2),
        Op::Convert { from, of, .. } => has(slot, *of, kind_words(*from)),
        Op::Extract { from, .. } => has(slot, *from, 1),
        Op::Offset { from, .. } => has(slot, *from, 1),
        Op::Advance { pointer, count, .. } => two(slot, *pointer, *count),
        Op::Between { left, right, .. } => two(slot, *left, *right),
        Op::PutPrivate { from, .. } => has(slot, *from, 1),
        Op::SkipIfZero { slot: test, .. } => has(slot, *test, 1),
        Op::SkipIfSet { slot: test, .. } => has(slot, *test, 1),
        Op::SkipUnless { left, right, .. } => two(slot, *left, *right),
        Op::Invoke {
            function,
            arguments,
        } => has(slot, *arguments, arguments_of(ir, *function)),
        Op::InvokePointer {
            class,
            pointer,
            arguments,
        } => { pointer_call_reads(ir, *class, *pointer, *arguments, slot) }
        Op::Become {
            function,
            arguments,
        } => has(slot, *arguments, arguments_of(ir, *function)),
        Op::Leave { words } => has(slot, 0, *words),
        Op::Load { at, .. } => has(slot, *at, 1),
        Op::Store { at, from, .. } => two(slot, *at, *from),
        Op::LoadUnits { at, .. } => has(slot, *at, 1),
        Op::StoreUnits { at, .. } => has(slot, *at, 1),
        Op::ClearUnits { at, .. } => has(slot, *at, 1),
        Op::Free { at, .. } => has(slot, *at, 1),
        Op::FreeChan { chan } => has(slot, *chan, 1),
        Op::CanRecv { chan, .. } => has(slot, *chan, 1),
        Op::CanSend { chan, .. } => has(slot, *chan, 1),
        Op::Talk { branches, .. } => is_channel(branches.as_slice(), slot),
        Op::PutCharacter { from } => has(slot, *from, 1),
        Op::PutDecimal { from, .. } => has(slot, *from, 1),
        Op::PutLongDecimal { from, .. } => has(slot, *from, 2),
        Op::PutHex { from } => has(slot, *from, 1),
        Op::PutLongHex { from } => has(slot, *from, 2),
        Op::PutText { at } => has(slot, *at, 1),
        Op::Terminate { status } => has(slot, *status, 1),
        Op::Constant { .. }
        | Op::Zero { .. }
        | Op::Result { .. }
        | Op::GetPrivate { .. }
        | Op::Skip { .. }
        | Op::GoTo { .. }
        | Op::Back { .. }
        | Op::Turn { .. }
        | Op::Alloc { .. }
        | Op::NewChan { .. }
        | Op::Proc { .. }
        | Op::Task { .. }
        | Op::Par { .. }
        | Op::PutByte { .. }
        | Op::Print
        | Op::Trap { .. } => false,
    }
}

/// Whether an operation writes a slot that it finds by no address.
pub fn writes(ir: &Ir, op: &Op, slot: u32) -> bool
    ensures { result ≡ is_in slot (named_writes ir.now op.now) }
{
    match op {
        Op::Constant { to, .. } => has(slot, *to, 1),
        Op::Copy { to, .. } => has(slot, *to, 1),
        Op::Zero { to, count } => has(slot, *to, *count),
        Op::Result { to, .. } => has(slot, *to, 1),
        Op::Word { to, .. } => has(slot, *to, 1),
        Op::WordBy { to, .. } => has(slot, *to, 1),
        Op::Long { op, to, .. } => has(slot, *to, long_words(*op)),
        Op::Complement { to, .. } => has(slot, *to, 1),
        Op::IsZero { to, .. } => has(slot, *to, 1),
        Op::IsLongSet { to, .. } => has(slot, *to, 1),
        Op::Convert { into, to, .. } => has(slot, *to, kind_words(*into)),
        Op::Extract { to, .. } => has(slot, *to, 1),
        Op::Offset { to, .. } => has(slot, *to, 1),
        Op::Advance { to, .. } => has(slot, *to, 1),
        Op::Between { to, .. } => has(slot, *to, 1),
        Op::GetPrivate { to, .. } => has(slot, *to, 1),
        Op::Load { to, .. } => has(slot, *to, 1),
        Op::Alloc { to, .. } => has(slot, *to, 1),
        Op::NewChan { to, .. } => has(slot, *to, 1),
        Op::CanRecv { to, .. } => has(slot, *to, 1),
        Op::CanSend { to, .. } => has(slot, *to, 1),
        Op::Talk { to, .. } => has(slot, *to, 1),
        Op::PutText { at } => has(slot, *at, 1),
        Op::PutPrivate { .. }
        | Op::Skip { .. }
        | Op::SkipIfZero { .. }
        | Op::SkipIfSet { .. }
        | Op::SkipUnless { .. }
        | Op::GoTo { .. }
        | Op::Back { .. }
        | Op::Turn { .. }
        | Op::Invoke { .. }
        | Op::InvokePointer { .. }
        | Op::Become { .. }
        | Op::Leave { .. }
        | Op::Store { .. }
        | Op::LoadUnits { .. }
        | Op::StoreUnits { .. }
        | Op::ClearUnits { .. }
        | Op::Free { .. }
        | Op::FreeChan { .. }
        | Op::Proc { .. }
        | Op::Task { .. }
        | Op::Par { .. }
        | Op::PutByte { .. }
        | Op::PutCharacter { .. }
        | Op::PutDecimal { .. }
        | Op::PutLongDecimal { .. }
        | Op::PutHex { .. }
        | Op::PutLongHex { .. }
        | Op::Print
        | Op::Terminate { .. }
        | Op::Trap { .. } => false,
    }
}

/// Whether an operation is a call that comes back.
pub fn is_call(op: &Op) -> bool
    ensures { result ≡ is_call op.now }
{
    match op {
        Op::Invoke { .. } | Op::InvokePointer { .. } => true,
        _ => false,
    }
}

/// Whether an operation has another word in each slot that it writes, whatever is answered.
pub fn is_sure(op: &Op) -> bool
    ensures { result ≡ is_sure op.now }
{
    match op {
        Op::PutText { .. } => false,
        _ => true,
    }
}
