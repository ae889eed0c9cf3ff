//! Runtime calls, with what they ask and how a task goes on.

ghost use Rattle.std.specs.Prelude.{◌≡◌, IsTrue, IfOk, IfSome, slice_get};
ghost use Rattle.rv_exec.specs.Answers.{AnswersTalk, CanAnswer};
ghost use Rattle.al_world.specs.Control.{received_by};
ghost use Rattle.rv_exec.specs.Shown.{WaitsFor, bytes_of};

use crate::asks::{compare, first_of, kept, shown};
use crate::numbers::{code_of, halves, parts, word, words_of};
use al_base::NoMemory;
use al_event::{Act, Branch};
use rv_exec::{Asked, Held, resume, stretch};
use rv_isa::image::Image;
use std::alloc::Global;
use std::process::Abort;
use std::test::Fail;

/// How many words a branch of a talk receives.
fn received(branches: &[Branch], number: usize) -> u32
    ensures { result ≡ received_by (slice_get branches.now number) }
{
    match branches.get(number) {
        Some(branch) => {
            if branch.send.is_some() {
                0
            } else {
                branch.words
            }
        }
        None => 0,
    }
}

fn is_talk_answer(branches: &[Branch], words: &[u32]) -> bool
    ensures { IsTrue result → AnswersTalk branches.now words.now }
{
    match words.first() {
        Some(branch) => {
            let received = received(branches, *branch as usize);
            words.len() - 1 == received as usize
        }
        None => false,
    }
}

fn is_answer(act: &Act, words: &[u32]) -> bool
    ensures { IsTrue result → CanAnswer act.now words.now }
{
    match act {
        Act::Load { .. } => words.len() == 1,
        Act::Alloc { .. } => words.len() == 1,
        Act::Talk { branches } => is_talk_answer(branches.as_slice(), words),
        _ => false,
    }
}

/// A task that goes on with an answer.
fn resumed(held: Held, act: &Act, words: &[u32]) -> Held
    requires waits { WaitsFor held.hart act.now }
    requires can { CanAnswer act.now words.now }
    ensures { bytes_of result.privates ≡ bytes_of held.privates }
{
    let Held {
        proc,
        hart,
        privates,
    } = held;
    Held {
        proc,
        hart: resume(hart, words),
        privates,
    }
}

/// What a task asks after an answer.
fn next_ask(
    rt: &impl Abort,
    alloc: Global,
    image: &Image,
    asked: Asked,
    words: &[u32],
) -> Result<Asked, NoMemory>
    requires waits { WaitsFor asked.held.hart asked.act }
    requires bytes { bytes_of asked.held.privates ≡ image.now.privates }
{
    let Asked { held, act, .. } = asked;
    let is_answer = is_answer(&act, words);
    assert!(rt; is_answer);
    let held = kept(resumed(held, &act, words), act);
    match stretch(alloc, image, held) {
        Ok(asked) => Ok(asked),
        Err((_, no_memory)) => Err(no_memory),
    }
}

/// A receive of two words on channel 5 and a send on channel 6; then the second word received is the status.
static TALK: &str = "\
00500293 addi x5, x0, 5
00512023 sw x5, 0(x2)
10010293 addi x5, x2, 256
00512423 sw x5, 8(x2)
00200293 addi x5, x0, 2
00512623 sw x5, 12(x2)
00600293 addi x5, x0, 6
00512823 sw x5, 16(x2)
00100293 addi x5, x0, 1
00512a23 sw x5, 20(x2)
08010293 addi x5, x2, 128
00512c23 sw x5, 24(x2)
00100293 addi x5, x0, 1
00512e23 sw x5, 28(x2)
00900293 addi x5, x0, 9
08512023 sw x5, 128(x2)
00010513 addi x10, x2, 0
00200593 addi x11, x0, 2
00a00893 addi x17, x0, 10
00000073 ecall
10412503 lw x10, 260(x2)
00f00893 addi x17, x0, 15
00000073 ecall
";

/// Compares what that task asks first, and what it asks after an answer.
fn goes_on(rt: &impl Abort, alloc: Global, words: &[u32], want: &str) -> Result<(), Fail> {
    let code = code_of(rt, alloc, TALK)?;
    let (image, asked) = first_of(rt, alloc, &code, &[])?;
    let talk = "Talk { branches: Items { items: [Branch { chan: 5, words: 2, send: None }, \
        Branch { chan: 6, words: 1, send: Some(Items { items: [9] }) }] } }";
    assert_eq!(rt; shown(alloc, &asked)?.as_str(), talk);
    let next = next_ask(rt, alloc, &image, asked, words)?;
    assert_eq!(rt; shown(alloc, &next)?.as_str(), want);
    Ok(())
}

#[test]
fn talks_and_goes_on(rt: HostRuntime) -> Result<(), Fail> {
    goes_on(&rt, rt.alloc(), &[0, 11, 12], "Terminate(12)")?;
    goes_on(&rt, rt.alloc(), &[1], "Terminate(0)")
}

/// LUI and ADDI, which put a value into a register.
fn upper(register: u32, value: u32) -> u32 {
    (value.wrapping_add(0x800) & 0xffff_f000) | (register << 7) | 0x37
}

fn lower(register: u32, value: u32) -> u32 {
    (value << 20) | (register << 15) | (register << 7) | 0x13
}

/// Compares what a call asks, or how that begins, by the values of registers 17, 10, 11 and 12, on an empty stack.
fn call(rt: &impl Abort, alloc: Global, registers: &str, want: &str) -> Result<(), Fail> {
    let mut code = Vec::new(alloc);
    let (number, rest) = parts(rt, registers);
    code.push(upper(17, word(rt, number)))?;
    code.push(lower(17, word(rt, number)))?;
    let arguments = words_of(rt, alloc, rest)?;
    let mut register = 10u32;
    for value in &arguments {
        code.push(upper(register, *value))?;
        code.push(lower(register, *value))?;
        register = register.wrapping_add(1);
    }
    code.push(0x73)?;
    compare(rt, alloc, &code, &[], want, 9)
}

/// Registers, in hexadecimal. The stack window goes from 4000000 to 4400000.
static ILLEGAL: &str = "\
0 0 0 0
13 0 0 0
ffffffff 0 0 0
# numbers of traps
3 0 0 0
3 e 0 0
# no bytes, and other kinds of blocks
4 0 1 0
4 8 0 0
4 8 3 0
5 10000000 0 0
5 10000000 3 0
# channels
6 1001 1 0
6 1 401 0
# records: their number and their place
a 4000000 0 0
a 4000000 41 0
a 4000002 1 0
a 3fffff0 1 0
a 43ffff4 1 0
d 4000000 0 0
d 4000000 41 0
d 43ffff8 1 0
# functions, their numbers of words and the place of these
b 2 4000000 0
b 0 4000000 1
b 1 3fffffc 2
b 1 4000002 2
b 1 43ffffc 2
c 2 4000000 0
c 0 4000000 1
c 1 3fffffc 2
";

/// What lies just within the bounds, and what it asks.
static LEGAL: &str = "\
3 d 0 0 | Trap(Call)
4 8 2 0 | Alloc { bytes: 8, kind: Frame }
6 1000 400 0 | NewChan { capacity: 4096, words: 1024 }
a 4000000 40 0 | Talk {
a 43ffff0 1 0 | Talk {
b 0 0 0 | Proc(
c 1 43ffff8 2 | Task(
";

#[test]
fn illegal_calls(rt: HostRuntime) -> Result<(), Fail> {
    for line in ILLEGAL.lines() {
        if !line.starts_with('#') {
            call(&rt, rt.alloc(), line, "Trap(Illegal)")?;
        }
    }
    Ok(())
}

#[test]
fn legal_calls(rt: HostRuntime) -> Result<(), Fail> {
    for line in LEGAL.lines() {
        let (registers, want) = halves(&rt, line);
        call(&rt, rt.alloc(), registers, want)?;
    }
    Ok(())
}
