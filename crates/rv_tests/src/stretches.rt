//! Stretches of small images: their words, what they ask, and how many words they fetch.

use crate::asks::{ask_shown, compare, first_of, kept};
use crate::numbers::{code_of, decimal, parts, word};
use al_base::NoMemory;
use rv_exec::{Asked, Held};
use rv_isa::image::Image;
use std::alloc::Global;
use std::process::Abort;
use std::test::Fail;

/// Code with its meaning, and behind it how many words it fetches and what it asks.
static ASKS: &str = "\
# ends after two words
00100893 addi x17, x0, 1
00000073 ecall
asks 2 End
# leaves the code
00100893 addi x17, x0, 1
asks 1 Trap(Illegal)
# stores -7 to the stack, loads its low byte with the sign, and prints it as a decimal number
ff900513 addi x10, x0, -7
00a12423 sw x10, 8(x2)
00810503 lb x10, 8(x2)
40055593 srai x11, x10, 0
41f55593 srai x11, x10, 31
00100613 addi x12, x0, 1
01100893 addi x17, x0, 17
00000073 ecall
00e00893 addi x17, x0, 14
00000073 ecall
asks 10 Print { text: Items { items: [45, 55] } }
# private accesses, and one of shared storage
00112083 lw x1, 1(x2)
asks 1 Trap(Align)
ffc12083 lw x1, -4(x2)
asks 1 Trap(Illegal)
00822083 lw x1, 8(x4)
asks 1 Trap(Illegal)
0002a083 lw x1, 0(x5)
asks 1 Load { at: 0, size: 4 }
# hexadecimal text: the bytes of 2bc000000de, and of 0
0de00513 addi x10, x0, 222
2bc00593 addi x11, x0, 700
01200893 addi x17, x0, 18
00000073 ecall
00e00893 addi x17, x0, 14
00000073 ecall
asks 6 Print { text: Items { items: [50, 98, 99, 48, 48, 48, 48, 48, 48, 100, 101] } }
01200893 addi x17, x0, 18
00000073 ecall
00e00893 addi x17, x0, 14
00000073 ecall
asks 4 Print { text: Items { items: [48] } }
# a talk of a record with direction 2
00200293 addi x5, x0, 2
00512223 sw x5, 4(x2)
00010513 addi x10, x2, 0
00100593 addi x11, x0, 1
00a00893 addi x17, x0, 10
00000073 ecall
asks 6 Trap(Illegal)
";

/// Four instructions, 2^24 times over, and then End.
static HOT_LOOP: &str = "\
01000337 lui x6, 0x1000
00128293 addi x5, x5, 1
005383b3 add x7, x7, x5
0053ce33 xor x28, x7, x5
fe629ae3 bne x5, x6, -12
00100893 addi x17, x0, 1
00000073 ecall
asks 67108867 End
";

/// Two loads, two sums and two stores in the private stack, 2^22 times over, and then End.
static STACK_LOOP: &str = "\
00400337 lui x6, 0x400
00012283 lw x5, 0(x2)
00412383 lw x7, 4(x2)
00128293 addi x5, x5, 1
005383b3 add x7, x7, x5
00512023 sw x5, 0(x2)
00712223 sw x7, 4(x2)
fe6294e3 bne x5, x6, -24
00100893 addi x17, x0, 1
00000073 ecall
asks 29360131 End
";

/// A counted jump: the one that is too many is fetched.
static LOOP: &str = "\
0000006f jal x0, 0
asks 134217729 Trap(Illegal)
";

/// Function 1 with the words 7 and 8, and function 0 with none.
static STARTS: &str = "\
00700293 addi x5, x0, 7
00512023 sw x5, 0(x2)
00800293 addi x5, x0, 8
00512223 sw x5, 4(x2)
00100293 addi x5, x0, 1
00512823 sw x5, 16(x2)
00212a23 sw x2, 20(x2)
00200293 addi x5, x0, 2
00512c23 sw x5, 24(x2)
01010513 addi x10, x2, 16
00200593 addi x11, x0, 2
00d00893 addi x17, x0, 13
00000073 ecall
asks 13 Par { starts: Items { items: [Start { code: 1, words: Items { items: [7, 8] } }, Start { code: 0, words: Items { items: [] } }] } }
";

/// Compares what each code asks.
fn compare_all(rt: &impl Abort, alloc: Global, lines: &str) -> Result<(), Fail> {
    let mut code = Vec::new(alloc);
    for line in lines.lines() {
        let (first, rest) = parts(rt, line);
        if first == "asks" {
            let (work, want) = parts(rt, rest);
            compare(rt, alloc, &code, &[], want, decimal(rt, work))?;
            code.clear();
        } else if first != "#" {
            code.push(word(rt, first))?;
        }
    }
    Ok(())
}

#[test]
fn code_asks_this(rt: HostRuntime) -> Result<(), Fail> {
    compare_all(&rt, rt.alloc(), ASKS)?;
    compare_all(&rt, rt.alloc(), STARTS)
}

/// Runs code that asks in the end, once, by micro-operations.
fn run_ready(rt: &impl Abort, alloc: Global, lines: &str) -> Result<(), Fail> {
    let mut code = Vec::new(alloc);
    for line in lines.lines() {
        let (first, rest) = parts(rt, line);
        if first == "asks" {
            let (work, want) = parts(rt, rest);
            let (shown, fetched) = ask_shown(rt, alloc, &code, &[])?;
            assert_eq!(rt; shown.as_str(), want);
            assert_eq!(rt; fetched, decimal(rt, work));
        } else {
            code.push(word(rt, first))?;
        }
    }
    Ok(())
}

// bench/stretch takes the time of these two
#[test]
fn a_loop_without_end(rt: HostRuntime) -> Result<(), Fail> {
    compare_all(&rt, rt.alloc(), LOOP)
}

#[test]
fn a_hot_loop(rt: HostRuntime) -> Result<(), Fail> {
    run_ready(&rt, rt.alloc(), HOT_LOOP)
}

#[test]
fn a_loop_on_the_stack(rt: HostRuntime) -> Result<(), Fail> {
    run_ready(&rt, rt.alloc(), STACK_LOOP)
}

/// The second argument word is the status.
static STATUS: &str = "\
00412503 lw x10, 4(x2)
00f00893 addi x17, x0, 15
00000073 ecall
";

#[test]
fn arguments_stand_on_the_stack(rt: HostRuntime) -> Result<(), Fail> {
    let code = code_of(&rt, rt.alloc(), STATUS)?;
    compare(&rt, rt.alloc(), &code, &[7, 8], "Terminate(8)", 3)
}

/// The line of what asks first, where the rest is let go.
fn line_of(pair: (Image, Asked)) -> u32 {
    let line = pair.1.held.hart.line(&pair.0);
    kept(line, pair)
}

/// ECALL is the second word, whose line is 3.
#[test]
fn the_line_that_asked(rt: HostRuntime) -> Result<(), NoMemory> {
    let line = line_of(first_of(&rt, rt.alloc(), &ENDS, &[])?);
    assert_eq!(rt; line, 3);
    Ok(())
}

static ENDS: [u32; 2] = [0x0010_0893, 0x0000_0073];

/// Lets a value go that may be sent to another thread.
fn crosses_threads<T: Send + Drop>(_value: T) {}

fn asked_of(pair: (Image, Asked)) -> Asked {
    let (image, asked) = pair;
    kept(asked, image)
}

fn held_of(asked: Asked) -> Held {
    let Asked { held, act, .. } = asked;
    kept(held, act)
}

#[test]
fn tasks_may_go_to_another_worker(rt: HostRuntime) -> Result<(), NoMemory> {
    let alloc = rt.alloc();
    crosses_threads(asked_of(first_of(&rt, alloc, &ENDS, &[])?));
    crosses_threads(held_of(asked_of(first_of(&rt, alloc, &ENDS, &[])?)));
    let held = held_of(asked_of(first_of(&rt, alloc, &ENDS, &[])?));
    let Held { hart, privates, .. } = held;
    crosses_threads(hart);
    crosses_threads(privates);
    Ok(())
}
