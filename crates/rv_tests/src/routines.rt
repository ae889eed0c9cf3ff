//! Routines on the machine. The values were computed with integers of any size in Python.

use crate::asks::ask_shown;
use crate::numbers::{code_of, long, parts};
use al_base::NoMemory;
use rv_asm::assemble;
use rv_long::{LongOp, routine};
use std::alloc::Global;
use std::process::Abort;
use std::test::Fail;

/// LUI and ADDI, which put a value into a register.
fn upper(register: u32, value: u32) -> u32 {
    (value.wrapping_add(0x800) & 0xffff_f000) | (register << 7) | 0x37
}

fn lower(register: u32, value: u32) -> u32 {
    (value << 20) | (register << 15) | (register << 7) | 0x13
}

/// Code that puts a number into two registers.
fn put_number(words: &mut Vec<u32>, register: u32, number: u64) -> Result<(), NoMemory> {
    let low = (number % (1 << 32)) as u32;
    let high = (number >> 32) as u32;
    let next = register.wrapping_add(1);
    let code = [
        upper(register, low),
        lower(register, low),
        upper(next, high),
        lower(next, high),
    ];
    words.extend_from_slice(&code)?;
    Ok(())
}

fn put_routine(words: &mut Vec<u32>, alloc: Global, op: LongOp) -> Result<(), NoMemory> {
    let lines = routine(alloc, op)?;
    let code = assemble(alloc, lines.as_slice())?;
    words.extend_from_slice(code.as_slice())?;
    Ok(())
}

/// Prints the number in x10 and x11.
static PRINT: &str = "\
00000613 addi x12, x0, 0
01100893 addi x17, x0, 17
00000073 ecall
00e00893 addi x17, x0, 14
00000073 ecall
";

/// A routine on two numbers, whose result is then printed.
fn words(
    rt: &impl Abort,
    alloc: Global,
    op: LongOp,
    left: u64,
    right: u64,
) -> Result<Vec<u32>, NoMemory> {
    let mut words = Vec::new(alloc);
    put_number(&mut words, 10, left)?;
    put_number(&mut words, 12, right)?;
    put_routine(&mut words, alloc, op)?;
    words.extend_from_slice(&code_of(rt, alloc, PRINT)?)?;
    Ok(words)
}

// Two operands and the result, in hexadecimal.

static MUL: &str = "\
0 5 0
ffffffff ffffffff fffffffe00000001
fffffffffffffff 10 fffffffffffffff0
123456789abcdef0 fedcba9876543210 236d88fe5618cf00
ffffffffffffffff ffffffffffffffff 1
8000000000000000 2 0
8000000000000000 ffffffffffffffff 8000000000000000
100000001 100000001 200000001
";

static DIVU: &str = "\
218711a00 7 4ca2716d
0 3 0
ffffffffffffffff 1 ffffffffffffffff
ffffffffffffffff 2 7fffffffffffffff
ffffffffffffffff ffffffffffffffff 1
ffffffffffffffff 100000000 ffffffff
8000000000000000 3 2aaaaaaaaaaaaaaa
7fffffffffffffff 8000000000000000 0
fffffffeffffffff ffffffff ffffffff
fffffffffffffffe 8000000000000001 1
5 ffffffff00000000 0
";

static REMU: &str = "\
218711a00 7 5
0 3 0
ffffffffffffffff 1 0
ffffffffffffffff 2 1
ffffffffffffffff ffffffffffffffff 0
ffffffffffffffff 100000000 ffffffff
8000000000000000 3 2
7fffffffffffffff 8000000000000000 7fffffffffffffff
fffffffeffffffff ffffffff fffffffe
fffffffffffffffe 8000000000000001 7ffffffffffffffd
5 ffffffff00000000 5
";

static DIV: &str = "\
8000000000000000 ffffffffffffffff 8000000000000000
8000000000000000 1 8000000000000000
8000000000000000 8000000000000000 1
7 fffffffffffffffe fffffffffffffffd
fffffffffffffff9 2 fffffffffffffffd
fffffffffffffff9 fffffffffffffffe 3
7 2 3
ffffffffffffffff 8000000000000000 0
8000000000000001 fffffffffffffff6 ccccccccccccccc
fffffffde78ee600 7 ffffffffb35d8e93
8000000000000000 7fffffffffffffff ffffffffffffffff
";

static REM: &str = "\
8000000000000000 ffffffffffffffff 0
8000000000000000 1 0
8000000000000000 8000000000000000 0
7 fffffffffffffffe 1
fffffffffffffff9 2 ffffffffffffffff
fffffffffffffff9 fffffffffffffffe ffffffffffffffff
7 2 1
ffffffffffffffff 8000000000000000 ffffffffffffffff
8000000000000001 fffffffffffffff6 fffffffffffffff9
fffffffde78ee600 7 fffffffffffffffb
8000000000000000 7fffffffffffffff ffffffffffffffff
";

static SLL: &str = "\
8123456789abcdef 0 8123456789abcdef
8123456789abcdef 1 2468acf13579bde
8123456789abcdef 1f c4d5e6f780000000
8123456789abcdef 20 89abcdef00000000
8123456789abcdef 21 13579bde00000000
8123456789abcdef 3f 8000000000000000
8123456789abcdef 40 8123456789abcdef
8123456789abcdef ffffffffffffffff 8000000000000000
1 10000003f 8000000000000000
";

static SRL: &str = "\
8123456789abcdef 0 8123456789abcdef
8123456789abcdef 1 4091a2b3c4d5e6f7
8123456789abcdef 1f 102468acf
8123456789abcdef 20 81234567
8123456789abcdef 21 4091a2b3
8123456789abcdef 3f 1
8123456789abcdef 40 8123456789abcdef
8123456789abcdef ffffffffffffffff 1
";

static SRA: &str = "\
8123456789abcdef 0 8123456789abcdef
8123456789abcdef 1 c091a2b3c4d5e6f7
8123456789abcdef 1f ffffffff02468acf
8123456789abcdef 20 ffffffff81234567
8123456789abcdef 21 ffffffffc091a2b3
8123456789abcdef 3f ffffffffffffffff
8123456789abcdef 40 8123456789abcdef
8123456789abcdef ffffffffffffffff ffffffffffffffff
7123456789abcdef 24 7123456
ffffffffffffffff 3f ffffffffffffffff
";

/// Compares what a routine on two numbers prints, and gives how many words were fetched until then.
fn prints(rt: &impl Abort, alloc: Global, op: LongOp, line: &str) -> Result<u64, Fail> {
    let (left, rest) = parts(rt, line);
    let (right, number) = parts(rt, rest);
    let words = words(rt, alloc, op, long(rt, left), long(rt, right))?;
    let (shown, work) = ask_shown(rt, alloc, words.as_slice(), &[])?;
    let text = format!(in alloc; "{}", long(rt, number))?;
    let want = format!(in alloc;
        "Print {{ text: Items {{ items: {:?} }} }}",
        text.as_bytes()
    )?;
    assert_eq!(rt; shown.as_str(), want.as_str(), "{op:?} {line}");
    Ok(work)
}

/// Compares what a routine prints on each line.
fn print_all(rt: &impl Abort, alloc: Global, op: LongOp, lines: &str) -> Result<(), Fail> {
    for line in lines.lines() {
        let _work = prints(rt, alloc, op, line)?;
    }
    Ok(())
}

#[test]
fn results_of_edge_values(rt: HostRuntime) -> Result<(), Fail> {
    let alloc = rt.alloc();
    print_all(&rt, alloc, LongOp::Mul, MUL)?;
    print_all(&rt, alloc, LongOp::DivU, DIVU)?;
    print_all(&rt, alloc, LongOp::RemU, REMU)?;
    print_all(&rt, alloc, LongOp::Div, DIV)?;
    print_all(&rt, alloc, LongOp::Rem, REM)?;
    print_all(&rt, alloc, LongOp::Sll, SLL)?;
    print_all(&rt, alloc, LongOp::Srl, SRL)?;
    print_all(&rt, alloc, LongOp::Sra, SRA)
}

/// 9,000,000,000 by 7: the words of the division before its print, and the five words of that.
#[test]
fn a_quotient_and_its_work(rt: HostRuntime) -> Result<(), Fail> {
    let work = prints(&rt, rt.alloc(), LongOp::DivU, "218711a00 7 4ca2716d")?;
    assert_eq!(rt; work, 1679);
    Ok(())
}
