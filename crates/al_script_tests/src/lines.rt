//! Scripts and schedules that are texts: they are read when the test runs, and so cost no proof.

use al_base::{NoMemory, Trap};
use al_event::{Block, Entry};
use al_items::Items;
use al_script::{Call, Choice, Function, Instruction, Operand, Script, Source, Width};
use std::alloc::Global;
use std::process::Abort;

/// A decimal number.
fn number(rt: &impl Abort, word: &str) -> u32 {
    match u32::from_str_radix(word, 10) {
        Ok(number) => number,
        Err(_) => panic!(rt; "no number: {word}"),
    }
}

/// An operand: a number, the argument `#P` of that place, or the word `$I.W` of the answer of an instruction; with `+N`
/// behind it, so much more.
fn operand(rt: &impl Abort, word: &str) -> Operand {
    let (source, plus) = word.split_once('+').unwrap_or((word, "0"));
    let plus = number(rt, plus);
    if let Some(place) = source.strip_prefix('#') {
        let source = Source::Argument(number(rt, place));
        return Operand { source, plus };
    }
    let Some(answer) = source.strip_prefix('$') else {
        return Operand {
            source: Source::Zero,
            plus: number(rt, source),
        };
    };
    let (instruction, word) = answer.split_once('.').unwrap_or((answer, "0"));
    let source = Source::Answer {
        instruction: number(rt, instruction),
        word: number(rt, word),
    };
    Operand { source, plus }
}

fn operands(rt: &impl Abort, alloc: Global, words: &str) -> Result<Vec<Operand>, NoMemory> {
    let mut operands = Vec::new(alloc);
    for word in words.split(' ') {
        if !word.is_empty() {
            operands.push(operand(rt, word))?;
        }
    }
    Ok(operands)
}

/// The operand of that place, or 0.
fn nth(operands: &[Operand], place: usize) -> Operand {
    let zero = Operand {
        source: Source::Zero,
        plus: 0,
    };
    operands.get(place).copied().unwrap_or(zero)
}

/// A talk by receives of one word.
fn receives(alloc: Global, chans: &[Operand]) -> Result<Instruction, NoMemory> {
    let mut choices = Items::new(alloc);
    for chan in chans {
        choices.push(Choice {
            chan: *chan,
            words: 1,
            send: None,
        })?;
    }
    Ok(Instruction::Talk { choices })
}

/// A talk by a send of one word.
fn sends(alloc: Global, chan: Operand, value: Operand) -> Result<Instruction, NoMemory> {
    let mut choices = Items::new(alloc);
    choices.push(Choice {
        chan,
        words: 1,
        send: Some(Items::from_slice(alloc, &[value])?),
    })?;
    Ok(Instruction::Talk { choices })
}

/// A call of the function of that number, with what stands behind.
fn call(alloc: Global, operands: &[Operand]) -> Result<Call, NoMemory> {
    let (code, arguments) = match operands.split_first() {
        Some((code, arguments)) => (code.plus, arguments),
        None => (0, operands),
    };
    let words = Items::from_slice(alloc, arguments)?;
    Ok(Call { code, words })
}

/// A par of two calls, each with one argument.
fn par(alloc: Global, operands: &[Operand]) -> Result<Instruction, NoMemory> {
    let mut calls = Items::new(alloc);
    calls.push(call(alloc, &[nth(operands, 0), nth(operands, 1)])?)?;
    calls.push(call(alloc, &[nth(operands, 2), nth(operands, 3)])?)?;
    Ok(Instruction::Par { calls })
}

/// A par of so many calls of function 1.
fn crowd(alloc: Global, count: u32) -> Result<Instruction, NoMemory> {
    let mut calls = Items::new(alloc);
    for _ in 0..count {
        let words = Items::new(alloc);
        calls.push(Call { code: 1, words })?;
    }
    Ok(Instruction::Par { calls })
}

/// What starts procs and tasks.
fn start(
    rt: &impl Abort,
    alloc: Global,
    name: &str,
    operands: &[Operand],
) -> Result<Instruction, NoMemory> {
    match name {
        "proc" => Ok(Instruction::Proc(call(alloc, operands)?)),
        "task" => Ok(Instruction::Task(call(alloc, operands)?)),
        "par" => par(alloc, operands),
        "crowd" => crowd(alloc, nth(operands, 0).plus),
        _ => panic!(rt; "no instruction: {name}"),
    }
}

/// What ends or pauses, and what has one operand or none.
fn simple(
    rt: &impl Abort,
    alloc: Global,
    name: &str,
    operands: &[Operand],
) -> Result<Instruction, NoMemory> {
    let first = nth(operands, 0);
    match name {
        "print" => {
            let text = Items::from_slice(alloc, &[first])?;
            Ok(Instruction::Print { text })
        }
        "terminate" => Ok(Instruction::Terminate((first.plus % 0x8000_0000) as i32)),
        "pause" => Ok(Instruction::Pause),
        "trap" => match Trap::of_number(first.plus) {
            Some(trap) => Ok(Instruction::Trap(trap)),
            None => panic!(rt; "no trap: {}", first.plus),
        },
        _ => start(rt, alloc, name, operands),
    }
}

fn instruction(rt: &impl Abort, alloc: Global, line: &str) -> Result<Instruction, NoMemory> {
    let (name, rest) = line.split_once(' ').unwrap_or((line, ""));
    let operands = operands(rt, alloc, rest)?;
    let (first, second) = (nth(&operands, 0), nth(&operands, 1));
    let width = Width::Word;
    Ok(match name {
        "load" => Instruction::Load { at: first, width },
        "store" => Instruction::Store {
            at: first,
            width,
            word: second,
        },
        "alloc" => Instruction::Alloc {
            bytes: first,
            kind: Block::Heap,
        },
        "free" => Instruction::Free {
            at: first,
            kind: Block::Heap,
        },
        "free_frame" => Instruction::Free {
            at: first,
            kind: Block::Frame,
        },
        "chan" => Instruction::NewChan {
            capacity: first.plus,
            words: second.plus,
        },
        "free_chan" => Instruction::FreeChan { chan: first },
        "can_recv" => Instruction::CanRecv { chan: first },
        "can_send" => Instruction::CanSend { chan: first },
        "send" => sends(alloc, first, second)?,
        "receive" => receives(alloc, &operands)?,
        _ => simple(rt, alloc, name, &operands)?,
    })
}

fn function(rt: &impl Abort, alloc: Global, lines: &str) -> Result<Function, NoMemory> {
    let mut function = Items::new(alloc);
    for line in lines.split(';') {
        let line = line.trim();
        if !line.is_empty() {
            function.push(instruction(rt, alloc, line)?)?;
        }
    }
    Ok(function)
}

/// The script of three functions with `/` between, of which those at the end may be missing. The first begins; instructions
/// stand with `;` between.
pub fn script(rt: &impl Abort, alloc: Global, text: &str) -> Result<Script, NoMemory> {
    let mut script = Items::new(alloc);
    for lines in text.split('/') {
        script.push(function(rt, alloc, lines)?)?;
    }
    for _ in script.len()..3 {
        script.push(Items::new(alloc))?;
    }
    Ok(script)
}

/// Entries of procs, each with its pick behind a point and as often as the number behind an `x` says.
pub fn entries(rt: &impl Abort, alloc: Global, text: &str) -> Result<Items<Entry>, NoMemory> {
    let mut entries = Items::new(alloc);
    for part in text.split(' ') {
        let (entry, count) = part.split_once('x').unwrap_or((part, "1"));
        let (proc, pick) = entry.split_once('.').unwrap_or((entry, "0"));
        for _ in 0..number(rt, count) {
            entries.push(Entry {
                proc: number(rt, proc),
                pick: (number(rt, pick) % 65_536) as u16,
                worker: 0,
            })?;
        }
    }
    Ok(entries)
}
