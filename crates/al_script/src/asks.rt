// What a task asks next.

ghost use Rattle.std.specs.Prelude.{◌≡◌, ◌++◌, map, IfOk, OnOk};
ghost use Rattle.std.specs.Option.{option_copied};
ghost use Rattle.al_script.specs.Scripts.{source_word, value_of, values_of, byte_of, size_of, branch_of, start_of, act_at, next_of, act_of, IsSized};

use crate::lists::word_in;
use crate::script::{Call, Choice, Control, Function, Instruction, Operand, Source, Width};
use al_base::NoMemory;
use al_event::{Act, Branch, Branches, Bytes, Start, Starts, Words};
use al_items::Items;
use std::alloc::Global;

/// The number of a source.
fn source_word(control: &Control, source: Source) -> u32
    ensures { result ≡ source_word control.now source }
{
    match source {
        Source::Zero => 0,
        Source::Argument(place) => word_in(control.arguments.as_slice(), place as usize),
        Source::Answer { instruction, word } => {
            match control.answers.get(instruction as usize) {
                None => 0,
                Some(words) => word_in(words.as_slice(), word as usize),
            }
        }
    }
}

/// The number of an operand.
fn value_of(control: &Control, operand: Operand) -> u32
    ensures { result ≡ value_of control.now operand }
{
    source_word(control, operand.source).wrapping_add(operand.plus)
}

/// Adds the numbers of operands.
fn add_values(values: &mut Words, control: &Control, operands: &[Operand]) -> Result<(), NoMemory>
    ensures { OnOk result (values.new ≡ values.old ++ values_of control.now operands.now) }
{
    match operands {
        [] => Ok(()),
        [operand, rest @ ..] => {
            values.push(value_of(control, *operand))?;
            add_values(values, control, rest)
        }
    }
}

/// The numbers of operands.
fn values_of(alloc: Global, control: &Control, operands: &[Operand]) -> Result<Words, NoMemory>
    ensures { IfOk result (λ values. values ≡ values_of control.now operands.now) }
{
    let mut values = Items::new(alloc);
    add_values(&mut values, control, operands)?;
    Ok(values)
}

/// Adds the lowest bytes of operands.
fn add_bytes(text: &mut Bytes, control: &Control, operands: &[Operand]) -> Result<(), NoMemory>
    ensures { OnOk result (text.new ≡ text.old ++ map (byte_of control.now) operands.now) }
{
    match operands {
        [] => Ok(()),
        [operand, rest @ ..] => {
            let byte = value_of(control, *operand) % 256;
            text.push(byte as u8)?;
            add_bytes(text, control, rest)
        }
    }
}

/// The lowest bytes of operands.
fn bytes_of(alloc: Global, control: &Control, operands: &[Operand]) -> Result<Bytes, NoMemory>
    ensures { IfOk result (λ text. text ≡ map (byte_of control.now) operands.now) }
{
    let mut text = Items::new(alloc);
    add_bytes(&mut text, control, operands)?;
    Ok(text)
}

fn size_of(width: Width) -> u8
    ensures { result ≡ size_of width }
{
    match width {
        Width::Byte => 1,
        Width::Half => 2,
        Width::Word => 4,
    }
}

/// A branch of a talk.
fn branch_of(alloc: Global, control: &Control, choice: &Choice) -> Result<Branch, NoMemory>
    ensures { IfOk result (λ branch. branch ≡ branch_of control.now choice.now) }
{
    let send = match &choice.send {
        Some(operands) => Some(values_of(alloc, control, operands.as_slice())?),
        None => None,
    };
    Ok(Branch {
        chan: value_of(control, choice.chan),
        words: choice.words,
        send,
    })
}

/// Adds the branches of a talk.
fn add_branches(
    alloc: Global,
    branches: &mut Branches,
    control: &Control,
    choices: &[Choice],
) -> Result<(), NoMemory>
    ensures { OnOk result (branches.new ≡ branches.old ++ map (branch_of control.now) choices.now) }
{
    match choices {
        [] => Ok(()),
        [choice, rest @ ..] => {
            branches.push(branch_of(alloc, control, choice)?)?;
            add_branches(alloc, branches, control, rest)
        }
    }
}

/// The branches of a talk.
fn branches_of(alloc: Global, control: &Control, choices: &[Choice]) -> Result<Branches, NoMemory>
    ensures { IfOk result (λ branches. branches ≡ map (branch_of control.now) choices.now) }
{
    let mut branches = Items::new(alloc);
    add_branches(alloc, &mut branches, control, choices)?;
    Ok(branches)
}

/// A function to start.
fn start_of(alloc: Global, control: &Control, call: &Call) -> Result<Start, NoMemory>
    ensures { IfOk result (λ start. start ≡ start_of control.now call.now) }
{
    let words = values_of(alloc, control, call.words.as_slice())?;
    Ok(Start {
        code: call.code,
        words,
    })
}

/// Adds functions to start.
fn add_starts(
    alloc: Global,
    starts: &mut Starts,
    control: &Control,
    calls: &[Call],
) -> Result<(), NoMemory>
    ensures { OnOk result (starts.new ≡ starts.old ++ map (start_of control.now) calls.now) }
{
    match calls {
        [] => Ok(()),
        [call, rest @ ..] => {
            starts.push(start_of(alloc, control, call)?)?;
            add_starts(alloc, starts, control, rest)
        }
    }
}

/// The functions that a par starts.
fn starts_of(alloc: Global, control: &Control, calls: &[Call]) -> Result<Starts, NoMemory>
    ensures { IfOk result (λ starts. starts ≡ map (start_of control.now) calls.now) }
{
    let mut starts = Items::new(alloc);
    add_starts(alloc, &mut starts, control, calls)?;
    Ok(starts)
}

/// The action of an instruction.
fn act_at(alloc: Global, control: &Control, instruction: &Instruction) -> Result<Act, NoMemory>
    ensures value { IfOk result (λ act. act ≡ act_at control.now instruction.now) }
    ensures sized { IfOk result IsSized }
{
    match instruction {
        Instruction::Load { at, width } => Ok(Act::Load {
            at: value_of(control, *at),
            size: size_of(*width),
        }),
        Instruction::Store { at, width, word } => Ok(Act::Store {
            at: value_of(control, *at),
            size: size_of(*width),
            word: value_of(control, *word),
        }),
        Instruction::Alloc { bytes, kind } => Ok(Act::Alloc {
            bytes: value_of(control, *bytes).max(1),
            kind: *kind,
        }),
        Instruction::Free { at, kind } => Ok(Act::Free {
            at: value_of(control, *at),
            kind: *kind,
        }),
        Instruction::NewChan { capacity, words } => Ok(Act::NewChan {
            capacity: *capacity,
            words: *words,
        }),
        Instruction::FreeChan { chan } => Ok(Act::FreeChan {
            chan: value_of(control, *chan),
        }),
        Instruction::CanRecv { chan } => Ok(Act::CanRecv {
            chan: value_of(control, *chan),
        }),
        Instruction::CanSend { chan } => Ok(Act::CanSend {
            chan: value_of(control, *chan),
        }),
        Instruction::Talk { choices } => {
            let branches = branches_of(alloc, control, choices.as_slice())?;
            Ok(Act::Talk { branches })
        }
        Instruction::Proc(call) => {
            let start = start_of(alloc, control, call)?;
            Ok(Act::Proc(start))
        }
        Instruction::Task(call) => {
            let start = start_of(alloc, control, call)?;
            Ok(Act::Task(start))
        }
        Instruction::Par { calls } => {
            let starts = starts_of(alloc, control, calls.as_slice())?;
            Ok(Act::Par { starts })
        }
        Instruction::Print { text } => {
            let text = bytes_of(alloc, control, text.as_slice())?;
            Ok(Act::Print { text })
        }
        Instruction::Terminate(status) => Ok(Act::Terminate(*status)),
        Instruction::Pause => Ok(Act::Pause),
        Instruction::Trap(trap) => Ok(Act::Trap(*trap)),
    }
}

/// The next instruction of a task.
fn next_of<'a>(script: &'a [Function], control: &Control) -> Option<&'a Instruction>
    ensures { option_copied result ≡ next_of script.now control.now }
{
    let function = script.get(control.code as usize)?;
    function.get(control.answers.len())
}

/// What a task asks next.
pub fn act_of(alloc: Global, script: &[Function], control: &Control) -> Result<Act, NoMemory>
    ensures value { IfOk result (λ act. act ≡ act_of script.now control.now) }
    ensures sized { IfOk result IsSized }
{
    match next_of(script, control) {
        Some(instruction) => act_at(alloc, control, instruction),
        None => Ok(Act::End),
    }
}
