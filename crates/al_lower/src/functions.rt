//! Functions as operations.
ghost use Rattle.std.specs.Prelude.{◌≡◌, Some, length, IfOk};
ghost use Rattle.al_typed.specs.Layout.{IsLaidOut};
ghost use Rattle.al_meaning.specs.Places.{function_at};
ghost use Rattle.al_lower_code.specs.Homes as homes;
ghost use Rattle.al_lower_code.specs.Functions as spec;
ghost use Rattle.al_lower_base.specs.Spots.{spot_of};

use crate::frame::{epilogue, prologue};
use crate::layouts::next_layout;
use al_base::NoMemory;
use al_ir::Function;
use al_items::Items;
use al_lower_base::{Code, Spot, block_home, local_home, slot_behind, some};
use al_lower_stmt::body;
use al_typed::{Function as FunctionRow, Program, function_slots};
use al_variables::word_of;
use std::alloc::Global;

/// The first slot of a function that holds no variable.
fn first_free(alloc: Global, p: &Program, function: u32) -> Result<u32, NoMemory>
    requires { IsLaidOut p.now.aggregates }
    ensures { IfOk result (λ slot. slot ≡ homes.first_free p.now function) }
{
    let s = Spot {
        alloc,
        program: p,
        function,
        line: 0,
        turns: 0,
    };
    slot_behind(block_home(s)?, 1)
}

/// The number of the next operation.
fn next_place(code: &Code) -> Result<u32, NoMemory>
    ensures { IfOk result (λ pc. pc ≡ length code.now) }
{
    some(word_of(code.len() as u64))
}

/// The operations of a function. `first` is the layout of its first parameter with a layout of its own.
#[tactic(auto, using(crate::proofs::Bodies::code_is))]
fn function_code(s: Spot<'_>, f: &FunctionRow, first: u32) -> Result<Code, NoMemory>
    requires laid_out { IsLaidOut s.program.now.aggregates }
    requires first { first ≡ spec.wide_number s.program.now s.function 0 f.now }
    ensures { IfOk result (λ code. code ≡ spec.function_code (spot_of s.entry) f.now) }
{
    let mut code = Items::new(s.alloc);
    prologue(&mut code, s, f, first)?;
    let pc = next_place(&code)?;
    body(&mut code, s, &f.body, pc)?;
    epilogue(&mut code, s, f)?;
    Ok(code)
}

/// A function of the program as operations. `first` is the layout of its first parameter with a layout of its own.
#[tactic(auto, using(crate::proofs::Bodies::lowered_is))]
fn lowered_function(
    alloc: Global,
    p: &Program,
    number: u32,
    f: &FunctionRow,
    first: u32,
) -> Result<Function, NoMemory>
    requires laid_out { IsLaidOut p.now.aggregates }
    requires there { function_at p.now number ≡ Some f.now }
    requires first { first ≡ spec.wide_number p.now number 0 f.now }
    ensures { IfOk result (λ g. g ≡ spec.lowered_function p.now number f.now) }
{
    let turns = first_free(alloc, p, number)?;
    let s = Spot {
        alloc,
        program: p,
        function: number,
        line: f.line,
        turns,
    };
    let stack = some(word_of(function_slots(p, f)))?;
    let arguments = local_home(s, f.parameters)?;
    let code = function_code(s, f, first)?;
    Ok(Function {
        line: f.line,
        arguments,
        stack,
        slots: stack.saturating_sub(8),
        code,
    })
}

/// The functions of a program.
#[tactic(auto, using(crate::proofs::Wide::numbered))]
pub fn functions(alloc: Global, p: &Program) -> Result<Items<Function>, NoMemory>
    requires { IsLaidOut p.now.aggregates }
    ensures { IfOk result (λ functions. functions ≡ spec.functions_from p.now 0 p.now.functions) }
{
    let mut functions = Items::with_capacity(alloc, p.functions.len())?;
    let mut number: u32 = 0;
    let mut first = some(word_of(p.aggregates.len() as u64))?;
    for f in p.functions.as_slice() {
        functions.push(lowered_function(alloc, p, number, f, first)?)?;
        first = next_layout(p, first, f)?;
        number = slot_behind(number, 1)?;
    }
    Ok(functions)
}
