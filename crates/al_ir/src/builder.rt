// Programs of operations that are being built.

ghost use Rattle.std.specs.Prelude.{◌≡◌, ◌<◌, ◌↔◌, [], length, IsTrue, IfOk, OnOk};
ghost use Rattle.std.specs.Option.{option_copied};
ghost use Rattle.al_ir.specs.Building as spec;
ghost use Rattle.al_ir.specs.Building.{rows_of};
ghost use Rattle.al_ir.specs.Control.{line_of};

use crate::ir::{Function, Functions, Global, Ir, Operation, Runs};
use crate::op::Op;
use al_base::NoMemory;
use al_items::Items;
use al_typed::Program;
use std::alloc::Global as Memory;
use std::marker::Model;
use std::mem;

/// Builds a program of operations, a function at a time. After NoMemory it is fit only to be dropped.
#[derive(Drop)]
pub struct IrBuilder {
    alloc: Memory,
    ir: Ir,
    number: u32,
    work: Function,
    line: u32,
}

impl Model for IrBuilder {
    ghost use Rattle.al_ir.specs.Building.{Building};

    ghost Value = { Building };

    ghost view = { λ b. record { ir = b.ir; number = b.number; work = b.work; line = b.line } };
}

/// A function without operations.
fn empty_function(alloc: Memory, line: u32) -> Function
    ensures { result ≡ spec.empty_function line }
{
    Function {
        line,
        arguments: 0,
        stack: 0,
        slots: 0,
        code: Items::new(alloc),
    }
}

/// A row for each function of a program.
fn rows(alloc: Memory, p: &Program) -> Result<Items<Function>, NoMemory>
    ensures { IfOk result (λ rows. rows ≡ rows_of p.now) }
{
    let mut rows = Items::with_capacity(alloc, p.functions.len())?;
    for f in p.functions.as_slice() {
        rows.push(empty_function(alloc, f.line))?;
    }
    Ok(rows)
}

/// The line of a function's name, 0 where there is none.
fn name_line(row: Option<&Function>) -> u32
    ensures { result ≡ line_of (option_copied row.entry) }
{
    match row {
        Some(f) => f.line,
        None => 0,
    }
}

/// The number of what comes next in a list.
fn next_number(count: usize) -> Result<u32, NoMemory>
    ensures { IfOk result (λ number. number ≡ count) }
{
    if count > u32::MAX as usize {
        return Err(NoMemory);
    }
    Ok(count as u32)
}

impl IrBuilder {
    /// A builder for a program's functions, none of which has operations yet.
    pub fn new(alloc: Memory, p: &Program) -> Result<IrBuilder, NoMemory>
        ensures { IfOk result (λ b. b ≡ record { ir = spec.empty_program p.now; number = 0; work = spec.empty_function 0; line = 0 }) }
    {
        let functions = rows(alloc, p)?;
        Ok(IrBuilder {
            alloc,
            ir: Ir {
                functions,
                classes: Items::new(alloc),
                layouts: Items::new(alloc),
                globals: Items::new(alloc),
                privates: 0,
                main: p.main,
            },
            number: 0,
            work: empty_function(alloc, 0),
            line: 0,
        })
    }

    /// Puts the function at work in its row, and another in its place.
    fn put_back(&mut self, next: Function)
        ensures { self.new ≡ record self.old { ir = spec.built self.old; work = next } }
    {
        let done = mem::replace(&mut self.work, next);
        let number = self.number as usize;
        if number < self.ir.functions.len() {
            self.ir.functions.set(number, done);
        }
    }

    /// Sets it to work on a function, from its start, in the line of its name.
    pub fn begin(&mut self, f: u32) -> Result<(), NoMemory>
        requires { f < length self.old.ir.functions }
        ensures { OnOk result (self.new ≡ spec.begun_on f self.old) }
    {
        let line = name_line(self.ir.functions.get(f as usize));
        let next = empty_function(self.alloc, line);
        self.put_back(next);
        self.number = f;
        self.line = line;
        Ok(())
    }

    /// How many words the function at work is given, how many it takes on a stack, and how many of these are slots.
    pub fn set_frame(&mut self, arguments: u32, stack: u32, slots: u32)
        ensures { self.new ≡ spec.with_frame arguments stack slots self.old }
    {
        self.work.arguments = arguments;
        self.work.stack = stack;
        self.work.slots = slots;
    }

    /// The line of the operations that follow.
    pub fn set_line(&mut self, line: u32)
        ensures { self.new ≡ record self.old { line = line } }
    {
        self.line = line;
    }

    /// How many operations the function at work has.
    pub fn len(&self) -> usize
        ensures { result ≡ length self.now.work.code }
    {
        self.work.code.len()
    }

    /// Whether the function at work has no operation.
    pub fn is_empty(&self) -> bool
        ensures { IsTrue result ↔ (self.now.work.code ≡ []) }
    {
        self.work.code.is_empty()
    }

    /// Adds an operation to the function at work.
    pub fn push(&mut self, op: Op) -> Result<(), NoMemory>
        ensures { OnOk result (self.new ≡ spec.with_operation op self.old) }
    {
        let line = self.line;
        self.work.code.push(Operation { line, op })
    }

    /// Puts an operation in the place of another, as where a jump learns how far it goes.
    pub fn set(&mut self, at: usize, op: Op)
        requires { at < length self.old.work.code }
        ensures { self.new ≡ spec.with_operation_at at op self.old }
    {
        let line = self.line;
        self.work.code.set(at, Operation { line, op });
    }

    /// Adds the units of a type, and gives the number of the layout.
    pub fn add_layout(&mut self, runs: Runs) -> Result<u32, NoMemory>
        ensures number { IfOk result (λ number. number ≡ length self.old.ir.layouts) }
        ensures added { OnOk result (self.new ≡ spec.with_layout runs self.old) }
    {
        let number = next_number(self.ir.layouts.len())?;
        self.ir.layouts.push(runs)?;
        Ok(number)
    }

    /// Adds the functions of a type, and gives the number of the class.
    pub fn add_class(&mut self, functions: Functions) -> Result<u32, NoMemory>
        ensures number { IfOk result (λ number. number ≡ length self.old.ir.classes) }
        ensures added { OnOk result (self.new ≡ spec.with_class functions self.old) }
    {
        let number = next_number(self.ir.classes.len())?;
        self.ir.classes.push(functions)?;
        Ok(number)
    }

    /// Adds a global or a string.
    pub fn add_global(&mut self, global: Global) -> Result<(), NoMemory>
        ensures { OnOk result (self.new ≡ spec.with_global global self.old) }
    {
        self.ir.globals.push(global)
    }

    /// How many words private globals have.
    pub fn set_privates(&mut self, words: u32)
        ensures { self.new ≡ spec.with_privates words self.old }
    {
        self.ir.privates = words;
    }

    /// The program that was built.
    pub fn finish(self) -> Ir
        ensures { result ≡ spec.built self }
    {
        let IrBuilder {
            ir: mut program,
            number,
            work,
            ..
        } = self;
        if (number as usize) < program.functions.len() {
            program.functions.set(number as usize, work);
        }
        program
    }
}
