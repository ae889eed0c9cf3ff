//! Programs of operations that print, within the bounds that code rests on.

ghost use Rattle.std.specs.Prelude.{◌≡◌, ◌++◌, [], ◌∷◌, IfOk, OnOk};
ghost use Rattle.al_ir.specs.Bounds.{IsBounded};
ghost use Rattle.rv_gen_tests.specs.Programs as spec;

use al_base::{NoMemory, Op as Arith};
use al_ir::{Function, Ir, Op, Operation};
use al_items::Items;
use std::alloc::Global;

/// Adds an operation in a line.
fn add(code: &mut Items<Operation>, line: u32, op: Op) -> Result<(), NoMemory>
    ensures { OnOk result (code.new ≡ code.old ++ spec.on line op ∷ []) }
{
    code.push(Operation { line, op })
}

/// Adds a function of a line.
fn add_function(
    functions: &mut Items<Function>,
    line: u32,
    arguments: u32,
    slots: u32,
    code: Items<Operation>,
) -> Result<(), NoMemory>
    ensures { OnOk result (functions.new ≡ functions.old ++ spec.function line arguments slots code ∷ []) }
{
    functions.push(Function {
        line,
        arguments,
        stack: 32,
        slots,
        code,
    })
}

/// The program of some functions, which begins with the first.
fn program(alloc: Global, functions: Items<Function>) -> Ir
    ensures { result ≡ spec.program functions }
{
    Ir {
        functions,
        classes: Items::new(alloc),
        layouts: Items::new(alloc),
        globals: Items::new(alloc),
        privates: 0,
        main: 0,
    }
}

/// The operations of `sum`.
fn sum(code: &mut Items<Operation>) -> Result<(), NoMemory>
    requires { code.old ≡ [] }
    ensures { OnOk result (code.new ≡ spec.sum) }
{
    add(code, 2, Op::Constant { to: 0, word: 0 })?;
    add(code, 3, Op::Constant { to: 1, word: 0 })?;
    add(code, 3, Op::Constant { to: 2, word: 5 })?;
    add(
        code,
        3,
        Op::SkipUnless {
            op: Arith::Lt,
            signed: true,
            left: 1,
            right: 2,
            count: 3,
        },
    )?;
    add(
        code,
        4,
        Op::Word {
            op: Arith::Add,
            signed: true,
            to: 0,
            left: 0,
            right: 1,
        },
    )?;
    add(
        code,
        3,
        Op::WordBy {
            op: Arith::Add,
            signed: true,
            to: 1,
            left: 1,
            word: 1,
        },
    )?;
    add(code, 3, Op::Back { count: 3 })?;
    add(
        code,
        5,
        Op::PutDecimal {
            signed: true,
            from: 0,
        },
    )?;
    add(code, 5, Op::PutByte { byte: 10 })?;
    add(code, 5, Op::Print)?;
    add(code, 6, Op::Leave { words: 0 })
}

/// A loop that computes a sum in slots.
#[tactic(auto, using(crate::proofs::Bounded::sums_bounded))]
pub fn sums(alloc: Global) -> Result<Ir, NoMemory>
    ensures program { IfOk result (λ ir. ir ≡ spec.sums) }
    ensures bounded { IfOk result (λ ir. IsBounded ir) }
{
    let mut functions = Items::new(alloc);
    let mut code = Items::new(alloc);
    sum(&mut code)?;
    add_function(&mut functions, 1, 0, 8, code)?;
    Ok(program(alloc, functions))
}

/// The operations of `asks`.
fn asks(code: &mut Items<Operation>) -> Result<(), NoMemory>
    requires { code.old ≡ [] }
    ensures { OnOk result (code.new ≡ spec.asks) }
{
    add(code, 2, Op::Constant { to: 3, word: 4 })?;
    add(code, 2, Op::Constant { to: 4, word: 9 })?;
    add(
        code,
        2,
        Op::Invoke {
            function: 1,
            arguments: 3,
        },
    )?;
    add(code, 2, Op::Result { to: 0, word: 0 })?;
    add(
        code,
        3,
        Op::PutDecimal {
            signed: true,
            from: 0,
        },
    )?;
    add(code, 3, Op::Print)?;
    add(code, 4, Op::Leave { words: 0 })
}

/// The operations of `answers`.
fn answers(code: &mut Items<Operation>) -> Result<(), NoMemory>
    requires { code.old ≡ [] }
    ensures { OnOk result (code.new ≡ spec.answers) }
{
    add(
        code,
        8,
        Op::Word {
            op: Arith::Sub,
            signed: true,
            to: 0,
            left: 0,
            right: 1,
        },
    )?;
    add(code, 8, Op::Leave { words: 1 })
}

/// A call with two arguments, and its result.
#[tactic(auto, using(crate::proofs::Bounded::differs_bounded))]
pub fn differs(alloc: Global) -> Result<Ir, NoMemory>
    ensures program { IfOk result (λ ir. ir ≡ spec.differs) }
    ensures bounded { IfOk result (λ ir. IsBounded ir) }
{
    let mut functions = Items::new(alloc);
    let mut code = Items::new(alloc);
    asks(&mut code)?;
    add_function(&mut functions, 1, 0, 8, code)?;
    let mut code = Items::new(alloc);
    answers(&mut code)?;
    add_function(&mut functions, 7, 2, 2, code)?;
    Ok(program(alloc, functions))
}

/// The operations of `leaves`.
fn leaves(code: &mut Items<Operation>) -> Result<(), NoMemory>
    requires { code.old ≡ [] }
    ensures { OnOk result (code.new ≡ spec.leaves) }
{
    add(code, 2, Op::Constant { to: 0, word: 5 })?;
    add(code, 2, Op::Constant { to: 1, word: 1 })?;
    add(code, 2, Op::Constant { to: 2, word: 7 })?;
    add(code, 2, Op::Constant { to: 3, word: 0 })?;
    add(
        code,
        3,
        Op::Long {
            op: Arith::Rem,
            signed: false,
            to: 4,
            left: 0,
            right: 2,
        },
    )?;
    add(
        code,
        3,
        Op::PutLongDecimal {
            signed: false,
            from: 4,
        },
    )?;
    add(code, 3, Op::Print)?;
    add(code, 4, Op::Constant { to: 2, word: 0 })?;
    add(
        code,
        4,
        Op::Long {
            op: Arith::Rem,
            signed: false,
            to: 4,
            left: 0,
            right: 2,
        },
    )?;
    add(code, 5, Op::Leave { words: 0 })
}

/// A remainder of 64 bits, and then one by 0.
#[tactic(auto, using(crate::proofs::Bounded::divides_bounded))]
pub fn divides(alloc: Global) -> Result<Ir, NoMemory>
    ensures program { IfOk result (λ ir. ir ≡ spec.divides) }
    ensures bounded { IfOk result (λ ir. IsBounded ir) }
{
    let mut functions = Items::new(alloc);
    let mut code = Items::new(alloc);
    leaves(&mut code)?;
    add_function(&mut functions, 1, 0, 12, code)?;
    Ok(program(alloc, functions))
}
