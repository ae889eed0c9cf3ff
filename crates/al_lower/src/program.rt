//! Programs as operations.
ghost use Rattle.std.specs.Prelude.{◌≡◌, IfOk};
ghost use Rattle.al_typed.specs.Layout.{IsLaidOut};
ghost use Rattle.al_lower_code.specs.Functions.{lowered};

use crate::classes::classes;
use crate::functions::functions;
use crate::globals::{globals, privates};
use crate::layouts::layouts;
use al_base::NoMemory;
use al_ir::Ir;
use al_typed::Program;
use std::alloc::Global;

/// A typed program as a program of operations.
///
/// Numbers of slots, of operations and of bytes that words have no room for count as want of memory.
pub fn lower(alloc: Global, p: &Program) -> Result<Ir, NoMemory>
    requires { IsLaidOut p.now.aggregates }
    ensures { IfOk result (λ ir. ir ≡ lowered p.now) }
{
    Ok(Ir {
        functions: functions(alloc, p)?,
        classes: classes(alloc, p)?,
        layouts: layouts(alloc, p)?,
        globals: globals(alloc, p)?,
        privates: privates(p)?,
        main: p.main,
    })
}
