//! Statements that have no statement in them.
ghost use Rattle.std.specs.Prelude.{◌≡◌, ◌++◌, OnOk};
ghost use Rattle.al_lower_base.specs.Spots.{spot_of};
ghost use Rattle.al_lower_code.specs.Homes as homes;
ghost use Rattle.al_lower_code.specs.Simple as spec;
ghost use Rattle.al_typed.specs.Layout.{IsLaidOut};

use crate::block::par;
use crate::returns::return_code;
use crate::starts::{Started, become_call, starts};
use crate::storage::{alloc, check, declare, unalloc};
use al_base::NoMemory;
use al_lower_base::{Code, Spot};
use al_typed::TStmt;

/// The same spot in another line.
fn at_line(s: Spot<'_>, line: u32) -> Spot<'_>
    ensures { spot_of result ≡ homes.at_line line (spot_of s.entry) }
{
    Spot { line, ..s }
}

/// A statement that has no statement in it and is gone through from its start to its end. Any other gives no operation.
///
/// The spot is that of the function: the statement has a line of its own.
pub fn simple(code: &mut Code, s: Spot<'_>, a: &TStmt) -> Result<(), NoMemory>
    requires { IsLaidOut s.program.now.aggregates }
    ensures { OnOk result (code.new ≡ code.old ++ spec.simple_code (spot_of s.entry) a.now) }
{
    match a {
        TStmt::Declare { line, initializers } => {
            declare(code, at_line(s, *line), initializers.as_slice())
        }
        TStmt::Par { line, branches } => par(code, at_line(s, *line), branches.as_slice()),
        TStmt::Return { line, value } => return_code(code, at_line(s, *line), value),
        TStmt::Become { line, call } => become_call(code, at_line(s, *line), call),
        TStmt::Alloc { line, places } => alloc(code, at_line(s, *line), places.as_slice()),
        TStmt::Unalloc { line, values } => unalloc(code, at_line(s, *line), values.as_slice()),
        TStmt::Check { line, value } => check(code, at_line(s, *line), value),
        TStmt::Proc { line, calls } => {
            starts(code, at_line(s, *line), Started::Proc, calls.as_slice())
        }
        TStmt::Task { line, calls } => {
            starts(code, at_line(s, *line), Started::Task, calls.as_slice())
        }
        _ => Ok(()),
    }
}
