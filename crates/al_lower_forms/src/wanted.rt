//! Values that are copied where they are wanted, and what calls leave.
ghost use Rattle.std.specs.Prelude.{◌≡◌, ◌++◌, ◌+◌, OnOk};
ghost use Rattle.al_typed.specs.Layout.{IsLaidOut};
ghost use Rattle.al_meaning.specs.Here as here;
ghost use Rattle.al_lower_code.specs.Classes.{class_number};
ghost use Rattle.al_lower_forms.specs.Calls as calls;
ghost use Rattle.al_lower_forms.specs.Steps as spec;
ghost use Rattle.al_lower_base.specs.Spots.{spot_of};

use al_base::NoMemory;
use al_lower_base::{Code, Spot, moves, results, words};
use al_lower_parts::{call_result, invoke, invoke_pointer};
use al_typed::Ty;

/// A value of a type, which stands from `slot` on, is copied to where it is wanted, if at all.
pub fn kept(
    code: &mut Code,
    s: Spot<'_>,
    ty: &Ty,
    dest: Option<u32>,
    slot: u32,
) -> Result<(), NoMemory>
    requires { IsLaidOut s.program.now.aggregates }
    ensures { OnOk result (code.new ≡ code.old ++ spec.kept (spot_of s.entry) ty.now dest slot) }
{
    match dest {
        Some(dest) => moves(code, s.line, dest, slot, words(s, ty)?),
        None => Ok(()),
    }
}

/// A call of a function whose words stand from `to` on. What it leaves is of a type, and is wanted from `dest` on, if at all.
pub fn called(
    code: &mut Code,
    s: Spot<'_>,
    ty: &Ty,
    function: u32,
    dest: Option<u32>,
    to: u32,
) -> Result<(), NoMemory>
    requires { IsLaidOut s.program.now.aggregates }
    ensures { OnOk result (code.new ≡ code.old ++ calls.called (spot_of s.entry) ty.now function dest to) }
{
    match dest {
        Some(dest) => call_result(code, s, ty, function, dest, to),
        None => invoke(code, s, function, to),
    }
}

/// The words that a call left, where they are wanted.
fn leave(code: &mut Code, s: Spot<'_>, ty: &Ty, dest: Option<u32>) -> Result<(), NoMemory>
    requires { IsLaidOut s.program.now.aggregates }
    ensures { OnOk result (code.new ≡ code.old ++ calls.left (spot_of s.entry) ty.now dest) }
{
    match dest {
        Some(dest) => results(code, s.line, dest, 0, words(s, ty)?),
        None => Ok(()),
    }
}

/// The same for the function that the pointer of a type in the slot `to` names.
pub fn called_pointer(
    code: &mut Code,
    s: Spot<'_>,
    pointer: &Ty,
    ty: &Ty,
    dest: Option<u32>,
    to: u32,
) -> Result<(), NoMemory>
    requires { IsLaidOut s.program.now.aggregates }
    ensures { OnOk result (code.new ≡ code.old ++ calls.called_pointer (spot_of s.entry) (class_number s.entry.program.now (here.pointee pointer.now)) ty.now dest to) }
{
    invoke_pointer(code, s, pointer, to)?;
    leave(code, s, ty, dest)
}
