//! Calls behind their words, and the addresses of globals.
ghost use Rattle.std.specs.Prelude.{◌≡◌, ◌++◌, ◌+◌, Bool, OnOk};
ghost use Rattle.al_typed.specs.Layout.{IsLaidOut};
ghost use Rattle.al_meaning.specs.Here as here;
ghost use Rattle.al_ir.specs.declared.op.Op.TheVariants as op;
ghost use Rattle.al_lower_code.specs.Classes.{class_number};
ghost use Rattle.al_lower_code.specs.Homes.{here as operation_here};
ghost use Rattle.al_lower_code.specs.Homes as homes;
ghost use Rattle.al_lower_code.specs.Moving as moving;
ghost use Rattle.al_lower_code.specs.Values.{global_placed};
ghost use Rattle.al_lower_base.specs.Spots.{spot_of};

use al_base::NoMemory;
use al_ir::Op;
use al_lower_base::{Code, Spot, push, results, slot_behind, words};
use al_lower_classes::pointed_class;
use al_lower_operands::{global_address, is_private};
use al_typed::Ty;

/// A call of a function whose words stand from `to` on.
pub fn invoke(code: &mut Code, s: Spot<'_>, function: u32, to: u32) -> Result<(), NoMemory>
    ensures { OnOk result (code.new ≡ code.old ++ operation_here (spot_of s.entry) (op.Invoke function to)) }
{
    push(
        code,
        s.line,
        Op::Invoke {
            function,
            arguments: to,
        },
    )
}

/// The same, and the words that the function leaves, which are of a type.
pub fn call_result(
    code: &mut Code,
    s: Spot<'_>,
    ty: &Ty,
    function: u32,
    dest: u32,
    to: u32,
) -> Result<(), NoMemory>
    requires { IsLaidOut s.program.now.aggregates }
    ensures { OnOk result (code.new ≡ code.old ++ (operation_here (spot_of s.entry) (op.Invoke function to) ++ moving.results s.entry.line dest 0 (homes.words (spot_of s.entry) ty.now))) }
{
    invoke(code, s, function, to)?;
    results(code, s.line, dest, 0, words(s, ty)?)
}

/// A call of the function that the pointer of a type in the slot `to` names. The words stand behind it.
pub fn invoke_pointer(code: &mut Code, s: Spot<'_>, ty: &Ty, to: u32) -> Result<(), NoMemory>
    ensures { OnOk result (code.new ≡ code.old ++ operation_here (spot_of s.entry) (op.InvokePointer (class_number s.entry.program.now (here.pointee ty.now)) to (to + 1))) }
{
    let class = pointed_class(s, ty)?;
    push(
        code,
        s.line,
        Op::InvokePointer {
            class,
            pointer: to,
            arguments: slot_behind(to, 1)?,
        },
    )
}

/// The address of a global into a slot. A private one has none.
pub fn global(code: &mut Code, s: Spot<'_>, number: u32, to: u32) -> Result<(), NoMemory>
    requires { IsLaidOut s.program.now.aggregates }
    ensures { (lasting : Bool) → OnOk result (code.new ≡ code.old ++ (global_placed (spot_of s.entry) number).code lasting to) }
{
    if is_private(s.program, number) {
        return Ok(());
    }
    let word = global_address(s.program, number)?;
    push(code, s.line, Op::Constant { to, word })
}
