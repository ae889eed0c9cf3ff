//! Objects, arguments and calls, and expressions that print.
ghost use Rattle.std.specs.Prelude.{◌≡◌, ◌+◌, ◌++◌, map, OnOk};
ghost use Rattle.al_typed.specs.Layout.{IsLaidOut};
ghost use Rattle.al_typed.specs.Typed.{type_of};
ghost use Rattle.al_meaning.specs.Here as here;
ghost use Rattle.al_lower_code.specs.Actions as acts;
ghost use Rattle.al_lower_code.specs.Classes.{class_number};
ghost use Rattle.al_lower_code.specs.Expressions as spec;
ghost use Rattle.al_lower_expr.specs.Members as members;
ghost use Rattle.al_lower_forms.specs.Steps as steps;
ghost use Rattle.al_lower_operands.specs.Rows as rows;
ghost use Rattle.al_lower_base.specs.Spots.{spot_of};

use crate::expr::{effect, pointer, row_values, value};
use crate::forms::{found, taken};
use al_base::NoMemory;
use al_items::{Boxed, Items};
use al_lower_base::{Code, Spot, slot_behind};
use al_lower_forms::{
    Find, Take, called, called_pointer, free_behind_pointed, pass_behind, print_pieces,
};
use al_lower_parts::object_words;
use al_typed::{Passed, PrintPiece, TExpr, TReceiver, Ty};

/// An object that a pointer leads to.
#[cycle(expr)]
fn received_pointed(
    code: &mut Code,
    s: Spot<'_>,
    e: &TExpr,
    path: &[u32],
    how: Passed,
    to: u32,
) -> Result<(), NoMemory>
    requires { IsLaidOut s.program.now.aggregates }
    ensures { OnOk result (code.new ≡ code.old ++ (members.object_pointed (spot_of s.entry) how (type_of e.now) path.now (spec.coded (spot_of s.entry) e.now)).code to) }
{
    let free = free_behind_pointed(s, e.ty(), path, how, to)?;
    pointer(code, s, e, false, free)?;
    pass_behind(code, s, e, path, how, free, to)
}

/// An object that is a member of a value.
#[cycle(expr)]
fn received_value(
    code: &mut Code,
    s: Spot<'_>,
    e: &TExpr,
    path: &[u32],
    how: Passed,
    to: u32,
) -> Result<(), NoMemory>
    requires { IsLaidOut s.program.now.aggregates }
    ensures { OnOk result (code.new ≡ code.old ++ (members.object_valued (spot_of s.entry) how (type_of e.now) path.now (spec.coded (spot_of s.entry) e.now)).code to) }
{
    match how {
        Passed::Value => taken(code, s, e, Take::Object(path), to, to),
        Passed::Address | Passed::Nothing => effect(code, s, e, to),
    }
}

/// An object that is there.
#[cycle(expr)]
fn received(code: &mut Code, s: Spot<'_>, receiver: &TReceiver, to: u32) -> Result<(), NoMemory>
    requires { IsLaidOut s.program.now.aggregates }
    ensures { OnOk result (code.new ≡ code.old ++ (spec.received_object (spot_of s.entry) receiver.now).code to) }
{
    match receiver {
        TReceiver::Place {
            place,
            path,
            passed,
        } => {
            let path = path.as_slice();
            found(
                code,
                s,
                place.get(),
                Find::Pass { path, how: *passed },
                to,
                to,
            )
        }
        TReceiver::Value {
            value,
            path,
            passed,
        } => received_value(code, s, value.get(), path.as_slice(), *passed, to),
        TReceiver::Pointer {
            pointer,
            path,
            passed,
        } => received_pointed(code, s, pointer.get(), path.as_slice(), *passed, to),
    }
}

/// What the object before a function's name gives the function.
#[cycle(expr)]
pub fn object(
    code: &mut Code,
    s: Spot<'_>,
    object: &Option<Boxed<TReceiver>>,
    to: u32,
) -> Result<(), NoMemory>
    requires { IsLaidOut s.program.now.aggregates }
    ensures { OnOk result (code.new ≡ code.old ++ (rows.object_of (spot_of s.entry) object.now).code to) }
{
    match object {
        None => Ok(()),
        Some(receiver) => received(code, s, receiver.get(), to),
    }
}

/// The words of a call, one behind the other from `to` on: those of the object, and then those of the arguments.
#[cycle(expr)]
pub fn arguments(
    code: &mut Code,
    s: Spot<'_>,
    object: &Option<Boxed<TReceiver>>,
    arguments: &Items<TExpr>,
    to: u32,
) -> Result<(), NoMemory>
    requires { IsLaidOut s.program.now.aggregates }
    ensures { OnOk result (code.new ≡ code.old ++ acts.arguments_code (rows.object_of (spot_of s.entry) object.now) (rows.row_of (spot_of s.entry) arguments.now) to) }
{
    crate::calls::object(code, s, object, to)?;
    let behind = slot_behind(to, object_words(s, object)?)?;
    row_values(code, s, arguments.as_slice(), behind)
}

/// A call by name, whose value is wanted from `dest` on, if at all.
#[cycle(expr)]
pub fn call(
    code: &mut Code,
    s: Spot<'_>,
    function: u32,
    receiver: &Option<Boxed<TReceiver>>,
    given: &Items<TExpr>,
    ty: &Ty,
    dest: Option<u32>,
    to: u32,
) -> Result<(), NoMemory>
    requires { IsLaidOut s.program.now.aggregates }
    ensures { OnOk result (code.new ≡ code.old ++ steps.wanted (acts.call_coded (spot_of s.entry) ty.now function (rows.object_of (spot_of s.entry) receiver.now) (rows.row_of (spot_of s.entry) given.now)) dest to) }
{
    arguments(code, s, receiver, given, to)?;
    called(code, s, ty, function, dest, to)
}

/// The same of the function that a pointer names.
#[cycle(expr)]
pub fn call_pointer(
    code: &mut Code,
    s: Spot<'_>,
    ty: &Ty,
    e: &TExpr,
    given: &Items<TExpr>,
    dest: Option<u32>,
    to: u32,
) -> Result<(), NoMemory>
    requires { IsLaidOut s.program.now.aggregates }
    ensures { OnOk result (code.new ≡ code.old ++ steps.wanted (acts.call_pointer_coded (spot_of s.entry) ty.now (class_number s.entry.program.now (here.pointee (type_of e.now))) (spec.coded (spot_of s.entry) e.now) (rows.row_of (spot_of s.entry) given.now)) dest to) }
{
    value(code, s, e, to, to)?;
    row_values(code, s, given.as_slice(), slot_behind(to, 1)?)?;
    called_pointer(code, s, e.ty(), ty, dest, to)
}

/// The arguments of a print, and the pieces of its format.
#[cycle(expr)]
pub fn print_value(
    code: &mut Code,
    s: Spot<'_>,
    ty: &Ty,
    format: &Items<PrintPiece>,
    given: &Items<TExpr>,
    dest: u32,
    to: u32,
) -> Result<(), NoMemory>
    requires { IsLaidOut s.program.now.aggregates }
    ensures { OnOk result (code.new ≡ code.old ++ (acts.print_coded (spot_of s.entry) ty.now format.now (map type_of given.now) (rows.row_of (spot_of s.entry) given.now)).value dest to) }
{
    row_values(code, s, given.as_slice(), to)?;
    print_pieces(code, s, format, given, to)
}
