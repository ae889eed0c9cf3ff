//! What operations ask of the program that they are in.

ghost use Rattle.std.specs.Prelude.{◌≡◌, ◌^◌, ◌≤◌, All, length, slice_get};
ghost use Rattle.al_ir.specs.Control.{function_at, arguments_of};
ghost use Rattle.al_ir.specs.Bounds.{IsLayout};
ghost use Rattle.al_ir.specs.Units.{units_in, units_at};
ghost use Rattle.rv_form.specs.Program.{slots_of, class_arguments_of, runs_or_none};
ghost use Rattle.rv_emit_dispatch.specs.Stacks.{HaveRoom};
ghost use Rattle.rv_emit_units.specs.Ways.{IsSmall};

use al_ir::{Ir, Run};

/// How many words of a function's frame are slots.
pub fn slots_of(ir: &Ir, function: u32) -> u32
    requires { HaveRoom ir.now }
    ensures value { result ≡ slots_of (function_at ir.now function) }
    ensures few { result ≤ 2 ^ 14 }
{
    match ir.functions.get(function as usize) {
        Some(f) => f.slots,
        None => 0,
    }
}

/// How many words a function is given.
pub fn arguments_of(ir: &Ir, function: u32) -> u32
    requires { HaveRoom ir.now }
    ensures value { result ≡ arguments_of (function_at ir.now function) }
    ensures few { result ≤ 2 ^ 14 }
{
    match ir.functions.get(function as usize) {
        Some(f) => f.arguments,
        None => 0,
    }
}

/// How many words the functions of a class are given.
pub fn class_arguments(ir: &Ir, class: u32) -> u32
    requires { HaveRoom ir.now }
    ensures value { result ≡ class_arguments_of ir.now (slice_get ir.now.classes class) }
    ensures few { result ≤ 2 ^ 14 }
{
    let Some(functions) = ir.classes.get(class as usize) else {
        return 0;
    };
    match functions.as_slice().first() {
        Some(f) => arguments_of(ir, *f),
        None => 0,
    }
}

/// The units of a layout.
pub fn runs_of(ir: &Ir, layout: u32) -> &[Run]
    requires { All IsLayout ir.now.layouts }
    ensures value { result.now ≡ runs_or_none (slice_get ir.now.layouts layout) }
    ensures small { All IsSmall result.now }
    ensures same { length (units_in result.now) ≡ length (units_at ir.now layout) }
    ensures few { length (units_in result.now) ≤ 1024 }
{
    match ir.layouts.get(layout as usize) {
        Some(runs) => runs.as_slice(),
        None => &[],
    }
}
