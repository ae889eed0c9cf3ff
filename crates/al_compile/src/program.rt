//! From a typed program to its image.
ghost use Rattle.std.specs.Prelude.{◌≡◌, ◌<◌, ◌^◌, length, IfOk};
ghost use Rattle.al_typed.specs.Layout.{IsLaidOut};
ghost use Rattle.al_typed.specs.WellTyped.{IsWellTyped};
ghost use Rattle.al_ir.specs.Bounds.{IsBounded};
ghost use Rattle.al_lower_code.specs.Functions.{lowered};
ghost use Rattle.al_lowering.specs.Addresses.{AddressesAreWords};
ghost use Rattle.rv_gen.specs.Generating.{IsGenerated};
ghost use Rattle.rv_meant.specs.Meant.{IsCompilable, RunsAlike, SimulatesAlike};

use al_base::NoMemory;
use al_ir::Ir;
use al_ir_bounds::{checked_programs_are_bounded, is_bounded};
use al_lower::lower;
use al_typed::Program;
use rv_gen::generate;
use rv_isa::image::Image;
use rv_meant::images_run_as_meant;
use std::alloc::Global;

/// Fewer code words than these are reached by every jump.
const CODE_WORDS: usize = 1 << 23;

/// The operations of a program, where they keep the bounds that code is made for.
fn operations(alloc: Global, p: &Program) -> Result<Ir, NoMemory>
    requires { IsLaidOut p.now.aggregates }
    ensures lowered { IfOk result (λ ir. ir ≡ lowered p.now) }
    ensures bounded { IfOk result (λ ir. IsBounded ir) }
{
    checked_programs_are_bounded();
    let ir = lower(alloc, p)?;
    if is_bounded(&ir) {
        Ok(ir)
    } else {
        Err(NoMemory)
    }
}

/// The image of such operations, if each jump in it reaches.
fn image_of(alloc: Global, ir: &Ir) -> Result<Image, NoMemory>
    requires { IsBounded ir.now }
    ensures generated { IfOk result (λ image. IsGenerated ir.now image) }
    ensures small { IfOk result (λ image. length image.code < 2 ^ 23) }
{
    let image = generate(alloc, ir)?;
    if image.contents().code.len() < CODE_WORDS {
        Ok(image)
    } else {
        Err(NoMemory)
    }
}

/// The image of a typed program. Where the program is well typed and its types are sound, as those of each accepted text are, the
/// machine runs the image as the program's meaning runs the program: in each region all see the same along every schedule. Where its
/// addresses are words too, the image asks the same from each start that the program has.
///
/// Where operations would not keep the bounds that code is made for, or the code would have 2^23 words or more, there is no memory
/// for it.
pub fn compile(alloc: Global, p: &Program) -> Result<Image, NoMemory>
    requires { IsLaidOut p.now.aggregates }
    ensures runs { IfOk result (λ image. IsCompilable p.now → RunsAlike p.now image) }
    ensures simulates { IfOk result (λ image. IsWellTyped p.now → AddressesAreWords p.now → SimulatesAlike p.now image) }
{
    images_run_as_meant();
    let ir = operations(alloc, p)?;
    image_of(alloc, &ir)
}
