//! From a text to its image.

ghost use Rattle.std.specs.Prelude.{◌≡◌, IfOk, IfErr, OnOk};
ghost use Rattle.al_typed.specs.declared.program.Program.{Program as SpecProgram};
ghost use Rattle.al_typed.specs.Layout.{IsLaidOut};
ghost use Rattle.alef_texts.specs.Load.{KeepsTexts};
ghost use Rattle.alef_run.specs.Compiling.{Compiles, CompilesText, IsImageOf, LacksProgram};

use al_compile::compile;
use al_front::{FrontStop, front};
use al_host::Host;
use al_typed::Program;
use alef_texts::{End, kept, load_text};
use rv_isa::image::Image;
use rv_sound_runs::accepted_texts_run_as_meant;
use std::alloc::Global;

/// The image of the program that the front end found, or why there is none.
fn image_found(alloc: Global, found: &Result<Program, FrontStop>) -> Result<Image, End>
    requires laid_out { IfOk found.now (λ p. IsLaidOut p.aggregates) }
    ensures { Compiles found.now result }
{
    match found {
        Ok(program) => match compile(alloc, program) {
            Ok(image) => Ok(image),
            Err(_) => Err(End::NoMemory),
        },
        Err(FrontStop::Refused(reason)) => Err(End::Refused(*reason)),
        Err(FrontStop::NoMemory) => Err(End::NoMemory),
    }
}

/// The image of a text that is accepted, within the limits, or why there is none.
pub(crate) fn compiled(alloc: Global, text: &[u8]) -> Result<Image, End>
    ensures { CompilesText text.now result }
{
    accepted_texts_run_as_meant();
    let found = front(alloc, text);
    let image = image_found(alloc, &found);
    kept(image, found)
}

/// Reads the text of that name and compiles it.
pub(crate) fn load_program<H: Host>(alloc: Global, host: &mut H, file: &str) -> Result<Image, End>
    ensures image { IfOk result (λ image. (p : SpecProgram) × IsImageOf file.now p image (H.content host.old) (H.content host.new) (H.faults host.old) (H.faults host.new)) }
    ensures same { OnOk result (KeepsTexts (H.content host.old) (H.content host.new)) }
    ensures none { IfErr result (λ end. LacksProgram file.now end (H.content host.old) (H.content host.new) (H.faults host.old) (H.faults host.new)) }
{
    let bytes = load_text(alloc, host, file)?;
    compiled(alloc, bytes.as_slice())
}
