//! The mode `build`: a text is compiled, and the bytes of its image are written.

ghost use Rattle.std.specs.Prelude.{◌≡◌, None};
ghost use Rattle.rv_isa.specs.declared.image.Contents.{Contents};
ghost use Rattle.alef_texts.specs.Status.{status_of};
ghost use Rattle.alef_texts.specs.Call.{call_by};
ghost use Rattle.alef_run.specs.BuildMode.{EndsBuild, EndsWrite};

use crate::compiling::load_program;
use al_host::{Host, Sink};
use alef_texts::{End, Report, write_all};
use rv_image::write;
use rv_isa::image::Image;
use std::alloc::Global;

/// Writes the bytes of an image.
fn write_image<K: Sink>(alloc: Global, image: &Image, out: &mut K) -> End
    ensures { EndsWrite image.now result (K.got out.old) (K.got out.new) (K.faults out.old) (K.faults out.new) }
{
    let bytes = match write(alloc, image) {
        Ok(bytes) => bytes,
        Err(_) => return End::NoMemory,
    };
    match write_all(out, bytes.as_slice()) {
        Ok(()) => End::Made,
        Err(_) => End::WriteFault,
    }
}

/// Reads the text of that name, compiles it and writes the bytes of its image.
pub(crate) fn build<H: Host, K: Sink>(
    alloc: Global,
    file: &str,
    host: &mut H,
    out: &mut K,
) -> Report
    ensures end { EndsBuild file.now (call_by (H.content host.old) (H.content host.new) (H.faults host.old) (H.faults host.new) (K.got out.old) (K.got out.new) (K.faults out.old) (K.faults out.new) result) result.end }
    ensures image { result.image ≡ None }
    ensures status { result.status ≡ status_of result.end }
{
    let image = match load_program(alloc, host, file) {
        Ok(image) => image,
        Err(end) => return Report::nothing(alloc, end),
    };
    let end = write_image(alloc, &image, out);
    Report::nothing(alloc, end)
}
