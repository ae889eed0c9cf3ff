ghost use Rattle.std.specs.Prelude.{◌≡◌, IfOk, IfErr};
ghost use Rattle.rv_isa.specs.declared.image.Contents.{Contents};
ghost use Rattle.rv_image.specs.Spelling.{IsImage, IsImage2};
ghost use Rattle.rv_image.specs.Reading.{reading, Stops};

use crate::fault::ImageStop;
use crate::reading::read;
use crate::writing::write;
use std::alloc::Global;

/// The image that the bytes are, in either version, as the bytes of version 2. What `read` refuses this refuses too.
pub fn migrate(alloc: Global, bytes: &[u8]) -> Result<Vec<u8>, ImageStop>
    ensures ok { IfOk result (λ new. (c : Contents) × IsImage bytes.now c × IsImage2 new.items c) }
    // They are read as what the old ones are read as.
    ensures again { IfOk result (λ new. reading new.items ≡ reading bytes.now) }
    ensures err { IfErr result (λ stop. Stops stop (reading bytes.now)) }
{
    let image = read(alloc, bytes)?;
    Ok(write(alloc, &image)?)
}
