//! Why bytes are no image.

ghost use Rattle.std.specs.Prelude.{◌≡◌};
ghost use Rattle.rv_image.specs.declared.fault.ImageStop.TheVariants as stops;

use al_base::NoMemory;

/// The first thing that is wrong with the bytes, in the order in which `read` looks.
#[derive(Clone, Copy, Debug, PartialEq, Eq)]
pub enum ImageFault {
    /// Fewer bytes than a header has, or than it asks for.
    Short = 1,
    /// The first four bytes are not `ALEF`.
    Magic,
    /// The version is neither 1 nor 2.
    Version,
    /// A number of the header or a row is out of its bounds.
    Count,
    /// Bytes stand past the end.
    Extra,
}

/// Why an image was not read.
#[derive(Clone, Copy, Debug, PartialEq, Eq)]
pub enum ImageStop {
    Fault(ImageFault),
    NoMemory,
}

impl From<ImageFault> for ImageStop {
    ghost from_gives = { λ fault stop. stop ≡ stops.Fault fault };

    fn from(fault: ImageFault) -> ImageStop {
        ImageStop::Fault(fault)
    }
}

impl From<NoMemory> for ImageStop {
    ghost from_gives = { λ _ stop. stop ≡ stops.NoMemory };

    fn from(_error: NoMemory) -> ImageStop {
        ImageStop::NoMemory
    }
}
