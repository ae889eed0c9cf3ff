//! The header of an image, and the places that follow from it.

ghost use Rattle.std.specs.Prelude.{◌≡◌, ◌+◌, ◌*◌, ◌≤◌, ◌<◌, ◌^◌, length, IfOk, IsTrue};
ghost use Rattle.rv_image.specs.Reading.{number_at, header_of, has_counts, functions_begin, globals_begin, items_begin, code_begins, lines_begin, size_of};

use crate::fault::ImageFault;
use rv_isa::image::are_counts;

/// The bytes 41 4c 45 46 as a number.
pub(crate) const MAGIC: u32 = 0x4645_4c41;

/// The numbers of a header behind the first one. Version 1 has no line rows.
#[derive(Clone, Copy, Debug, PartialEq, Eq)]
pub(crate) struct Header {
    pub(crate) version: u32,
    pub(crate) code: u32,
    pub(crate) functions: u32,
    pub(crate) globals: u32,
    pub(crate) items: u32,
    pub(crate) privates: u32,
    pub(crate) main: u32,
    pub(crate) lines: u32,
}

/// Number `place` of the bytes, counted from 0.
pub(crate) fn number_at(bytes: &[u8], place: usize) -> u32
    requires { 4 * place + 4 ≤ length bytes.now }
    ensures { result ≡ number_at bytes.now place }
{
    let (_, rest) = bytes.split_at(4 * place);
    let (number, _) = rest.split_at(4);
    u32::from_le_bytes([number[0], number[1], number[2], number[3]])
}

/// The header of an image, or the first thing that is wrong with it.
#[tactic(auto, unfolding(crate::specs::Reading::header_of))]
pub(crate) fn header_of(bytes: &[u8]) -> Result<Header, ImageFault>
    ensures exact { result ≡ header_of bytes.now }
    ensures counts { IfOk result (λ header. IsTrue (has_counts header)) }
{
    if bytes.len() < 32 {
        return Err(ImageFault::Short);
    }
    if number_at(bytes, 0) != MAGIC {
        return Err(ImageFault::Magic);
    }
    let version = number_at(bytes, 1);
    if version != 1 && version != 2 {
        return Err(ImageFault::Version);
    }
    if version == 2 && bytes.len() < 36 {
        return Err(ImageFault::Short);
    }
    let lines = if version == 2 { number_at(bytes, 8) } else { 0 };
    let header = Header {
        version,
        code: number_at(bytes, 2),
        functions: number_at(bytes, 3),
        globals: number_at(bytes, 4),
        items: number_at(bytes, 5),
        privates: number_at(bytes, 6),
        main: number_at(bytes, 7),
        lines,
    };
    if header.has_counts() {
        Ok(header)
    } else {
        Err(ImageFault::Count)
    }
}

impl Header {
    fn has_counts(&self) -> bool
        ensures { result ≡ has_counts self.now }
    {
        are_counts(
            self.code as usize,
            self.functions as usize,
            self.globals as usize,
            self.items as usize,
            self.privates,
            self.main,
            self.lines as usize,
        )
    }

    /// Where the rows of functions begin, counted in numbers, as all places here.
    pub(crate) fn functions_begin(&self) -> usize
        ensures value { result ≡ functions_begin self.now }
        ensures small { result ≤ 9 }
    {
        if self.version == 2 { 9 } else { 8 }
    }

    pub(crate) fn globals_begin(&self) -> usize
        ensures value { result ≡ globals_begin self.now }
        ensures small { result ≤ 2 ^ 34 }
    {
        self.functions_begin() + 3 * self.functions as usize
    }

    pub(crate) fn items_begin(&self) -> usize
        ensures value { result ≡ items_begin self.now }
        ensures small { result ≤ 2 ^ 35 }
    {
        self.globals_begin() + self.globals as usize
    }

    pub(crate) fn code_begins(&self) -> usize
        ensures value { result ≡ code_begins self.now }
        ensures small { result ≤ 2 ^ 36 }
    {
        self.items_begin() + 4 * self.items as usize
    }

    pub(crate) fn lines_begin(&self) -> usize
        ensures value { result ≡ lines_begin self.now }
        ensures small { result ≤ 2 ^ 37 }
    {
        self.code_begins() + self.code as usize
    }

    /// How many numbers the header asks for, itself included.
    pub(crate) fn size(&self) -> usize
        ensures value { result ≡ size_of self.now }
        ensures small { result ≤ 2 ^ 38 }
    {
        self.lines_begin() + 2 * self.lines as usize
    }
}
