//! How much of a text has to be read.

ghost use Rattle.std.specs.Prelude.{◌≡◌, ◌≤◌, ◌^◌, ℕ, List};
ghost use Rattle.rv_image.specs.Front.{enough_of, Suffices};

use crate::header::header_of;

/// How many bytes of a text that begins like this tell whether it is an image, and which: all that its header asks for and one
/// more, or those of a header where that is refused.
pub fn enough(front: &[u8]) -> usize
    ensures value { result ≡ enough_of front.now }
    ensures small { result ≤ 2 ^ 41 }
{
    match header_of(front) {
        Ok(header) => 4 * header.size() + 1,
        Err(_) => 36,
    }
}

/// The first 36 bytes of a text say how many are enough, and those are read as the whole text is.
pub fn fronts_suffice()
    ensures { (text : List ℕ) → Suffices text }
{}
