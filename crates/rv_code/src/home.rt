// Where slots live.

/// Where the word of a slot lives: in a word of its function's frame, counted from the frame's first, or in a register,
/// one of 18 to 27.
#[derive(Clone, Copy, Debug, PartialEq, Eq)]
pub enum Home {
    Frame(u32),
    Saved(u8),
}
