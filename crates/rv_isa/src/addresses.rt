//! Where the code, the windows that are private to a task or a proc, and the shared region lie. This map is the
//! project's choice.

/// The code, of at most 2^23 words.
pub const CODE_START: u32 = 0x0040_0000;

/// The private stack of a task.
pub const STACK_START: u32 = 0x0400_0000;

/// The first address behind the private stack.
pub const STACK_END: u32 = 0x0440_0000;

/// The private globals of a proc, of at most 2^16 bytes.
pub const GLOBALS_START: u32 = 0x0500_0000;

/// The shared region, of at most 2^28 bytes.
pub const REGION_START: u32 = 0x1000_0000;
