// What a task asks of the world.

use al_base::Trap;
use al_items::Items;

/// Units of a value, each zero-extended to 32 bits.
pub type Words = Items<u32>;

/// The branches of a talk, in text order.
pub type Branches = Items<Branch>;

/// The functions that a par starts, in text order.
pub type Starts = Items<Start>;

/// Bytes of a printed text.
pub type Bytes = Items<u8>;

/// What a block of shared storage is for: `alloc`, the shared locals of a function, or a global or a string.
#[derive(Debug, Clone, Copy, PartialEq, Eq)]
pub enum Block {
    Heap,
    Frame,
    Global,
}

/// A branch of a talk on channel number `chan`, with values of `words` words: a send of these words where
/// `send` has any, else a receive.
#[derive(Debug, Drop)]
pub struct Branch {
    pub chan: u32,
    pub words: u32,
    pub send: Option<Words>,
}

/// A function to start, by its number, with the words of its arguments.
#[derive(Debug, Drop)]
pub struct Start {
    pub code: u32,
    pub words: Words,
}

/// What a task asks of the world in one entry. Sizes are 1, 2 or 4 bytes; channels are numbered from 1, and
/// 0 is nil.
#[derive(Debug, Drop)]
pub enum Act {
    /// Reads `size` bytes of shared storage.
    Load { at: u32, size: u8 },
    /// Writes the lowest `size` bytes of a word.
    Store { at: u32, size: u8, word: u32 },
    /// Takes a block of zeros.
    Alloc { bytes: u32, kind: Block },
    /// Gives a block back.
    Free { at: u32, kind: Block },
    /// Makes a channel for values of `words` words, which holds at most `capacity` of them.
    NewChan { capacity: u32, words: u32 },
    /// Gives a channel up, with what it holds.
    FreeChan { chan: u32 },
    /// Asks whether a receive could go at once.
    CanRecv { chan: u32 },
    /// Asks whether a send could go at once.
    CanSend { chan: u32 },
    /// A send, a receive or an alt.
    Talk { branches: Branches },
    /// Starts a proc with one task.
    Proc(Start),
    /// Starts a task in the same proc.
    Task(Start),
    /// Starts a proc for each branch, and waits until all have ended.
    Par { starts: Starts },
    /// Puts a text out.
    Print { text: Bytes },
    /// Ends the whole program with a status.
    Terminate(i32),
    /// Changes nothing.
    Pause,
    /// Ends the whole program with a trap.
    Trap(Trap),
    /// Ends the task.
    End,
}
