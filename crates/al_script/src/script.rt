// Scripts: tasks whose actions are listed.

use al_base::Trap;
use al_event::{Block, Words};
use al_items::Items;

/// Where an operand begins.
#[derive(Debug, Clone, Copy, PartialEq, Eq)]
pub enum Source {
    /// 0.
    Zero,
    /// A word of the task's arguments, counted from 0; 0 past the last.
    Argument(u32),
    /// A word of the answer to an instruction of the task, both counted from 0; 0 where there is none.
    Answer { instruction: u32, word: u32 },
}

/// A number that an instruction uses: the source and so much more, modulo 2^32.
#[derive(Debug, Clone, Copy, PartialEq, Eq)]
pub struct Operand {
    pub source: Source,
    pub plus: u32,
}

/// How many bytes an access has: 1, 2 or 4.
#[derive(Debug, Clone, Copy, PartialEq, Eq)]
pub enum Width {
    Byte,
    Half,
    Word,
}

/// A branch of a talk, for values of `words` words: a send of these where `send` has any, else a receive.
#[derive(Debug, Drop)]
pub struct Choice {
    pub chan: Operand,
    pub words: u32,
    pub send: Option<Items<Operand>>,
}

/// A function to start, by its number from 0, with its arguments.
#[derive(Debug, Drop)]
pub struct Call {
    pub code: u32,
    pub words: Items<Operand>,
}

/// An action that a task asks.
#[derive(Debug, Drop)]
pub enum Instruction {
    Load {
        at: Operand,
        width: Width,
    },
    Store {
        at: Operand,
        width: Width,
        word: Operand,
    },
    /// A block of so many bytes, at least 1.
    Alloc {
        bytes: Operand,
        kind: Block,
    },
    Free {
        at: Operand,
        kind: Block,
    },
    NewChan {
        capacity: u32,
        words: u32,
    },
    FreeChan {
        chan: Operand,
    },
    CanRecv {
        chan: Operand,
    },
    CanSend {
        chan: Operand,
    },
    Talk {
        choices: Items<Choice>,
    },
    Proc(Call),
    Task(Call),
    Par {
        calls: Items<Call>,
    },
    /// Puts out the lowest byte of each word.
    Print {
        text: Items<Operand>,
    },
    Terminate(i32),
    Pause,
    Trap(Trap),
}

/// The instructions of a task, one after the other. It ends after the last one.
pub type Function = Items<Instruction>;

/// The functions of a program, by their numbers from 0.
pub type Script = Items<Function>;

/// What a task has come to: its function, its arguments, and the answers to the instructions that it has done.
#[derive(Debug, Drop)]
pub struct Control {
    pub code: u32,
    pub arguments: Words,
    pub answers: Items<Words>,
}
