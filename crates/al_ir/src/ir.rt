// Programs of operations.

use crate::op::{Op, Slots};
use al_items::Items;

/// An operation, with the line of the text that it belongs to.
#[derive(Drop)]
pub struct Operation {
    pub line: u32,
    pub op: Op,
}

/// A function.
#[derive(Drop)]
pub struct Function {
    /// That of its name.
    pub line: u32,
    /// How many words it is given. They stand in its slots from 0 on.
    pub arguments: u32,
    /// How many words it takes on the stack of a task.
    pub stack: u32,
    /// How many of these are slots.
    pub slots: u32,
    pub code: Items<Operation>,
}

/// The functions of one type that are called through pointers.
pub type Functions = Slots;

/// Units of one size, one behind the other, the first of which stands at `at` in the value.
#[derive(Clone, Copy)]
pub struct Run {
    pub at: u32,
    pub size: u8,
    pub count: u32,
}

/// The units of a value of several words, in their order.
pub type Runs = Items<Run>;

/// What a part of a global starts with.
#[derive(Clone, Copy)]
pub struct StartItem {
    pub at: u32,
    pub size: u8,
    pub word: u32,
}

/// A shared global or a string. Bytes that no item names are 0.
#[derive(Drop)]
pub struct Global {
    pub bytes: u32,
    pub start: Items<StartItem>,
}

/// A program of operations.
#[derive(Drop)]
pub struct Ir {
    pub functions: Items<Function>,
    pub classes: Items<Functions>,
    pub layouts: Items<Runs>,
    /// The blocks at the start.
    pub globals: Items<Global>,
    /// The words of private globals.
    pub privates: u32,
    /// The function that the first task begins with.
    pub main: u32,
}
