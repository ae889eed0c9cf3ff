use crate::stack::Stack;
use crate::work::{Found, Work};
use al_event::{Act, Words};
use al_items::Items;
use al_typed::Program;

/// Work, with the line of the statement that it belongs to.
#[derive(Drop)]
pub struct Item<'p> {
    pub line: u32,
    pub work: Work<'p>,
}

/// A function that runs.
#[derive(Drop)]
pub struct Frame<'p> {
    pub function: u32,
    /// The words of its private locals, by their numbers; none for those in the shared block.
    pub locals: Items<Words>,
    /// The address of its shared block, 0 where it has none.
    pub block: u32,
    /// For a branch of a par: the addresses of the blocks of the functions round it, the outermost first.
    pub around: Words,
    /// The turns at hand of the iterators of a statement, by their numbers.
    pub turns: Words,
    pub items: Stack<Item<'p>>,
    /// The last first.
    pub found: Stack<Found>,
}

/// A function that begins once the stack was tested.
#[derive(Drop)]
pub struct Entering {
    pub function: u32,
    pub words: Words,
}

/// The control of a task: its frames, the innermost first.
#[derive(Drop)]
pub struct Control<'p> {
    pub entering: Option<Entering>,
    pub frames: Stack<Frame<'p>>,
}

/// A frame of which an item was taken, the frames below, and the private globals of the proc.
#[derive(Drop)]
pub struct Here<'p> {
    pub program: &'p Program,
    pub line: u32,
    pub frame: Frame<'p>,
    pub below: Stack<Frame<'p>>,
    pub privates: Words,
}

/// A private step.
#[derive(Drop)]
pub enum Next<'p> {
    Moves(Control<'p>, Words),
    /// A turn, made in a line.
    Turns(u32, Control<'p>, Words),
    Asks(Act, u32, Control<'p>, Words),
}
