use crate::stack::Stack;
use al_base::Kind;
use al_event::Words;
use al_items::{Boxed, Items};
use al_typed::{
    BinaryOp, Change, Passed, PrintPiece, StepOp, TExpr, TPlace, TStmt, TTarget, Ty, UnaryOp, Unit,
};

/// What was found.
#[derive(Drop)]
pub enum Found {
    /// A value.
    Words(Words),
    /// A place in shared storage, by its address.
    Address(u32),
    /// A private local, by its number in the function.
    Local(u32),
    /// A private global, by its number.
    Private(u32),
    /// The part that stands for it is dropped.
    Nowhere,
}

/// An argument of a print.
#[derive(Drop)]
pub struct Argument<'p> {
    pub ty: &'p Ty,
    pub words: Words,
}

/// The bounds of an iterator. It does not come to the second.
#[derive(Clone, Copy)]
pub struct Bounds {
    pub from: u32,
    pub to: u32,
}

/// What is to be done with operands that were found.
#[derive(Drop)]
pub enum Operator<'p> {
    Unary(UnaryOp, Kind),
    Negate,
    Binary(BinaryOp, Kind),
    Truth,
    /// A pointer and then a count of elements of `size` bytes.
    Advance { back: bool, size: u32 },
    /// The count, and then the pointer.
    AdvanceCounted { size: u32 },
    Between { size: u32 },
    Convert { from: &'p Ty, to: &'p Ty },
    /// So many values as one.
    Join { count: usize },
}

/// What is to be done with places, and with values that are on the way from or to a place.
#[derive(Drop)]
pub enum Storage<'p> {
    /// The place that a pointer leads to, so many bytes further on.
    Point {
        offset: u32,
    },
    /// The place of an element.
    Index {
        size: u32,
    },
    /// The place of a member.
    Within {
        offset: u32,
    },
    AddressOf,
    Read(&'p Ty),
    /// Reads a place and keeps it.
    Look(&'p Ty),
    /// Loads of the units that are left of a value.
    Fetch {
        at: u32,
        units: Stack<Unit>,
        got: Words,
    },
    /// The same, where the word of one more was found.
    Fetched {
        at: u32,
        units: Stack<Unit>,
        got: Words,
    },
    Save {
        ty: &'p Ty,
        words: Words,
        place: Found,
    },
    Put(&'p Ty),
    /// Stores of the units that are left of a value.
    Write {
        at: u32,
        units: Stack<Unit>,
        words: Stack<u32>,
    },
    Update {
        ty: &'p Ty,
        change: Change,
    },
    Step {
        ty: &'p Ty,
        op: StepOp,
    },
    Clear(&'p Ty),
}

/// Steps of calls, and of the starts and ends of functions.
#[derive(Drop)]
pub enum Calling<'p> {
    /// What a function of an adt gets of an object at a place that was found.
    PassPlace {
        passed: Passed,
        ty: &'p Ty,
        offset: u32,
    },
    PassPointer {
        passed: Passed,
        ty: &'p Ty,
        offset: u32,
    },
    PassPart {
        passed: Passed,
        ty: &'p Ty,
        path: &'p [u32],
    },
    Invoke {
        function: u32,
        count: usize,
    },
    /// A call through a pointer of that type.
    InvokePointer {
        ty: &'p Ty,
        count: usize,
    },
    /// A call after its turn.
    Enter {
        function: u32,
        words: Words,
    },
    /// A call in the place of the function at hand.
    InvokeInstead {
        function: u32,
        count: usize,
    },
    Replace {
        function: u32,
        words: Words,
    },
    TakeBlock,
    SetBlock,
    StoreParameter {
        number: u32,
        words: Words,
    },
    Returns {
        is_valued: bool,
    },
    CountReturn(Option<Words>),
    Leave(Option<Words>),
}

/// A text that is composed, and what is asked of the world.
#[derive(Drop)]
pub enum Action<'p> {
    Compose {
        pieces: &'p [PrintPiece],
        arguments: Stack<Argument<'p>>,
        text: Items<u8>,
    },
    /// Reads the bytes of a `%s`.
    Scan {
        at: u32,
        pieces: &'p [PrintPiece],
        arguments: Stack<Argument<'p>>,
        text: Items<u8>,
    },
    Scanned {
        at: u32,
        pieces: &'p [PrintPiece],
        arguments: Stack<Argument<'p>>,
        text: Items<u8>,
    },
    Terminates,
    Receives(&'p Ty),
    Received(&'p Ty),
    Sends(&'p Ty),
    CanReceives,
    CanSends,
    Allocate(&'p Ty),
    Unallocate(&'p Ty),
    StartProc {
        function: u32,
        count: usize,
    },
    StartTask {
        function: u32,
        count: usize,
    },
}

/// What is to be done with an expression.
#[derive(Drop)]
pub enum ValueStage {
    Eval,
    /// It is the right side of `&&`, and the left was found.
    AndThen,
    OrElse,
    /// It is a print, and the values of its arguments were found.
    Gather,
    /// It is the value of a statement with so many iterators, and their bounds were found.
    Bound {
        count: usize,
    },
    /// The iterators from this number on are to go through these bounds.
    Iterate {
        number: usize,
        bounds: Stack<Bounds>,
    },
    /// The next turn of the iterator before them.
    NextTurn {
        number: usize,
        bounds: Bounds,
        rest: Stack<Bounds>,
    },
}

/// What is to be done with a target.
#[derive(Clone, Copy)]
pub enum TargetStage {
    Aim,
    /// The value that was found is put into its places.
    Assign,
}

/// What is to be done with a statement, or what is left of it.
#[derive(Clone, Copy)]
pub enum Stage {
    Do,
    /// The condition of an if was found.
    Choose,
    WhileTest,
    WhileAgain,
    DoCondition,
    DoTest,
    ForCondition,
    ForTest,
    ForNext,
    ForAgain,
    /// The value of a switch was found.
    Select,
    /// The channels and values of an alt were found.
    AltTalk,
    /// A case of an alt went.
    AltWent,
}

/// What is still to do. What it needs of the values and places that were found before, it takes from the frame.
#[derive(Drop)]
pub enum Work<'p> {
    Value(ValueStage, &'p TExpr),
    Target(TargetStage, &'p TTarget),
    /// The box keeps the type small.
    Statement(Stage, Boxed<&'p TStmt>),
    Find(&'p TPlace),
    /// Finds a local of the function at hand that a declaration gives a value of that type.
    FindDeclared { ty: &'p Ty, number: u32 },
    Operator(Operator<'p>),
    /// A member of a value of that type, to which the path leads.
    Part { ty: &'p Ty, path: &'p [u32] },
    Storage(Storage<'p>),
    Calling(Calling<'p>),
    Action(Action<'p>),
    /// Waits for an answer without words.
    Answered,
    /// Gives a value that is known.
    Give(Words),
    /// Drops a value.
    Forget,
    /// The condition of a check was found.
    Test,
    /// The end of the body of a switch or an alt.
    CasesEnd,
}
