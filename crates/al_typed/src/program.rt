use crate::statement::TStmt;
use crate::ty::Ty;
use al_items::Items;

/// An aggr, a union, an adt, or an instance of an adt with parameters.
///
/// Members by value are of types that stand earlier in the list. Sizes are in bytes.
#[derive(Drop)]
pub struct Aggregate {
    pub is_union: bool,
    /// The types of the data members, in text order. None where the text has no body of it.
    pub members: Option<Items<Ty>>,
    pub size: u32,
    pub align: u32,
    /// How many units it has.
    pub units: u32,
}

/// What a unit of a global starts with.
#[derive(Clone, Copy)]
pub enum StartWord {
    Number(u32),
    /// The address of the block of that string constant.
    Text(u32),
}

/// The value that a unit of a global starts with.
#[derive(Clone, Copy)]
pub struct StartValue {
    /// Where the unit stands in the global, in bytes.
    pub at: u32,
    /// 1, 2 or 4 bytes.
    pub size: u8,
    pub word: StartWord,
}

/// A global variable. Bytes that no start value names are 0.
#[derive(Drop)]
pub struct Global {
    pub name: Items<u8>,
    pub ty: Ty,
    pub is_private: bool,
    pub start: Items<StartValue>,
}

/// A parameter or a local of a function. A parameter may have an empty name.
#[derive(Drop)]
pub struct Local {
    pub name: Items<u8>,
    pub ty: Ty,
    /// Whether it lies in the function's shared block.
    pub is_shared: bool,
}

/// A function, or a branch of a par.
#[derive(Drop)]
pub struct Function {
    /// The last name of its head, or `par`.
    pub name: Items<u8>,
    /// The line of that name where the function is defined, or of the branch.
    pub line: u32,
    /// Void for a branch.
    pub returns: Ty,
    /// How many of the locals are parameters.
    pub parameters: u32,
    /// The parameters, then the other locals, in text order.
    pub locals: Items<Local>,
    /// For a branch, the functions round it, the outermost first; for a function none.
    pub around: Items<u32>,
    /// How many labels and rescues it has.
    pub labels: u32,
    /// A block. For a branch it is any statement.
    pub body: TStmt,
}

/// A typed program.
#[derive(Drop)]
pub struct Program {
    pub aggregates: Items<Aggregate>,
    /// The globals, private ones too, in text order.
    pub globals: Items<Global>,
    /// The bytes of the string constants, without the final 0, in the order of their blocks.
    pub strings: Items<Items<u8>>,
    /// The elements of the channel types that the text or an instance names.
    pub elements: Items<Ty>,
    /// The functions of the text, those of the instances, then the par branches.
    pub functions: Items<Function>,
    /// The number of `main`.
    pub main: u32,
}
