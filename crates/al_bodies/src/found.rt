use al_items::Items;
use al_type_function::NumberedBranch;
use al_typed::{Function, Ty};

/// What was found of the functions so far.
#[derive(Drop)]
pub(crate) struct Gathered {
    pub functions: Items<Function>,
    /// The par branches in them, in the order in which they came.
    pub branches: Items<NumberedBranch>,
    /// The string constants in them that have blocks.
    pub texts: Items<Items<u8>>,
    /// The types of casts and sizeof in them.
    pub types: Items<Ty>,
}

/// The functions of a text, and behind them the par branches in them.
#[derive(Drop)]
pub struct Bodies {
    /// By their numbers.
    pub functions: Items<Function>,
    /// The string constants in them that have blocks, without the final 0, in the order of their blocks.
    pub texts: Items<Items<u8>>,
    /// The types of casts and sizeof in them, and of the locals of par branches.
    pub types: Items<Ty>,
}
