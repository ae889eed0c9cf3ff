use al_convert::Literal;
use al_items::Items;
use al_typed::{TExpr, Ty};

/// The parts of a tuple: their types, the parts, and what they are written as.
#[derive(Drop)]
pub struct Columns {
    pub types: Items<Ty>,
    pub values: Items<TExpr>,
    pub written: Items<Literal>,
}
