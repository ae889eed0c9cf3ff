use al_tree::{Bound, TypeTree};

/// What stands in brackets behind a type's name: a type argument, or the bound of an array.
#[derive(Drop)]
pub enum Part {
    Type(TypeTree),
    Bound(Bound),
}

/// What is to be parsed inside a type.
#[derive(Clone, Copy)]
pub(crate) enum Want {
    AnyType,
    /// A type that is no tuple without its word.
    WordType,
    /// A type or a bound.
    Either,
}

/// A base type with its height.
#[derive(Drop)]
pub struct ReadBase {
    pub tree: TypeTree,
    pub height: u32,
    /// Whether a `[` behind it would have begun its capacity.
    pub takes_bracket: bool,
}
