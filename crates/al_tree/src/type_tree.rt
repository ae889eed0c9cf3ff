use crate::expression::Name;
use al_base::Place;
use al_items::{Boxed, Items};

/// Types that a reserved word names.
#[derive(Clone, Copy, Debug, PartialEq, Eq)]
pub enum BasicType {
    Byte,
    Sint,
    Usint,
    Int,
    Uint,
    Lint,
    Ulint,
    Void,
}

/// Operators of bounds.
#[derive(Clone, Copy, Debug, PartialEq, Eq)]
pub enum BoundOp {
    Plus,
    Minus,
    Times,
}

/// The bound of an array or the capacity of a channel.
#[derive(Debug, Drop)]
pub enum Bound {
    Number {
        at: Place,
        value: u64,
    },
    /// The name of an enum constant.
    Name {
        at: Place,
        name: u32,
    },
    Binary {
        at: Place,
        op: BoundOp,
        left: Boxed<Bound>,
        right: Boxed<Bound>,
    },
}

/// A type as it is written.
#[derive(Debug, Drop)]
pub enum TypeTree {
    Basic {
        at: Place,
        basic: BasicType,
    },
    /// A type's name, with the type arguments of an adt that has parameters. Without arguments the list is empty.
    Named {
        at: Place,
        name: u32,
        arguments: Items<TypeTree>,
    },
    /// Two or more types.
    Tuple {
        at: Place,
        parts: Items<TypeTree>,
    },
    Chan {
        at: Place,
        element: Boxed<TypeTree>,
        capacity: Option<Bound>,
    },
    Pointer {
        at: Place,
        to: Boxed<TypeTree>,
    },
    Array {
        at: Place,
        bound: Bound,
        element: Boxed<TypeTree>,
    },
}

/// What a declaration adds to its base type for one name: `stars` pointers, then arrays, the first bound outermost.
#[derive(Debug, Drop)]
pub struct Dcl {
    pub at: Place,
    pub stars: u32,
    pub name: Name,
    pub bounds: Items<Bound>,
}
