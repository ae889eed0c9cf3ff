use crate::expression::{Expr, Name};
use crate::statement::Stmt;
use crate::type_tree::{Bound, Dcl, TypeTree};
use al_base::Place;
use al_items::Items;

/// The word before a declaration.
#[derive(Clone, Copy, Debug, PartialEq, Eq)]
pub enum Scope {
    Intern,
    Extern,
    Private,
}

/// The kinds of types with members.
#[derive(Clone, Copy, Debug, PartialEq, Eq)]
pub enum AggregateKind {
    Aggr,
    Union,
    Adt,
}

/// A parameter of a function.
#[derive(Debug, Drop)]
pub enum Parameter {
    /// A type with a name or without one. An array's bound may be missing.
    Plain {
        at: Place,
        base: TypeTree,
        stars: u32,
        name: Option<Name>,
        bounds: Items<Option<Bound>>,
    },
    /// `*T`: the function's own adt, by a pointer.
    OwnPointer {
        at: Place,
        name: u32,
    },
    /// `.T`: the function's own adt, by value.
    OwnValue {
        at: Place,
        name: u32,
    },
}

/// The adt that a function belongs to, with the parameters that stand behind it.
#[derive(Debug, Drop)]
pub struct Owner {
    pub adt: Name,
    pub parameters: Items<Name>,
}

/// The head of a function: its result is the base type with `stars` pointers.
#[derive(Debug, Drop)]
pub struct Head {
    pub at: Place,
    pub stars: u32,
    pub owner: Option<Owner>,
    pub name: Name,
    pub parameters: Items<Parameter>,
}

/// The value that a global starts with.
#[derive(Debug, Drop)]
pub enum Initializer {
    Value(Expr),
    Braces {
        at: Place,
        parts: Items<Initializer>,
    },
}

/// What one item declares at file level.
#[derive(Debug, Drop)]
pub enum Declarator {
    Global {
        dcl: Dcl,
        value: Option<Initializer>,
    },
    Function(Head),
}

/// A member of an aggr, union or adt.
#[derive(Debug, Drop)]
pub enum Member {
    Fields {
        at: Place,
        base: TypeTree,
        fields: Items<Dcl>,
    },
    /// A member without a name: an aggr, union or adt by its name.
    Unnamed {
        at: Place,
        of: TypeTree,
    },
    /// A member without a name whose own members stand here.
    Inner {
        at: Place,
        kind: AggregateKind,
        members: Items<Member>,
    },
}

/// What a member of an adt declares.
#[derive(Debug, Drop)]
pub enum AdtPart {
    Data(Member),
    Function {
        base: TypeTree,
        stars: u32,
        name: Name,
        parameters: Items<Parameter>,
    },
}

/// A member of an adt with the word before it: `intern` or `extern`.
#[derive(Debug, Drop)]
pub struct AdtMember {
    pub at: Place,
    pub scope: Option<Scope>,
    pub part: AdtPart,
}

/// A constant of an enum.
#[derive(Debug, Drop)]
pub struct Constant {
    pub name: Name,
    pub value: Option<Expr>,
}

/// An item at file level.
#[derive(Debug, Drop)]
pub enum Item {
    Typedef {
        at: Place,
        base: TypeTree,
        dcl: Dcl,
    },
    /// A name for a function type, whose result is the base type with `stars` pointers.
    FunctionType {
        at: Place,
        base: TypeTree,
        stars: u32,
        name: Name,
        parameters: Items<Parameter>,
    },
    /// A type's name without its members.
    Forward {
        at: Place,
        kind: AggregateKind,
        name: Name,
    },
    Aggregate {
        at: Place,
        kind: AggregateKind,
        name: Name,
        members: Items<Member>,
    },
    Adt {
        at: Place,
        name: Name,
        parameters: Items<Name>,
        members: Items<AdtMember>,
    },
    Enum {
        at: Place,
        name: Option<Name>,
        constants: Items<Constant>,
    },
    Declare {
        at: Place,
        scope: Option<Scope>,
        base: TypeTree,
        declarators: Items<Declarator>,
    },
    /// A function with its body, which is a block.
    Function {
        at: Place,
        scope: Option<Scope>,
        base: TypeTree,
        head: Head,
        body: Stmt,
    },
}

/// A whole text: its items, and the bytes of its names by number.
#[derive(Debug, Drop)]
pub struct Tree {
    pub items: Items<Item>,
    pub names: Items<Items<u8>>,
}
