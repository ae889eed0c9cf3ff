use crate::expression::{Expr, Name};
use crate::type_tree::{Dcl, TypeTree};
use al_base::Place;
use al_items::{Boxed, Items};

/// A local variable with the value that it starts with.
#[derive(Debug, Drop)]
pub struct Variable {
    pub dcl: Dcl,
    pub value: Option<Expr>,
}

/// A statement, a local declaration, or a label of a case.
#[derive(Debug, Drop)]
pub enum Stmt {
    Empty {
        at: Place,
    },
    Block {
        at: Place,
        body: Items<Stmt>,
    },
    Declare {
        at: Place,
        base: TypeTree,
        variables: Items<Variable>,
    },
    Value {
        at: Place,
        value: Expr,
    },
    Label {
        at: Place,
        name: u32,
        body: Boxed<Stmt>,
    },
    If {
        at: Place,
        condition: Expr,
        then: Boxed<Stmt>,
        other: Option<Boxed<Stmt>>,
    },
    While {
        at: Place,
        condition: Expr,
        body: Boxed<Stmt>,
    },
    Do {
        at: Place,
        body: Boxed<Stmt>,
        condition: Expr,
    },
    For {
        at: Place,
        start: Option<Expr>,
        condition: Option<Expr>,
        step: Option<Expr>,
        body: Boxed<Stmt>,
    },
    /// The body has the cases' labels, each before the statements of its case. It begins with a label or is empty.
    Switch {
        at: Place,
        value: Expr,
        body: Items<Stmt>,
    },
    /// As the body of a switch, where each label has one communication.
    Alt {
        at: Place,
        body: Items<Stmt>,
    },
    /// The label of a case in the body of a switch or an alt. It is no statement of its own.
    Case {
        at: Place,
        value: Expr,
    },
    /// The label `default` in the body of a switch. It is no statement of its own.
    Default {
        at: Place,
    },
    Par {
        at: Place,
        branches: Items<Stmt>,
    },
    /// The body is a block.
    Rescue {
        at: Place,
        name: Option<Name>,
        body: Boxed<Stmt>,
    },
    Raise {
        at: Place,
        name: Option<Name>,
    },
    Return {
        at: Place,
        value: Option<Expr>,
    },
    Become {
        at: Place,
        value: Expr,
    },
    /// How many loops, switches and alts it leaves, where that is written.
    Break {
        at: Place,
        count: Option<u64>,
    },
    /// Which enclosing loop it goes on with, where that is written.
    Continue {
        at: Place,
        count: Option<u64>,
    },
    Goto {
        at: Place,
        label: Name,
    },
    Alloc {
        at: Place,
        places: Items<Expr>,
    },
    Unalloc {
        at: Place,
        values: Items<Expr>,
    },
    Check {
        at: Place,
        value: Expr,
        text: Option<Items<u8>>,
    },
    Proc {
        at: Place,
        calls: Items<Expr>,
    },
    Task {
        at: Place,
        calls: Items<Expr>,
    },
}
