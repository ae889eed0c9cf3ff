use al_tree::{Expr, Stmt, TypeTree};

/// What is to be parsed inside a statement.
#[derive(Clone, Copy)]
pub(crate) enum Want {
    /// A statement.
    Statement,
    /// A statement or a declaration.
    Inner,
    /// A block.
    Block,
}

/// A statement with its height.
#[derive(Drop)]
pub(crate) struct ReadStmt {
    pub(crate) tree: Stmt,
    pub(crate) height: u32,
    /// Whether it ends in an `if` without `else`.
    pub(crate) dangles: bool,
}

/// What stands behind a parenthesis where a type or an expression may stand.
#[derive(Drop)]
pub(crate) enum Begun {
    /// A type, and whether it may be that of a cast.
    Type(TypeTree, bool),
    /// An assignment.
    Value(Expr),
}
