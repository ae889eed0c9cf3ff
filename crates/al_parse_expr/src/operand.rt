use al_lex::Token;
use al_tree::Expr;

/// What has been read of a postfix expression.
#[derive(Drop)]
pub(crate) struct Operand {
    pub(crate) tree: Expr,
    pub(crate) height: u32,
    /// The height that it has where it is called: the name of a function is no level then.
    pub(crate) called: u32,
}

/// What is to be parsed inside an expression.
#[derive(Clone, Copy)]
pub(crate) enum Want {
    /// With commas.
    Expression,
    Assignment,
    /// With binary operators of the levels below that one. With none it is a unary expression.
    Binary(u8),
    /// What stands behind that parenthesis, where it opens no cast.
    Opened(Token),
}
