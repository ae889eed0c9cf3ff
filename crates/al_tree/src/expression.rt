use crate::type_tree::TypeTree;
use al_base::Place;
use al_items::{Boxed, Items};

/// A name where it stands. `name` is its number among the text's names.
#[derive(Clone, Copy, Debug, PartialEq, Eq)]
pub struct Name {
    pub at: Place,
    pub name: u32,
}

/// Operators before their operand.
#[derive(Clone, Copy, Debug, PartialEq, Eq)]
pub enum UnaryOp {
    Plus,
    Minus,
    /// `!`
    Not,
    /// `~`
    Complement,
    /// `*`
    Indirect,
    /// `&`
    Address,
    /// `++`
    Increment,
    /// `--`
    Decrement,
    /// `<-`
    Receive,
    /// `?`, whether a receive could go at once
    CanReceive,
    Zerox,
}

/// Operators behind their operand.
#[derive(Clone, Copy, Debug, PartialEq, Eq)]
pub enum PostfixOp {
    /// `++`
    Increment,
    /// `--`
    Decrement,
    /// `?`, whether a send could go at once
    CanSend,
}

/// Operators between two operands.
#[derive(Clone, Copy, Debug, PartialEq, Eq)]
pub enum BinaryOp {
    Multiply,
    Divide,
    Remainder,
    Add,
    Subtract,
    ShiftLeft,
    ShiftRight,
    Less,
    Greater,
    LessEqual,
    GreaterEqual,
    Equal,
    NotEqual,
    /// `&`
    BitAnd,
    /// `^`
    BitXor,
    /// `|`
    BitOr,
    /// `&&`
    And,
    /// `||`
    Or,
}

/// Assignments and the send.
#[derive(Clone, Copy, Debug, PartialEq, Eq)]
pub enum AssignOp {
    /// `=`
    Assign,
    /// `*=` and the like: the operator's result is assigned.
    Compound(BinaryOp),
    /// `<-=`
    Send,
}

/// How a member is reached.
#[derive(Clone, Copy, Debug, PartialEq, Eq)]
pub enum Access {
    /// `.`, of a value or place
    Dot,
    /// `->`, through a pointer
    Arrow,
}

/// An expression.
#[derive(Debug, Drop)]
pub enum Expr {
    Number {
        at: Place,
        value: u64,
    },
    Char {
        at: Place,
        value: u8,
    },
    /// A string constant: its bytes, without the final 0.
    Text {
        at: Place,
        bytes: Items<u8>,
    },
    Nil {
        at: Place,
    },
    Name {
        at: Place,
        name: u32,
    },
    /// Two or more parts.
    Tuple {
        at: Place,
        parts: Items<Expr>,
    },
    Unary {
        at: Place,
        op: UnaryOp,
        operand: Boxed<Expr>,
    },
    Cast {
        at: Place,
        to: TypeTree,
        operand: Boxed<Expr>,
    },
    SizeofType {
        at: Place,
        of: TypeTree,
    },
    SizeofValue {
        at: Place,
        of: Boxed<Expr>,
    },
    Index {
        at: Place,
        of: Boxed<Expr>,
        index: Boxed<Expr>,
    },
    Member {
        at: Place,
        of: Boxed<Expr>,
        access: Access,
        name: Name,
    },
    Call {
        at: Place,
        callee: Boxed<Expr>,
        arguments: Items<Expr>,
    },
    Postfix {
        at: Place,
        op: PostfixOp,
        operand: Boxed<Expr>,
    },
    Binary {
        at: Place,
        op: BinaryOp,
        left: Boxed<Expr>,
        right: Boxed<Expr>,
    },
    /// `from::to`
    Iterator {
        at: Place,
        from: Boxed<Expr>,
        to: Boxed<Expr>,
    },
    Assign {
        at: Place,
        op: AssignOp,
        left: Boxed<Expr>,
        right: Boxed<Expr>,
    },
    /// Two or more expressions with commas between them; the value is the last one's.
    Sequence {
        at: Place,
        parts: Items<Expr>,
    },
}
