//! The trees of texts: items, declarations, statements and expressions, as the grammar in `specs/` gives them.
//!
//! The place of a node is that of its first token, an opening parenthesis included.
#![tactic(auto)]

mod constants;
mod cursor;
mod expression;
mod fault;
mod integer;
mod item;
mod part;
mod statement;
mod type_names;
mod type_tree;

pub use constants::{Constants, EnumConstant, bound_value, enum_values};
pub use cursor::{Cursor, ParseError, same_kind};
pub use expression::{Access, AssignOp, BinaryOp, Expr, Name, PostfixOp, UnaryOp};
pub use fault::{ParseFault, ParseReason, ParseStop};
pub use integer::Integer;
pub use item::{
    AdtMember, AdtPart, AggregateKind, Constant, Declarator, Head, Initializer, Item, Member,
    Owner, Parameter, Scope, Tree,
};
pub use part::{token_number, tokens_from};
pub use statement::{Stmt, Variable};
pub use type_names::TypeNames;
pub use type_tree::{BasicType, Bound, BoundOp, Dcl, TypeTree};
