//! From the bytes of a text to its tokens.
#![tactic(auto)]

mod class;
mod constant;
mod fault;
mod kind;
mod law;
mod line;
mod names;
mod number;
mod position;
mod reading;
mod scan;
mod spelling;
mod string;
mod text;
mod token;

pub use constant::char_value;
pub use fault::{LexFault, LexReason, LexStop};
pub use kind::{PieceKind, TokenKind};
pub use law::{cutting_laws, value_law};
pub use number::{number_kind, number_value};
pub use reading::{lex, next};
pub use text::text_bytes;
pub use token::{Token, Tokens};
