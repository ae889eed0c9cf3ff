//! The typed program: what the typing rules make of a text, and what its meaning and its compiler stand on.
#![tactic(auto)]

mod complete;
mod count;
mod count_statement;
mod expression;
mod layout;
mod limit;
mod measure;
mod next_row;
mod piece;
mod program;
mod sizes;
mod statement;
mod tally;
mod ty;
mod unit_list;

pub use complete::{are_complete, is_complete};
pub use expression::{
    BinaryOp, Change, Logic, Movement, Passed, PrintPiece, StepOp, TExpr, TPlace, TReceiver,
    TTarget, UnaryOp,
};
pub use layout::{Room, Unit, in_order, room_of};
pub use limit::Limit;
pub use measure::{function_slots, weigh};
pub use piece::Piece;
pub use program::{Aggregate, Function, Global, Local, Program, StartValue, StartWord};
pub use sizes::size;
pub use statement::{TBounds, TCommunication, TInitializer, TStmt};
pub use ty::Ty;
pub use unit_list::units;
