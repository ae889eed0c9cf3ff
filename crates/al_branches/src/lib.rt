//! The numbers of par branches. A program numbers its functions, and behind them the branches of all pars in text order, those
//! at one place in the order of the functions that have them.
#![tactic(auto)]

mod count;
mod law;
mod number;
mod place;
mod statement;
mod table;

pub use law::branch_numbers_law;
pub use number::branch_numbers;
