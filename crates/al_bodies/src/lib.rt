//! The functions of a whole text, typed, and behind them the branches of all pars in them by their numbers.
#![tactic(auto)]

mod found;
mod gather;
mod list;
mod place;
mod whole;

pub use found::Bodies;
pub use whole::bodies;
