//! Assembly: lines with labels made into words, and words shown as text.
#![tactic(auto)]

mod assembler;
mod line;
mod text;

pub use assembler::assemble;
pub use line::AsmLine;
pub use text::listing;
