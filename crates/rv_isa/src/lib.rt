//! The instructions of RV32IM, the words that stand for them, and programs of such words.
#![tactic(auto)]

ghost use Rattle.rv_isa.specs.Table.{HasOneRowAtMost};

pub mod addresses;
mod decoder;
mod encoder;
mod fields;
pub mod image;
pub mod instr;
pub mod micro;
mod sends;

pub use decoder::decode;
pub use encoder::encode;
pub use sends::{image_goes, image_is_shared};

/// Each word is in at most one row of the table.
pub fn one_row_at_most()
    ensures { HasOneRowAtMost }
{}
