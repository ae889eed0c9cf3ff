//! Lists of operations, where variables stand in slots, and the operations that move, compare and convert words.
#![tactic(auto)]

mod code;
mod conversions;
mod operators;
mod place;
mod spot;

pub use code::{
    Code, constants, copies, gets, loads, moves, push, puts, puts_same, results, slot_behind,
    stores, stores_same, trims, zeros,
};
pub use conversions::{convert, convert_parts, extracts, keeps_bits, parts_stay, stays};
pub use operators::{
    arith_of, arithmetic, compares, is_long, is_swapped, negation, operator, operator_by,
    skip_if_set, skip_if_zero, skip_unless, step, step_bytes, takes_constant, truth,
};
pub use place::{Where, address, clear, home_of, moved_by, read, save, settle, settled};
pub use spot::{
    Spot, block_home, bytes, layout_number, local_home, offset_in, some, units_of, words,
};
