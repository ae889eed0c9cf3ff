//! Values of typed programs as words: operators, conversions and members.
#![tactic(auto)]

mod conversions;
mod members;
mod words;

pub use conversions::{converted, words_in};
pub use members::{Reached, has_small_part, is_small, member_at, part_of, rounded};
pub use words::{
    bits, elements_between, fitted_to, integer_words, is_zero, one_word, operated, operated_once,
    split_word, stepped_by, sum, truth, zero_words,
};

#[cfg(test)]
mod tests;
