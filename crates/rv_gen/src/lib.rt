//! Generates the image of a program of operations.
//!
//! The code is emitted three times by one function: once where all jumps go far, which tells how far those of each function
//! have to go; once by these reaches, which tells where everything stands; and once by these places.
#![tactic(auto)]

mod body;
mod contents;
mod emitted;
mod head;
mod image;

pub use image::generate;
