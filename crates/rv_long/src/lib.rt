//! Arithmetic on 64 bits as code words of RV32IM, which has 32 bits. The code goes straight on: it has no jumps, loads,
//! stores or calls.
//!
//! The left operand is in registers 10 and 11, low word first, and the right one in 12 and 13. The result comes into
//! registers 10 and 11. Registers 5 to 7, 10 to 17 and 28 to 31 may change, which are those that the RISC-V calling
//! convention lets a function change; all others stay. A count of a shift is taken modulo 64. A division's right operand is
//! not 0: its user has tested that.
#![tactic(auto)]

mod blocks;
mod op;
mod routines;
mod step;

pub use op::LongOp;
pub use routines::routine;
