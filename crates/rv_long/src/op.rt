//! The operations.

/// An operation on two integers of 64 bits. It wraps.
#[derive(Clone, Copy, Debug, Drop, PartialEq, Eq)]
pub enum LongOp {
    /// The low 64 bits of the product, which are the same with and without signs.
    Mul,
    /// The signed quotient, rounded towards zero.
    Div,
    /// The unsigned quotient.
    DivU,
    /// What signed division leaves, with the sign of the left operand.
    Rem,
    /// What unsigned division leaves.
    RemU,
    /// A shift to the left.
    Sll,
    /// A shift to the right that brings zeros in.
    Srl,
    /// A shift to the right that keeps the sign.
    Sra,
}
