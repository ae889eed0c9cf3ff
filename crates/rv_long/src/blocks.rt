//! Straight pieces of code, by what they do.

use crate::step::Step::{self, By, Of, With};
use rv_isa::instr::ImmediateOp::{Addi, Sltiu};
use rv_isa::instr::RegisterOp::{Add, Mul, Mulhu, Sll, Sltu, Srl, Sub, Xor};
use rv_isa::instr::ShiftOp::{Slli, Srli};

// Registers by their names in the RISC-V calling convention.
const ZERO: u8 = 0;

const T0: u8 = 5;

const T1: u8 = 6;

const T2: u8 = 7;

const T3: u8 = 28;

const A0: u8 = 10;

const A1: u8 = 11;

const A2: u8 = 12;

const A3: u8 = 13;

const A4: u8 = 14;

const A5: u8 = 15;

const A6: u8 = 16;

const A7: u8 = 17;

/// The low 64 bits of the product of a1:a0 and a3:a2, to a1:a0.
pub const MULTIPLY: [Step; 6] = [
    Of(Mul, T0, A0, A3),
    Of(Mul, T1, A1, A2),
    Of(Mulhu, T2, A0, A2),
    Of(Mul, A0, A0, A2),
    Of(Add, A1, T0, T1),
    Of(Add, A1, A1, T2),
];

/// 2 to the power of a2 modulo 64, to a3:a2.
pub const POWER: [Step; 6] = [
    With(Addi, T0, ZERO, 1),
    Of(Sll, T0, T0, A2),
    By(Slli, T1, A2, 26),
    By(Srli, T1, T1, 31),
    Of(Mul, A3, T0, T1),
    Of(Sub, A2, T0, A3),
];

/// a1:a0 shifted right by a2 modulo 64, first by its low five bits, and then by 32 where its next bit is 1.
pub const SHIFT_RIGHT: [Step; 14] = [
    Of(Srl, T0, A0, A2),
    By(Slli, T1, A1, 1),
    With(Addi, T2, ZERO, 31),
    Of(Sub, T2, T2, A2),
    Of(Sll, T1, T1, T2),
    Of(Add, T0, T0, T1),
    Of(Srl, A1, A1, A2),
    By(Slli, T1, A2, 26),
    By(Srli, T1, T1, 31),
    With(Sltiu, T2, T1, 1),
    Of(Mul, T0, T0, T2),
    Of(Mul, T1, A1, T1),
    Of(Add, A0, T0, T1),
    Of(Mul, A1, A1, T2),
];

/// The sign of a1:a0, to a6.
pub const SIGN: [Step; 1] = [By(Srli, A6, A1, 31)];

/// Turns each bit of a1:a0 where a6 is 1.
pub const COMPLEMENT: [Step; 3] = [
    Of(Sub, T0, ZERO, A6),
    Of(Xor, A0, A0, T0),
    Of(Xor, A1, A1, T0),
];

/// Adds a6, which is 0 or 1, to a1:a0.
pub const ADD_SIGN: [Step; 3] = [
    Of(Add, A0, A0, A6),
    Of(Sltu, T0, A0, A6),
    Of(Add, A1, A1, T0),
];

/// The sign of a3:a2, to a7, and its absolute value.
pub const ABSOLUTE_RIGHT: [Step; 7] = [
    By(Srli, A7, A3, 31),
    Of(Sub, T0, ZERO, A7),
    Of(Xor, A2, A2, T0),
    Of(Xor, A3, A3, T0),
    Of(Add, A2, A2, A7),
    Of(Sltu, T0, A2, A7),
    Of(Add, A3, A3, T0),
];

/// The sign of the quotient, to a6.
pub const SIGN_OF_QUOTIENT: [Step; 2] = [Of(Sub, A6, A6, A7), Of(Sltu, A6, ZERO, A6)];

/// The remainder before the first bit of a division, to a5:a4.
pub const CLEAR: [Step; 2] = [With(Addi, A4, ZERO, 0), With(Addi, A5, ZERO, 0)];

/// A bit of restoring division by a3:a2. The next bit of the dividend leaves a1:a0 at the left and enters the remainder in
/// a5:a4, whose bit 64 is in t0. Where the divisor is not above the remainder it is taken from it, and a bit of the quotient
/// enters a1:a0 at the right.
pub const DIVIDE: [Step; 26] = [
    By(Srli, T0, A5, 31),
    By(Slli, A5, A5, 1),
    By(Srli, T1, A4, 31),
    Of(Add, A5, A5, T1),
    By(Slli, A4, A4, 1),
    By(Srli, T1, A1, 31),
    Of(Add, A4, A4, T1),
    By(Slli, A1, A1, 1),
    By(Srli, T1, A0, 31),
    Of(Add, A1, A1, T1),
    By(Slli, A0, A0, 1),
    // t2 becomes 1 where the remainder is below the divisor
    Of(Sltu, T1, A4, A2),
    Of(Sltu, T2, A5, A3),
    Of(Sub, T3, A5, A3),
    Of(Sltu, T3, T3, T1),
    Of(Add, T2, T2, T3),
    // t2 becomes the bit of the quotient
    With(Sltiu, T2, T2, 1),
    Of(Add, T2, T2, T0),
    Of(Sltu, T2, ZERO, T2),
    Of(Add, A0, A0, T2),
    Of(Mul, T0, A2, T2),
    Of(Sltu, T1, A4, T0),
    Of(Sub, A4, A4, T0),
    Of(Mul, T0, A3, T2),
    Of(Sub, A5, A5, T0),
    Of(Sub, A5, A5, T1),
];

/// The remainder, to a1:a0.
pub const REMAINDER: [Step; 2] = [With(Addi, A0, A4, 0), With(Addi, A1, A5, 0)];
