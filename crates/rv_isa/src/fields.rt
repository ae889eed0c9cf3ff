//! The fields of an instruction word.

ghost use Rattle.std.specs.Prelude.{◌≡◌, ◌+◌, ◌-◌, ◌*◌, ◌^◌, ◌<◌, ◌≤◌, nat_lt, if◌then◌else◌, pos, negsuc};
ghost use Rattle.rv_isa.specs.Fields.{bits, opcode, rd, funct3, rs1, rs2, funct7, i_imm, s_imm, b_imm, u_imm, j_imm};

/// `word[high:low]`.
#[inline(always)]
pub fn bits(word: u32, high: u32, low: u32) -> u32
    requires ordered { low ≤ high }
    requires narrow { high < low + 31 }
    requires in_word { high < 32 }
    ensures { result ≡ bits high low word }
{
    (word >> low) % (1 << (high + 1 - low))
}

#[inline(always)]
pub fn opcode(word: u32) -> u32
    ensures { result ≡ opcode word }
{
    bits(word, 6, 0)
}

#[inline(always)]
pub fn rd(word: u32) -> u8
    ensures { result ≡ rd word }
{
    bits(word, 11, 7) as u8
}

#[inline(always)]
pub fn funct3(word: u32) -> u32
    ensures { result ≡ funct3 word }
{
    bits(word, 14, 12)
}

#[inline(always)]
pub fn rs1(word: u32) -> u8
    ensures { result ≡ rs1 word }
{
    bits(word, 19, 15) as u8
}

#[inline(always)]
pub fn rs2(word: u32) -> u8
    ensures { result ≡ rs2 word }
{
    bits(word, 24, 20) as u8
}

#[inline(always)]
pub fn funct7(word: u32) -> u32
    ensures { result ≡ funct7 word }
{
    bits(word, 31, 25)
}

/// A field whose highest bit is worth `half`, read as a number in two's complement.
#[inline(always)]
fn signed(half: u32, field: u32) -> i32
    requires narrow { half ≤ 2 ^ 20 }
    requires fits { field < 2 * half }
    ensures { result ≡ (if nat_lt field half then pos field else negsuc (2 * half - 1 - field)) }
{
    if field < half {
        field as i32
    } else {
        field as i32 - 2 * half as i32
    }
}

#[inline(always)]
pub fn i_imm(word: u32) -> i32
    ensures { result ≡ i_imm word }
{
    signed(2048, bits(word, 31, 20))
}

#[inline(always)]
pub fn s_imm(word: u32) -> i32
    ensures { result ≡ s_imm word }
{
    signed(2048, bits(word, 31, 25) * 32 + bits(word, 11, 7))
}

#[inline(always)]
pub fn b_imm(word: u32) -> i32
    ensures { result ≡ b_imm word }
{
    signed(
        4096,
        bits(word, 31, 31) * 4096
            + bits(word, 7, 7) * 2048
            + bits(word, 30, 25) * 32
            + bits(word, 11, 8) * 2,
    )
}

#[inline(always)]
pub fn u_imm(word: u32) -> u32
    ensures { result ≡ u_imm word }
{
    bits(word, 31, 12)
}

#[inline(always)]
pub fn j_imm(word: u32) -> i32
    ensures { result ≡ j_imm word }
{
    signed(
        1_048_576,
        bits(word, 31, 31) * 1_048_576
            + bits(word, 19, 12) * 4096
            + bits(word, 20, 20) * 2048
            + bits(word, 30, 21) * 2,
    )
}
