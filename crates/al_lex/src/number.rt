ghost use Rattle.std.specs.Prelude.{◌≡◌, ℕ, ◌+◌, ◌<◌, ◌≤◌, length, true};
ghost use Rattle.std.specs.List.{list_all, prefix_len};
ghost use Rattle.al_lex.specs.Bytes.{is_hex, is_octal, is_digit, digit_value, value_of};
ghost use Rattle.al_lex.specs.Pieces.{IsNumber};
ghost use Rattle.al_lex.specs.Values.{kind_of_value, number_of};
ghost use Rattle.al_lex.specs.Scan.{numeral, scan_number, fitting};

use crate::class::{digits, first_is, hex_digits, octal_digits};
use crate::fault::LexReason;
use crate::kind::{PieceKind, TokenKind};
use crate::scan::{Flaw, Found};
use al_base::Kind;

/// A number as written.
#[derive(Clone, Copy)]
pub(crate) struct Numeral<'t> {
    pub(crate) base: u64,
    /// The digits, without the `0x` of a hexadecimal number.
    pub(crate) digits: &'t [u8],
    /// How many bytes the number takes.
    pub(crate) len: usize,
}

/// The number that begins the text.
pub(crate) fn leading_numeral(rest: &[u8]) -> Numeral<'_>
    ensures base { result.base ≡ (numeral rest.now).0 }
    ensures digits { result.digits.now ≡ (numeral rest.now).1 }
    ensures len { result.len ≡ (numeral rest.now).2 }
{
    if rest.starts_with(b"0x") {
        let after = &rest[2..];
        let n = hex_digits(after);
        if n > 0 {
            return Numeral {
                base: 16,
                digits: &after[..n],
                len: 2 + n,
            };
        }
    }
    if first_is(b'0', rest) {
        let n = octal_digits(rest);
        Numeral {
            base: 8,
            digits: &rest[..n],
            len: n,
        }
    } else {
        let n = digits(rest);
        Numeral {
            base: 10,
            digits: &rest[..n],
            len: n,
        }
    }
}

fn digit_value(b: u8) -> u64
    requires { is_hex b ≡ true }
    ensures value { result ≡ digit_value b }
    ensures bound { result < 16 }
{
    if b <= b'9' {
        (b - b'0') as u64
    } else if b <= b'F' {
        (b - b'A') as u64 + 10
    } else {
        (b - b'a') as u64 + 10
    }
}

/// The value of digits to a base, if it is below 2^64.
pub(crate) fn value(base: u64, digits: &[u8]) -> Option<u64>
    requires base { 1 ≤ base }
    requires digits { list_all is_hex digits.now ≡ true }
    ensures { result ≡ fitting (value_of base digits.now) }
{
    let mut value = 0u64;
    for b in digits {
        value = value.checked_mul(base)?.checked_add(digit_value(*b))?;
    }
    Some(value)
}

/// The number that begins the text.
pub(crate) fn scan_number(rest: &[u8]) -> Result<Found, Flaw>
    ensures { result ≡ scan_number rest.now }
{
    let number = leading_numeral(rest);
    match value(number.base, number.digits) {
        Some(_) => Ok(Found {
            kind: PieceKind::Token(TokenKind::Number),
            len: number.len,
        }),
        None => Err(Flaw {
            reason: LexReason::NumberTooBig,
            offset: 0,
        }),
    }
}

/// The value of a number as written, if it is below 2^64.
pub fn number_value(bytes: &[u8]) -> Option<u64>
    ensures value { (v : ℕ) → IsNumber bytes.now v → result ≡ fitting v }
    ensures computed { result ≡ number_of bytes.now }
{
    let number = leading_numeral(bytes);
    value(number.base, number.digits)
}

/// The type of a number of this value: the first of int, uint, lint and ulint that has it.
pub fn number_kind(value: u64) -> Kind
    ensures { result ≡ kind_of_value value }
{
    if value < 1 << 31 {
        Kind::Int
    } else if value < 1 << 32 {
        Kind::Uint
    } else if value < 1 << 63 {
        Kind::Lint
    } else {
        Kind::Ulint
    }
}
