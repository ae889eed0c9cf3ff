//! The bytes that character constants stand for.
ghost use Rattle.std.specs.Prelude.{◌≡◌, ℕ, length};
ghost use Rattle.al_lex.specs.Scan.{fitting, letter_byte, small_byte, escape_byte, constant_byte};
ghost use Rattle.al_lex.specs.Bytes.{value_of, is_hex};
ghost use Rattle.al_lex.specs.Values.{IsConstant, byte_of};

use crate::class::{hex_digits, octal_digits};
use crate::number::value;
use crate::string::is_escape_letter;

/// The byte that an escape of one letter stands for.
fn letter_byte(b: u8) -> u8
    ensures { result ≡ letter_byte b }
{
    match b {
        b'n' => b'\n',
        b'r' => b'\r',
        b't' => b'\t',
        b'b' => 8,
        b'f' => 12,
        b'a' => 7,
        b'v' => 11,
        other => other,
    }
}

/// The value of a number of 64 bits where it is that of a byte.
fn small_byte(value: Option<u64>) -> u8
    ensures { (v : ℕ) → value ≡ fitting v → result ≡ small_byte v }
{
    match value {
        Some(v) if v < 256 => v as u8,
        _ => 0,
    }
}

/// The byte that the escape behind a `\` stands for.
pub(crate) fn escape_byte(rest: &[u8]) -> u8
    ensures { result ≡ escape_byte rest.now }
{
    let [first, after @ ..] = rest else {
        return 0;
    };
    if is_escape_letter(*first) {
        letter_byte(*first)
    } else if *first == b'x' {
        let n = hex_digits(after);
        small_byte(value(16, &after[..n]))
    } else {
        let n = octal_digits(rest);
        small_byte(value(8, &rest[..n]))
    }
}

fn constant_byte(rest: &[u8]) -> u8
    ensures { result ≡ constant_byte rest.now }
{
    match rest {
        [] => 0,
        [b'\\', after @ ..] => escape_byte(after),
        [first, ..] => *first,
    }
}

/// The byte that a character constant stands for.
pub fn char_value(bytes: &[u8]) -> u8
    ensures value { (v : ℕ) → IsConstant bytes.now v → result ≡ v }
    ensures computed { result ≡ byte_of bytes.now }
{
    match bytes {
        [] => 0,
        [_, inside @ ..] => constant_byte(inside),
    }
}
