ghost use Rattle.std.specs.Prelude.{◌≡◌, ◌+◌, ◌≤◌, ◌<◌, length, false};
ghost use Rattle.std.specs.List.{prefix_len};
ghost use Rattle.al_lex.specs.Bytes.{is_octal, is_hex};
ghost use Rattle.al_lex.specs.Scan.{is_escape_letter, octal_len, escape_len, closed, scan_char, string_from, scan_string, reach_of};

use crate::class::{first_is, hex_digits, is_plain, octal_digits};
use crate::fault::LexReason;
use crate::kind::{PieceKind, TokenKind};
use crate::scan::{Flaw, Found};

/// Where a string ends.
#[derive(Clone, Copy)]
pub(crate) enum StringEnd {
    /// How many bytes there are up to and with the quote that closes it.
    Closed(usize),
    Open,
    /// How many bytes there are before a `\` that begins no escape.
    WrongEscape(usize),
}

/// Whether the letter and a `\` before it are an escape.
pub(crate) fn is_escape_letter(b: u8) -> bool
    ensures { result ≡ is_escape_letter b }
{
    b"nrtbfav\\\"'".contains(&b)
}

/// How many octal digits an escape takes: as many as have a value up to 255.
fn octal_len(rest: &[u8]) -> usize
    ensures value { result ≡ octal_len rest.now }
    ensures within { result ≤ length rest.now }
{
    let digits = octal_digits(rest).min(3);
    if digits == 3 && rest[0] >= b'4' {
        2
    } else {
        digits
    }
}

/// How many bytes an escape takes behind its `\`. It is 0 where none begins.
pub(crate) fn escape_len(rest: &[u8]) -> usize
    ensures value { result ≡ escape_len rest.now }
    ensures within { result ≤ length rest.now }
{
    let [first, after @ ..] = rest else {
        return 0;
    };
    if is_escape_letter(*first) {
        1
    } else if *first == b'x' {
        let digits = hex_digits(after);
        if digits > 0 { 1 + digits.min(2) } else { 0 }
    } else {
        octal_len(rest)
    }
}

/// The constant whose byte takes `n` bytes, and ends before `rest`.
fn closed(n: usize, rest: &[u8]) -> Result<Found, Flaw>
    requires { n ≤ 8 }
    ensures { result ≡ closed n rest.now }
{
    if first_is(b'\'', rest) {
        Ok(Found {
            kind: PieceKind::Token(TokenKind::Char),
            len: n + 2,
        })
    } else {
        Err(Flaw {
            reason: LexReason::BadChar,
            offset: 0,
        })
    }
}

/// The character constant that begins the text.
pub(crate) fn scan_char(rest: &[u8]) -> Result<Found, Flaw>
    ensures { result ≡ scan_char rest.now }
{
    match rest {
        [_, b'\\', after @ ..] => match escape_len(after) {
            0 => Err(Flaw {
                reason: LexReason::BadEscape,
                offset: 1,
            }),
            n => closed(n + 1, &after[n..]),
        },
        [_, first, after @ ..] if is_plain(b'\'', *first) => closed(1, after),
        _ => Err(Flaw {
            reason: LexReason::BadChar,
            offset: 0,
        }),
    }
}

/// Where the string ends of which this is what stands behind its `"`.
fn string_end(rest: &[u8]) -> StringEnd
    ensures value { result ≡ string_from false rest.now }
    ensures within { reach_of result ≤ length rest.now }
{
    let mut at = 0;
    while at < rest.len() {
        let b = rest[at];
        if b == b'"' {
            return StringEnd::Closed(at + 1);
        }
        if b == b'\n' {
            return StringEnd::Open;
        }
        if b == b'\\' {
            if escape_len(&rest[at + 1..]) == 0 {
                return StringEnd::WrongEscape(at);
            }
            // The byte behind it may be a quote. Further bytes of the escape are digits.
            at += 2;
        } else {
            at += 1;
        }
    }
    StringEnd::Open
}

/// The string that begins the text.
pub(crate) fn scan_string(rest: &[u8]) -> Result<Found, Flaw>
    requires { 0 < length rest.now }
    ensures { result ≡ scan_string rest.now }
{
    match string_end(&rest[1..]) {
        StringEnd::Closed(n) => Ok(Found {
            kind: PieceKind::Token(TokenKind::Text),
            len: n + 1,
        }),
        StringEnd::Open => Err(Flaw {
            reason: LexReason::OpenString,
            offset: 0,
        }),
        StringEnd::WrongEscape(n) => Err(Flaw {
            reason: LexReason::BadEscape,
            offset: n + 1,
        }),
    }
}
