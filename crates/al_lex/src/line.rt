//! Comments, and lines that are skipped.
ghost use Rattle.std.specs.Prelude.{◌≡◌, ◌+◌, ◌≤◌, ◌<◌, length, option_map, codes, IfSome};
ghost use Rattle.std.specs.Option.{option_copied};
ghost use Rattle.al_lex.specs.Bytes.{is_space, is_digit, is_in_line};
ghost use Rattle.al_lex.specs.Scan.{comment_end, scan_slash, behind, behind_some, behind_name, behind_line, behind_include, behind_origin, behind_directive, ends_line, scan_directive};

use crate::class::{digits, file_bytes, first_is, line_bytes, spaces};
use crate::fault::LexReason;
use crate::kind::PieceKind;
use crate::scan::{Flaw, Found};
use crate::spelling::scan_operator;

/// How many bytes there are up to the end of the next `*/`.
fn comment_end(rest: &[u8]) -> Option<usize>
    ensures value { result ≡ comment_end rest.now }
    ensures within { IfSome result (λ n. n ≤ length rest.now) }
{
    let mut at = 0;
    while at < rest.len() {
        let left = &rest[at..];
        if left.starts_with(b"*/") {
            return Some(at + 2);
        }
        at += 1;
    }
    None
}

/// The comment or operator that begins the text.
pub(crate) fn scan_slash(rest: &[u8]) -> Result<Found, Flaw>
    requires { 0 < length rest.now }
    ensures { result ≡ scan_slash rest.now }
{
    let after = &rest[1..];
    if first_is(b'/', after) {
        let len = line_bytes(rest);
        Ok(Found {
            kind: PieceKind::Comment,
            len,
        })
    } else if first_is(b'*', after) {
        match comment_end(&after[1..]) {
            Some(n) => Ok(Found {
                kind: PieceKind::Comment,
                len: n + 2,
            }),
            None => Err(Flaw {
                reason: LexReason::OpenComment,
                offset: 0,
            }),
        }
    } else {
        scan_operator(rest)
    }
}

/// What is left behind these bytes.
fn behind<'t>(bytes: &[u8], rest: &'t [u8]) -> Option<&'t [u8]>
    ensures value { option_copied result ≡ behind bytes.now rest.now }
    ensures shorter { IfSome result (λ after. length after.now ≤ length rest.now) }
{
    if rest.starts_with(bytes) {
        Some(&rest[bytes.len()..])
    } else {
        None
    }
}

/// What is left behind the spaces, of which there is at least one.
fn behind_spaces(rest: &[u8]) -> Option<&[u8]>
    ensures value { option_copied result ≡ behind_some is_space rest.now }
    ensures shorter { IfSome result (λ after. length after.now ≤ length rest.now) }
{
    let n = spaces(rest);
    if n > 0 { Some(&rest[n..]) } else { None }
}

/// What is left behind the digits, of which there is at least one.
fn behind_digits(rest: &[u8]) -> Option<&[u8]>
    ensures value { option_copied result ≡ behind_some is_digit rest.now }
    ensures shorter { IfSome result (λ after. length after.now ≤ length rest.now) }
{
    let n = digits(rest);
    if n > 0 { Some(&rest[n..]) } else { None }
}

/// What is left behind a name in quotes.
fn behind_name(rest: &[u8]) -> Option<&[u8]>
    ensures value { option_copied result ≡ behind_name rest.now }
    ensures shorter { IfSome result (λ after. length after.now ≤ length rest.now) }
{
    if !first_is(b'"', rest) {
        return None;
    }
    let n = file_bytes(&rest[1..]);
    let after = &rest[1 + n..];
    if first_is(b'"', after) {
        Some(&after[1..])
    } else {
        None
    }
}

/// What is left behind the spaces, if the line ends there.
fn behind_line(rest: &[u8]) -> Option<&[u8]>
    ensures value { option_copied result ≡ behind_line rest.now }
    ensures shorter { IfSome result (λ after. length after.now ≤ length rest.now) }
{
    let n = spaces(rest);
    match &rest[n..] {
        [] => Some(&rest[n..]),
        [first, ..] if *first == b'\n' => Some(&rest[n..]),
        _ => None,
    }
}

/// What is left behind `#include <alef.h>`.
#[tactic(auto, unfolding(crate::specs::Scan::behind_include))]
fn behind_include(rest: &[u8]) -> Option<&[u8]>
    ensures value { option_copied result ≡ behind_include rest.now }
    ensures shorter { IfSome result (λ after. length after.now ≤ length rest.now) }
{
    let rest = behind(b"#include", rest)?;
    let rest = behind_spaces(rest)?;
    let rest = behind(b"<alef.h>", rest)?;
    behind_line(rest)
}

/// What is left behind the words `head N "name"`.
#[tactic(auto, unfolding(crate::specs::Scan::behind_origin))]
fn behind_origin<'t>(head: &[u8], rest: &'t [u8]) -> Option<&'t [u8]>
    ensures value { option_copied result ≡ behind_origin head.now rest.now }
    ensures shorter { IfSome result (λ after. length after.now ≤ length rest.now) }
{
    let rest = behind(head, rest)?;
    let rest = behind_spaces(rest)?;
    let rest = behind_digits(rest)?;
    let rest = behind_spaces(rest)?;
    let rest = behind_name(rest)?;
    behind_line(rest)
}

/// What is left behind the part that a skipped line has from its `#` on.
fn behind_directive(rest: &[u8]) -> Option<&[u8]>
    ensures value { option_copied result ≡ behind_directive rest.now }
    ensures shorter { IfSome result (λ after. length after.now ≤ length rest.now) }
{
    if let Some(after) = behind_include(rest) {
        return Some(after);
    }
    if let Some(after) = behind_origin(b"#line", rest) {
        return Some(after);
    }
    behind_origin(b"#", rest)
}

/// The rest of a skipped line, where only spaces and tabs stand before it.
pub(crate) fn scan_directive(fresh: bool, rest: &[u8]) -> Result<Found, Flaw>
    ensures { result ≡ scan_directive fresh rest.now }
{
    if fresh && let Some(after) = behind_directive(rest) {
        Ok(Found {
            kind: PieceKind::Skipped,
            len: rest.len() - after.len(),
        })
    } else {
        Err(Flaw {
            reason: LexReason::BadChar,
            offset: 0,
        })
    }
}
