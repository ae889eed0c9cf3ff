//! Texts with the tokens or the fault that they have.

use crate::tables::{FAULTS, STRINGS, TOKENS};
use al_lex::{LexStop, Token, TokenKind, lex, text_bytes};
use std::alloc::Global;
use std::process::Abort;
use std::test::Fail;

/// Appends what stands behind a backquote: a byte, and others that stand for themselves.
fn put(rt: &impl Abort, bytes: &mut Vec<u8>, part: &str) -> Result<(), Fail> {
    let Some((byte, rest)) = part.split_at_checked(2) else {
        panic!(rt; "no byte: {part}");
    };
    match u8::from_str_radix(byte, 16) {
        Ok(byte) => bytes.push(byte)?,
        Err(_) => panic!(rt; "no byte: {byte}"),
    }
    bytes.extend_from_slice(rest.as_bytes())?;
    Ok(())
}

/// The bytes of a text of a table.
fn bytes_of(rt: &impl Abort, alloc: Global, text: &str) -> Result<Vec<u8>, Fail> {
    let mut bytes = Vec::new(alloc);
    let mut is_first = true;
    for part in text.split('`') {
        if is_first {
            bytes.extend_from_slice(part.as_bytes())?;
        } else {
            put(rt, &mut bytes, part)?;
        }
        is_first = false;
    }
    Ok(bytes)
}

/// The text of a line, and what stands behind it.
fn row<'a>(rt: &impl Abort, alloc: Global, line: &'a str) -> Result<(Vec<u8>, &'a str), Fail> {
    let Some((text, want)) = line.split_once(" => ") else {
        panic!(rt; "no arrow: {line}");
    };
    let bytes = bytes_of(rt, alloc, text)?;
    assert!(rt; bytes.len() <= 1 << 20);
    Ok((bytes, want))
}

fn put_kind(alloc: Global, shown: &mut String, kind: TokenKind) -> Result<(), Fail> {
    if !shown.is_empty() {
        shown.push_str(" ")?;
    }
    shown.push_str(format!(in alloc; "{kind:?}")?.as_str())?;
    Ok(())
}

/// The kinds of tokens.
fn kinds(alloc: Global, tokens: &[Token]) -> Result<String, Fail> {
    let mut shown = String::new(alloc);
    for token in tokens {
        put_kind(alloc, &mut shown, token.kind)?;
    }
    Ok(shown)
}

fn has_tokens(rt: &impl Abort, alloc: Global, line: &str) -> Result<(), Fail> {
    let (text, want) = row(rt, alloc, line)?;
    assert!(rt; text.len() <= 1 << 20);
    let tokens = lex(alloc, &text)?;
    let shown = kinds(alloc, tokens.as_slice())?;
    assert_eq!(rt; shown.as_str(), want);
    Ok(())
}

fn has_fault(rt: &impl Abort, alloc: Global, line: &str) -> Result<(), Fail> {
    let (text, want) = row(rt, alloc, line)?;
    assert!(rt; text.len() <= 1 << 20);
    match lex(alloc, &text) {
        Err(LexStop::Fault(fault)) => {
            let (reason, byte) = (fault.reason, fault.byte);
            let shown = format!(in alloc; "{reason:?} {byte}")?;
            assert_eq!(rt; shown.as_str(), want, "{line}");
        }
        Err(LexStop::NoMemory) => panic!(rt; "no memory"),
        Ok(_) => panic!(rt; "no fault: {line}"),
    }
    Ok(())
}

#[test]
fn texts_have_these_tokens(rt: HostRuntime) -> Result<(), Fail> {
    for line in TOKENS.lines() {
        has_tokens(&rt, rt.alloc(), line)?;
    }
    Ok(())
}

#[test]
fn texts_have_these_faults(rt: HostRuntime) -> Result<(), Fail> {
    for line in FAULTS.lines() {
        has_fault(&rt, rt.alloc(), line)?;
    }
    Ok(())
}

fn has_bytes(rt: &impl Abort, alloc: Global, line: &str) -> Result<(), Fail> {
    let (text, want) = row(rt, alloc, line)?;
    let want = bytes_of(rt, alloc, want)?;
    let found = text_bytes(alloc, &text)?;
    assert_eq!(rt; found.as_slice(), want.as_slice(), "{line}");
    Ok(())
}

#[test]
fn strings_have_bytes(rt: HostRuntime) -> Result<(), Fail> {
    for line in STRINGS.lines() {
        has_bytes(&rt, rt.alloc(), line)?;
    }
    Ok(())
}
