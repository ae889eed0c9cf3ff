//! Numbers in tables that are texts: they are read when the test runs, and so cost no proof.

use al_base::NoMemory;
use std::alloc::Global;
use std::process::Abort;

/// A hexadecimal number of 32 bits.
pub fn word(rt: &impl Abort, text: &str) -> u32 {
    match u32::from_str_radix(text, 16) {
        Ok(word) => word,
        Err(_) => panic!(rt; "no word: {text}"),
    }
}

/// A hexadecimal number of 64 bits.
pub fn long(rt: &impl Abort, text: &str) -> u64 {
    match u64::from_str_radix(text, 16) {
        Ok(number) => number,
        Err(_) => panic!(rt; "no number: {text}"),
    }
}

/// A decimal number.
pub fn decimal(rt: &impl Abort, text: &str) -> u64 {
    match u64::from_str_radix(text, 10) {
        Ok(number) => number,
        Err(_) => panic!(rt; "no number: {text}"),
    }
}

/// Words with one space between them.
pub fn words_of(rt: &impl Abort, alloc: Global, text: &str) -> Result<Vec<u32>, NoMemory> {
    let mut words = Vec::new(alloc);
    for part in text.split(' ') {
        words.push(word(rt, part))?;
    }
    Ok(words)
}

/// What stands before the first space, and behind it.
pub fn parts<'a>(rt: &impl Abort, line: &'a str) -> (&'a str, &'a str) {
    match line.split_once(' ') {
        Some(parts) => parts,
        None => panic!(rt; "a line without a space: {line}"),
    }
}

/// What stands before the first bar, and behind it.
pub fn halves<'a>(rt: &impl Abort, line: &'a str) -> (&'a str, &'a str) {
    match line.split_once(" | ") {
        Some(halves) => halves,
        None => panic!(rt; "a line without a bar: {line}"),
    }
}

/// The words that lines begin with.
pub fn code_of(rt: &impl Abort, alloc: Global, lines: &str) -> Result<Vec<u32>, NoMemory> {
    let mut code = Vec::new(alloc);
    for line in lines.lines() {
        code.push(word(rt, parts(rt, line).0))?;
    }
    Ok(code)
}

/// Appends words, low byte first.
pub fn put(bytes: &mut Vec<u8>, words: &[u32]) -> Result<(), NoMemory> {
    for word in words {
        bytes.extend_from_slice(&word.to_le_bytes())?;
    }
    Ok(())
}
