//! Tables that are texts: they are read when the test runs, and so cost no proof.

use al_base::NoMemory;
use rv_image::{ImageStop, read};
use rv_isa::image::Image;
use std::alloc::Global;
use std::process::Abort;

/// What was made, where something else is let go, whose type is not looked into here.
pub fn kept<T, U: Drop>(it: T, _other: U) -> T {
    it
}

/// What stands before the first bar, and behind it.
pub fn halves<'a>(rt: &impl Abort, line: &'a str) -> (&'a str, &'a str) {
    match line.split_once(" | ") {
        Some(halves) => halves,
        None => panic!(rt; "a line without a bar: {line}"),
    }
}

/// What stands before the first space, and behind it.
pub fn parts<'a>(rt: &impl Abort, line: &'a str) -> (&'a str, &'a str) {
    match line.split_once(' ') {
        Some(parts) => parts,
        None => panic!(rt; "a line without a space: {line}"),
    }
}

/// A decimal number.
pub fn number(rt: &impl Abort, text: &str) -> u32 {
    match u32::from_str_radix(text, 10) {
        Ok(number) => number,
        Err(_) => panic!(rt; "no number: {text}"),
    }
}

/// Decimal numbers with one space between them.
pub fn numbers(rt: &impl Abort, alloc: Global, text: &str) -> Result<Vec<u32>, NoMemory> {
    let mut numbers = Vec::new(alloc);
    for part in text.split(' ') {
        numbers.push(number(rt, part))?;
    }
    Ok(numbers)
}

/// Procs, each as often as the number behind an `x` says.
pub fn procs(rt: &impl Abort, alloc: Global, text: &str) -> Result<Vec<u32>, NoMemory> {
    let mut procs = Vec::new(alloc);
    for part in text.split(' ') {
        let (proc, count) = part.split_once('x').unwrap_or((part, "1"));
        for _ in 0..number(rt, count) {
            procs.push(number(rt, proc))?;
        }
    }
    Ok(procs)
}

/// Appends the hexadecimal words of a line, low byte first.
fn put(rt: &impl Abort, bytes: &mut Vec<u8>, words: &str) -> Result<(), NoMemory> {
    for word in words.split(' ') {
        match u32::from_str_radix(word, 16) {
            Ok(word) => bytes.extend_from_slice(&word.to_le_bytes())?,
            Err(_) => panic!(rt; "no word: {word}"),
        }
    }
    Ok(())
}

fn bytes_of(rt: &impl Abort, alloc: Global, lines: &str) -> Result<Vec<u8>, NoMemory> {
    let mut bytes = Vec::new(alloc);
    for line in lines.lines() {
        if !line.starts_with('#') {
            put(rt, &mut bytes, halves(rt, line).0)?;
        }
    }
    Ok(bytes)
}

/// The lines of a program's image, and those of what comes of it.
pub fn sections<'a>(rt: &impl Abort, program: &'a str) -> (&'a str, &'a str) {
    match program.split_once("\nthen\n") {
        Some(sections) => sections,
        None => panic!(rt; "nothing comes of it: {program}"),
    }
}

/// The image of a program.
pub fn image_of(rt: &impl Abort, alloc: Global, program: &str) -> Result<Image, NoMemory> {
    let bytes = bytes_of(rt, alloc, sections(rt, program).0)?;
    match read(alloc, &bytes) {
        Ok(image) => Ok(image),
        Err(ImageStop::Fault(fault)) => panic!(rt; "{fault:?}: {program}"),
        Err(ImageStop::NoMemory) => Err(NoMemory),
    }
}
