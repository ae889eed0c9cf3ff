ghost use Rattle.std.specs.Prelude.{◌≡◌, ◌+◌, ◌*◌, ◌≤◌, ◌<◌, ◌^◌, length, IfOk, IsTrue, Ok};
ghost use Rattle.rv_isa.specs.declared.image.Contents.{Contents};
ghost use Rattle.rv_isa.specs.Image.{are_rows};
ghost use Rattle.rv_image.specs.Spelling.{IsImage};
ghost use Rattle.rv_image.specs.Reading.{number_at, numbers_of, functions_of, items_of, lines_of, size_from, contents_of, contents_from, size_of, reading, has_counts, Gives};

use crate::fault::{ImageFault, ImageStop};
use crate::header::{Header, header_of, number_at};
use al_base::NoMemory;
use al_items::Items;
use rv_isa::image::{Contents, Image, Item, LineRow, Row};
use std::alloc::Global;

/// The image that the bytes are, in either version, or the first thing that is wrong with them.
pub fn read(alloc: Global, bytes: &[u8]) -> Result<Image, ImageStop>
    // What is read is an image, whose spelling the bytes are.
    ensures found { IfOk result (λ image. IsImage bytes.now image) }
    // An image's bytes are read as that image, unless memory runs out.
    ensures only { (c : Contents) → IsImage bytes.now c → Gives result (Ok c) }
    // Which fault it is.
    ensures exact { Gives result (reading bytes.now) }
{
    all(alloc, bytes)
}

fn all(alloc: Global, bytes: &[u8]) -> Result<Image, ImageStop>
    ensures { Gives result (reading bytes.now) }
{
    let header = header_of(bytes)?;
    contents_of(alloc, bytes, &header)
}

#[tactic(auto, unfolding(crate::specs::Reading::contents_of))]
fn contents_of(alloc: Global, bytes: &[u8], header: &Header) -> Result<Image, ImageStop>
    requires { IsTrue (has_counts header.now) }
    ensures { Gives result (contents_of bytes.now header.now) }
{
    let size = 4 * header.size();
    if bytes.len() < size {
        return Err(ImageStop::Fault(ImageFault::Short));
    }
    let contents = contents_from(alloc, bytes, header)?;
    if !contents.are_rows() {
        return Err(ImageStop::Fault(ImageFault::Count));
    }
    if size < bytes.len() {
        return Err(ImageStop::Fault(ImageFault::Extra));
    }
    Ok(Image::new(contents))
}

fn contents_from(alloc: Global, bytes: &[u8], header: &Header) -> Result<Contents, NoMemory>
    requires { 4 * size_of header.now ≤ length bytes.now }
    ensures { IfOk result (λ contents. contents ≡ contents_from (number_at bytes.now) header.now) }
{
    Ok(Contents {
        code: numbers_of(alloc, bytes, header.code_begins(), header.code)?,
        functions: functions_of(alloc, bytes, header.functions_begin(), header.functions)?,
        globals: numbers_of(alloc, bytes, header.globals_begin(), header.globals)?,
        items: items_of(alloc, bytes, header.items_begin(), header.items)?,
        privates: header.privates,
        main: header.main,
        lines: lines_of(alloc, bytes, header.lines_begin(), header.lines)?,
    })
}

fn numbers_of(alloc: Global, bytes: &[u8], begin: usize, count: u32) -> Result<Items<u32>, NoMemory>
    requires begin { begin ≤ 2 ^ 38 }
    requires room { 4 * (begin + count) ≤ length bytes.now }
    ensures { IfOk result (λ numbers. numbers ≡ numbers_of (number_at bytes.now) begin count) }
{
    let mut numbers = Items::new(alloc);
    for k in 0..count {
        numbers.push(number_at(bytes, begin + k as usize))?;
    }
    Ok(numbers)
}

fn functions_of(
    alloc: Global,
    bytes: &[u8],
    begin: usize,
    count: u32,
) -> Result<Items<Row>, NoMemory>
    requires begin { begin ≤ 2 ^ 38 }
    requires room { 4 * (begin + 3 * count) ≤ length bytes.now }
    ensures { IfOk result (λ rows. rows ≡ functions_of (number_at bytes.now) begin count) }
{
    let mut rows = Items::new(alloc);
    for k in 0..count {
        let at = begin + 3 * k as usize;
        rows.push(Row {
            entry: number_at(bytes, at),
            slots: number_at(bytes, at + 1),
            words: number_at(bytes, at + 2),
        })?;
    }
    Ok(rows)
}

fn items_of(alloc: Global, bytes: &[u8], begin: usize, count: u32) -> Result<Items<Item>, NoMemory>
    requires begin { begin ≤ 2 ^ 38 }
    requires room { 4 * (begin + 4 * count) ≤ length bytes.now }
    ensures { IfOk result (λ items. items ≡ items_of (number_at bytes.now) begin count) }
{
    let mut items = Items::new(alloc);
    for k in 0..count {
        let at = begin + 4 * k as usize;
        items.push(Item {
            global: number_at(bytes, at),
            offset: number_at(bytes, at + 1),
            size: size_from(number_at(bytes, at + 2)),
            value: number_at(bytes, at + 3),
        })?;
    }
    Ok(items)
}

/// The size of an item. One that is no byte is 0, which the bounds refuse too.
fn size_from(number: u32) -> u8
    ensures { result ≡ size_from number }
{
    if number < 256 { number as u8 } else { 0 }
}

fn lines_of(
    alloc: Global,
    bytes: &[u8],
    begin: usize,
    count: u32,
) -> Result<Items<LineRow>, NoMemory>
    requires begin { begin ≤ 2 ^ 38 }
    requires room { 4 * (begin + 2 * count) ≤ length bytes.now }
    ensures { IfOk result (λ rows. rows ≡ lines_of (number_at bytes.now) begin count) }
{
    let mut rows = Items::new(alloc);
    for k in 0..count {
        let at = begin + 2 * k as usize;
        rows.push(LineRow {
            word: number_at(bytes, at),
            line: number_at(bytes, at + 1),
        })?;
    }
    Ok(rows)
}
