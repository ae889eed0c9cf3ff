//! A program for the machine.

ghost use Rattle.std.specs.Prelude.{◌≡◌, length, slice_get, slice_index, IsTrue, IfOk, IfErr, IsOk, ◌↔◌, ◌&&◌, nat_lt};
ghost use Rattle.std.specs.List.{list_all};
ghost use Rattle.std.specs.Option.{option_copied};
ghost use Rattle.std.specs.Prelude.{All, IfSome};
ghost use Rattle.rv_isa.specs.Micro.{micros_of, IsNumbered};
ghost use Rattle.rv_isa.specs.Image.{are_counts, is_function, is_main, is_global, is_item, is_past, is_line, adjacent, are_rows, is_within, IsWithin};

use crate::micro::{Micro, micros_of};
use al_base::NoMemory;
use al_items::Items;
use std::alloc::Global;
use std::marker::Model;

/// A function: the index of its first word in the code, its slots, and its parameters in words.
#[derive(Clone, Copy, Debug, Drop, PartialEq, Eq)]
pub struct Row {
    pub entry: u32,
    pub slots: u32,
    pub words: u32,
}

/// A value that a global has at the start, in `size` bytes at `offset`. Bytes without one are 0.
#[derive(Clone, Copy, Debug, Drop, PartialEq, Eq)]
pub struct Item {
    pub global: u32,
    pub offset: u32,
    pub size: u8,
    pub value: u32,
}

/// From code word `word` on, up to the next such row, the code is that of a line of the text.
#[derive(Clone, Copy, Debug, Drop, PartialEq, Eq)]
pub struct LineRow {
    pub word: u32,
    pub line: u32,
}

/// What an image contains.
#[derive(Debug, Drop)]
pub struct Contents {
    pub code: Items<u32>,
    pub functions: Items<Row>,
    /// Sizes in bytes.
    pub globals: Items<u32>,
    /// Strictly ascending by global and offset.
    pub items: Items<Item>,
    /// Bytes of private globals of each proc.
    pub privates: u32,
    /// The function that proc 0 starts with.
    pub main: u32,
    /// Strictly ascending by word.
    pub lines: Items<LineRow>,
}

impl Contents {
    /// Whether the bounds of an image hold.
    pub fn is_within(&self) -> bool
        ensures { result ≡ is_within self.now }
    {
        are_counts(
            self.code.len(),
            self.functions.len(),
            self.globals.len(),
            self.items.len(),
            self.privates,
            self.main,
            self.lines.len(),
        ) && self.are_rows()
    }

    /// Whether the rows keep the bounds of an image.
    pub fn are_rows(&self) -> bool
        ensures { result ≡ are_rows self.now }
    {
        let code = self.code.len();
        let functions = are_functions(code, self.functions.as_slice());
        let main = is_main(self.functions.get(self.main as usize));
        let globals = are_globals(self.globals.as_slice());
        let items = are_items(self.globals.as_slice(), self.items.as_slice());
        let ascending = are_ascending(self.items.as_slice());
        let lines = are_lines(code, self.lines.as_slice());
        let ascending_lines = are_ascending_lines(self.lines.as_slice());
        functions && main && globals && items && ascending && lines && ascending_lines
    }
}

/// Whether the numbers of a header keep the bounds of an image.
pub fn are_counts(
    code: usize,
    functions: usize,
    globals: usize,
    items: usize,
    privates: u32,
    main: u32,
    lines: usize,
) -> bool
    ensures { result ≡ are_counts code functions globals items privates main lines }
{
    code >= 1
        && code <= 1 << 23
        && functions >= 1
        && functions <= 65_536
        && globals <= 65_536
        && items <= 1 << 21
        && privates % 4 == 0
        && privates <= 65_536
        && (main as usize) < functions
        && lines <= code
}

fn is_function(code: usize, row: &Row) -> bool
    ensures { result ≡ is_function code row.now }
{
    (row.entry as usize) < code && row.slots <= 16_384 && row.words <= 16_384
}

fn are_functions(code: usize, rows: &[Row]) -> bool
    ensures { result ≡ list_all (is_function code) rows.now }
{
    rows.iter().all(|row| is_function(code, row))
}

fn are_globals(sizes: &[u32]) -> bool
    ensures { result ≡ list_all is_global sizes.now }
{
    sizes.iter().all(|size| *size >= 1 && *size <= 1 << 28)
}

fn is_main(row: Option<&Row>) -> bool
    ensures { result ≡ is_main (option_copied row.entry) }
{
    match row {
        Some(row) => row.words == 0 || row.words == 2,
        None => false,
    }
}

fn is_item(globals: &[u32], item: &Item) -> bool
    ensures { result ≡ is_item globals.now item.now }
{
    let bits = match item.size {
        1 => 8,
        2 => 16,
        4 => 32,
        _ => return false,
    };
    match globals.get(item.global as usize) {
        Some(size) => {
            item.offset % item.size as u32 == 0
                && item.offset as u64 + item.size as u64 <= *size as u64
                && (item.value as u64) < 1 << bits
        }
        None => false,
    }
}

fn is_past(a: &Item, b: &Item) -> bool
    ensures { result ≡ is_past a.now b.now }
{
    a.global < b.global
        || a.global == b.global && a.offset as u64 + a.size as u64 <= b.offset as u64
}

fn are_items(globals: &[u32], items: &[Item]) -> bool
    ensures { result ≡ list_all (is_item globals.now) items.now }
{
    items.iter().all(|item| is_item(globals, item))
}

fn are_ascending(items: &[Item]) -> bool
    ensures { result ≡ list_all (λ pair. is_past pair.0 pair.1) (adjacent items.now) }
{
    items
        .iter()
        .zip(items.iter().skip(1))
        .all(|(a, b)| is_past(a, b))
}

fn is_line(code: usize, row: &LineRow) -> bool
    ensures { result ≡ is_line code row.now }
{
    (row.word as usize) < code && row.line >= 1 && row.line <= 1_048_577
}

fn are_lines(code: usize, rows: &[LineRow]) -> bool
    ensures { result ≡ list_all (is_line code) rows.now }
{
    rows.iter().all(|row| is_line(code, row))
}

fn are_ascending_lines(lines: &[LineRow]) -> bool
    ensures { result ≡ list_all (λ pair. nat_lt pair.0.word pair.1.word) (adjacent lines.now) }
{
    lines
        .iter()
        .zip(lines.iter().skip(1))
        .all(|(a, b)| a.word < b.word)
}

/// A program for the machine, whose contents keep the bounds. Once it is made ready it has its micro-operations beside its words.
#[derive(Debug, Drop)]
pub struct Image {
    contents: Contents,
    micros: Option<Items<Micro>>,
}

impl Model for Image {
    ghost use Rattle.rv_isa.specs.declared.image.Contents.{Contents};
    ghost use Rattle.rv_isa.specs.Image.{IsWithin};
    ghost use Rattle.rv_isa.specs.Micro.{IsReady};

    ghost Value = { Contents };

    ghost view = { λ image. image.contents };

    ghost invariant = { λ image. IsWithin image.contents × IsReady image.contents.code image.micros };
}

impl Image {
    /// An image, by a maker who knows the bounds.
    pub fn new(contents: Contents) -> Image
        requires { IsWithin contents }
        ensures { result ≡ contents }
    {
        Image {
            contents,
            micros: None,
        }
    }

    /// An image of contents that came from outside, or the contents where they are out of the bounds.
    pub fn check(contents: Contents) -> Result<Image, Contents>
        ensures within { IsOk result ↔ IsWithin contents }
        ensures image { IfOk result (λ image. image ≡ contents) }
        ensures refused { IfErr result (λ refused. refused ≡ contents) }
    {
        if contents.is_within() {
            Ok(Image::new(contents))
        } else {
            Err(contents)
        }
    }

    /// What the image contains.
    pub fn contents(&self) -> &Contents
        ensures value { result.now ≡ self.now }
        ensures within { IsWithin result.now }
    {
        &self.contents
    }

    /// Makes the image ready to run: its code is decoded here, and not again at each word that is fetched. Where there is no
    /// memory for that, it runs all the same, and more slowly.
    pub fn make_ready(&mut self, alloc: Global) -> Result<(), NoMemory>
        ensures { self.new ≡ self.old }
    {
        self.micros = Some(micros_of(alloc, self.contents.code.as_slice())?);
        Ok(())
    }

    /// The micro-operations of the code, one for each word, where the image was made ready.
    pub fn micros(&self) -> Option<&[Micro]>
        ensures all { IfSome result (λ micros. micros.now ≡ micros_of self.now.code) }
        ensures numbered { IfSome result (λ micros. All IsNumbered micros.now) }
    {
        match &self.micros {
            Some(micros) => Some(micros.as_slice()),
            None => None,
        }
    }

    /// What the image contained.
    pub fn into_contents(self) -> Contents
        ensures value { result ≡ self }
        ensures within { IsWithin result }
    {
        let Image { contents, .. } = self;
        contents
    }
}
