//! What a file says of its names.
use crate::note::Note;
use al_base::NoMemory;
use al_lex::{Token, TokenKind};
use al_link_text::{File, is_type_item, item_text, own_count};
use al_tree::{Constant, Item};
use indexmap::IndexSet;
use std::alloc::Global;

/// The numbers of the type items of all files: items that are the same have the same number.
#[derive(Drop)]
pub(crate) struct ItemNumbers {
    texts: IndexSet<Vec<u8>>,
}

impl ItemNumbers {
    pub(crate) fn new(alloc: Global) -> ItemNumbers {
        ItemNumbers {
            texts: IndexSet::new(alloc),
        }
    }

    fn number(&mut self, text: Vec<u8>) -> Result<usize, NoMemory> {
        let (number, _) = self.texts.insert_full(text)?;
        Ok(number)
    }
}

/// The item of that number declares the name.
fn declare(notes: &mut [Note], name: u32, item: usize, is_type: bool) -> Result<(), NoMemory> {
    match notes.get_mut(name as usize) {
        Some(note) => note.declare(item, is_type),
        None => Ok(()),
    }
}

fn declare_constants(
    notes: &mut [Note],
    constants: &[Constant],
    number: usize,
) -> Result<(), NoMemory> {
    for constant in constants {
        declare(notes, constant.name.name, number, false)?;
    }
    Ok(())
}

/// Notes what an item of that number declares.
fn declare_item(notes: &mut [Note], item: &Item, number: usize) -> Result<(), NoMemory> {
    match item {
        Item::Typedef { dcl, .. } => declare(notes, dcl.name.name, number, true),
        Item::FunctionType { name, .. }
        | Item::Forward { name, .. }
        | Item::Aggregate { name, .. }
        | Item::Adt { name, .. } => declare(notes, name.name, number, true),
        Item::Enum {
            name,
            constants,
            ..
        } => {
            if let Some(name) = name {
                declare(notes, name.name, number, true)?;
            }
            declare_constants(notes, constants.as_slice(), number)
        }
        Item::Declare { .. } | Item::Function { .. } => Ok(()),
    }
}

/// Notes where names stand.
fn stand(notes: &mut [Note], own: &[Token]) {
    for t in own {
        if t.kind == TokenKind::Name {
            if let Some(note) = notes.get_mut(t.name as usize) {
                note.stand(t.place);
            }
        }
    }
}

/// One note for each name.
fn blank(alloc: Global, count: usize) -> Result<Vec<Note>, NoMemory> {
    let mut notes = Vec::with_capacity(alloc, count)?;
    for _ in 0..count {
        notes.push(Note::new(alloc))?;
    }
    Ok(notes)
}

fn note_item(
    alloc: Global,
    notes: &mut [Note],
    numbers: &mut ItemNumbers,
    file: &File,
    item: &Item,
    own: &[Token],
) -> Result<(), NoMemory> {
    if is_type_item(item) {
        let number = numbers.number(item_text(alloc, file, own)?)?;
        declare_item(notes, item, number)?;
    }
    stand(notes, own);
    Ok(())
}

/// What a file says of its names, by their numbers.
pub(crate) fn notes_of(
    alloc: Global,
    numbers: &mut ItemNumbers,
    file: &File,
) -> Result<Vec<Note>, NoMemory> {
    let mut notes = blank(alloc, file.tree.names.len())?;
    let items = file.tree.items.as_slice();
    let mut tokens = file.own_tokens();
    for at in 0..items.len() {
        let (own, rest) = tokens.split_at(own_count(&items[at + 1..], tokens));
        note_item(alloc, notes.as_mut_slice(), numbers, file, &items[at], own)?;
        tokens = rest;
    }
    Ok(notes)
}
