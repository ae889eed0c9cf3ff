//! The text of all files.
ghost use Rattle.std.specs.Prelude.{◌≡◌, ◌++◌, ◌≤◌, length, IfOk, OnOk};
ghost use Rattle.al_link_text.specs.Items.{own_names};
ghost use Rattle.al_link_text.specs.Linked as spec;

use crate::file::File;
use crate::items::{is_type_item, own_count, own_names};
use crate::texts::Texts;
use crate::words::{item_text, push_words};
use al_base::NoMemory;
use al_lex::Token;
use al_tree::{Item, TypeNames};
use std::alloc::Global;

/// Whether it is a type item that is among those of earlier files.
fn is_repeated(
    alloc: Global,
    earlier: &Texts,
    file: &File,
    item: &Item,
    own: &[Token],
) -> Result<bool, NoMemory>
    ensures { IfOk result (λ r. r ≡ spec.is_repeated earlier.now file.now item.now own.now) }
{
    if !is_type_item(item) {
        return Ok(false);
    }
    let text = item_text(alloc, file, own)?;
    Ok(earlier.has(text.as_slice()))
}

fn push_item(
    alloc: Global,
    text: &mut Vec<u8>,
    earlier: &Texts,
    k: u32,
    file: &File,
    names: &TypeNames,
    item: &Item,
    own: &[Token],
) -> Result<(), NoMemory>
    requires { names.now ≡ own_names file.now.tree.items }
    ensures { OnOk result (text.new.items ≡ text.old.items ++ spec.linked_item earlier.now k file.now item.now own.now) }
{
    if is_repeated(alloc, earlier, file, item, own)? {
        return Ok(());
    }
    push_words(text, k, file, names, own)
}

/// Puts file k behind the text.
fn push_file(
    alloc: Global,
    text: &mut Vec<u8>,
    earlier: &Texts,
    k: u32,
    file: &File,
) -> Result<(), NoMemory>
    ensures { OnOk result (text.new.items ≡ text.old.items ++ spec.linked_file earlier.now k file.now) }
{
    let names = own_names(alloc, file.tree.items.as_slice())?;
    let items = file.tree.items.as_slice();
    let mut tokens = file.own_tokens();
    for at in 0..items.len() {
        let (own, rest) = tokens.split_at(own_count(&items[at + 1..], tokens));
        push_item(alloc, text, earlier, k, file, &names, &items[at], own)?;
        tokens = rest;
    }
    Ok(())
}

/// Adds an item to the texts, if it declares a type.
fn add_if_type(
    alloc: Global,
    texts: &mut Texts,
    file: &File,
    item: &Item,
    own: &[Token],
) -> Result<(), NoMemory>
    ensures { OnOk result (spec.Alike texts.new (texts.old ++ spec.type_text file.now item.now own.now)) }
{
    if is_type_item(item) {
        texts.add(item_text(alloc, file, own)?)?;
    }
    Ok(())
}

/// Adds the type items of a file to the texts.
fn add_types(alloc: Global, texts: &mut Texts, file: &File) -> Result<(), NoMemory>
    ensures { OnOk result (spec.Alike texts.new (texts.old ++ spec.type_texts file.now)) }
{
    let items = file.tree.items.as_slice();
    let mut tokens = file.own_tokens();
    for at in 0..items.len() {
        let (own, rest) = tokens.split_at(own_count(&items[at + 1..], tokens));
        add_if_type(alloc, texts, file, &items[at], own)?;
        tokens = rest;
    }
    Ok(())
}

/// The text of these files, which are numbered from 1.
pub fn linked(alloc: Global, files: &[File]) -> Result<Vec<u8>, NoMemory>
    requires { length files.now ≤ 64 }
    ensures { IfOk result (λ text. text.items ≡ spec.linked files.now) }
{
    let mut text = Vec::new(alloc);
    let mut earlier = Texts::new(alloc);
    let mut k = 1;
    for file in files {
        push_file(alloc, &mut text, &earlier, k, file)?;
        add_types(alloc, &mut earlier, file)?;
        k += 1;
    }
    Ok(text)
}
