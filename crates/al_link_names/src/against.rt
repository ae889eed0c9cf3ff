//! Names that type items of one file declare, and that stand in another file for something else.
ghost use Rattle.std.specs.Prelude.{◌≤◌, length};

use crate::at::At;
use crate::note::Note;
use crate::notes::{ItemNumbers, notes_of};
use al_base::{NoMemory, Place};
use al_items::Items;
use al_link_text::File;
use indexmap::IndexMap;
use std::alloc::Global;

/// Where the first name of a file stands against what the first file in which it stands says of it. What all earlier files
/// say of a name is the same.
fn first_against(
    earlier: &IndexMap<&[u8], Note>,
    names: &[Items<u8>],
    notes: &[Note],
) -> Option<Place> {
    for (name, note) in names.iter().zip(notes) {
        if let Some(known) = earlier.get(name.as_slice()) {
            if known.is_against(note) {
                return note.first;
            }
        }
    }
    None
}

/// Adds what a file says of names that no earlier file has.
fn add_new<'f>(
    earlier: &mut IndexMap<&'f [u8], Note>,
    names: &'f [Items<u8>],
    notes: Vec<Note>,
) -> Result<(), NoMemory> {
    for (name, note) in names.iter().zip(notes) {
        if !earlier.contains_key(name.as_slice()) {
            earlier.insert(name.as_slice(), note)?;
        }
    }
    Ok(())
}

/// Where the first name stands that type items of one of two files declare otherwise than those of the other, and the first
/// that an earlier file declares as a type and that stands here before the item that does so.
pub fn differs(alloc: Global, files: &[File]) -> Result<Option<At>, NoMemory>
    requires { length files.now ≤ 64 }
{
    let mut earlier = IndexMap::new(alloc);
    let mut numbers = ItemNumbers::new(alloc);
    let mut number = 1;
    for file in files {
        let notes = notes_of(alloc, &mut numbers, file)?;
        let names = file.tree.names.as_slice();
        if let Some(place) = first_against(&earlier, names, notes.as_slice()) {
            return Ok(Some(At {
                file: number,
                place,
            }));
        }
        add_new(&mut earlier, names, notes)?;
        number += 1;
    }
    Ok(None)
}
