//! Globals and strings, with what they start with.
ghost use Rattle.std.specs.Prelude.{◌≡◌, ◌++◌, filter, map, IfOk, OnOk, length};
ghost use Rattle.al_typed.specs.Layout.{IsLaidOut};
ghost use Rattle.al_meaning.specs.Places as places;
ghost use Rattle.al_lower_code.specs.Functions as spec;
ghost use Rattle.al_lower.specs.Texts.{ArePlaces};

use crate::texts::{text_at, text_places};
use al_base::NoMemory;
use al_ir::{Global, StartItem};
use al_items::Items;
use al_lower_base::{slot_behind, some};
use al_typed::{Global as GlobalRow, Program, StartValue, StartWord, room_of};
use al_variables::{few_words, word_of};
use std::alloc::Global as Memory;

/// The word that a unit of a global starts with.
fn start_word(p: &Program, texts: &[u64], word: StartWord) -> Result<u32, NoMemory>
    requires { ArePlaces p.now texts.now }
    ensures { IfOk result (λ n. n ≡ places.start_number p.now word) }
{
    match word {
        StartWord::Number(number) => Ok(number),
        StartWord::Text(number) => some(word_of(text_at(p, texts, number))),
    }
}

fn start_item(p: &Program, texts: &[u64], start: StartValue) -> Result<StartItem, NoMemory>
    requires { ArePlaces p.now texts.now }
    ensures { IfOk result (λ item. item ≡ spec.start_item p.now start) }
{
    let word = start_word(p, texts, start.word)?;
    Ok(StartItem {
        at: start.at,
        size: start.size,
        word,
    })
}

fn start_items(
    alloc: Memory,
    p: &Program,
    texts: &[u64],
    starts: &[StartValue],
) -> Result<Items<StartItem>, NoMemory>
    requires { ArePlaces p.now texts.now }
    ensures { IfOk result (λ items. items ≡ map (spec.start_item p.now) starts.now) }
{
    let mut items = Items::with_capacity(alloc, starts.len())?;
    for start in starts {
        items.push(start_item(p, texts, *start)?)?;
    }
    Ok(items)
}

/// A global that all procs share.
fn shared_global(
    alloc: Memory,
    p: &Program,
    texts: &[u64],
    global: &GlobalRow,
) -> Result<Global, NoMemory>
    requires laid_out { IsLaidOut p.now.aggregates }
    requires texts { ArePlaces p.now texts.now }
    ensures { IfOk result (λ g. g ≡ spec.shared_global p.now global.now) }
{
    let bytes = some(word_of(room_of(p.aggregates.as_slice(), &global.ty).size))?;
    let start = start_items(alloc, p, texts, global.start.as_slice())?;
    Ok(Global { bytes, start })
}

/// A byte for each of a string's.
fn byte_items(alloc: Memory, bytes: &[u8]) -> Result<Items<StartItem>, NoMemory>
    ensures { IfOk result (λ items. items ≡ spec.byte_items 0 bytes.now) }
{
    let mut items = Items::with_capacity(alloc, bytes.len())?;
    let mut at: u32 = 0;
    for byte in bytes {
        items.push(StartItem {
            at,
            size: 1,
            word: u32::from(*byte),
        })?;
        at = slot_behind(at, 1)?;
    }
    Ok(items)
}

/// A string with a 0 behind it.
fn string_global(alloc: Memory, bytes: &[u8]) -> Result<Global, NoMemory>
    ensures { IfOk result (λ g. g ≡ spec.string_global bytes.now) }
{
    let count = some(word_of(bytes.len() as u64))?;
    let start = byte_items(alloc, bytes)?;
    Ok(Global {
        bytes: slot_behind(count, 1)?,
        start,
    })
}

/// Adds the shared ones of these globals.
fn add_shared(
    alloc: Memory,
    p: &Program,
    texts: &[u64],
    rows: &[GlobalRow],
    globals: &mut Items<Global>,
) -> Result<(), NoMemory>
    requires laid_out { IsLaidOut p.now.aggregates }
    requires texts { ArePlaces p.now texts.now }
    ensures { OnOk result (globals.new ≡ globals.old ++ map (spec.shared_global p.now) (filter places.is_shared_global rows.now)) }
{
    for row in rows {
        if !row.is_private {
            globals.push(shared_global(alloc, p, texts, row)?)?;
        }
    }
    Ok(())
}

/// Adds strings.
fn add_strings(
    alloc: Memory,
    strings: &[Items<u8>],
    globals: &mut Items<Global>,
) -> Result<(), NoMemory>
    ensures { OnOk result (globals.new ≡ globals.old ++ map spec.string_global strings.now) }
{
    for string in strings {
        globals.push(string_global(alloc, string.as_slice())?)?;
    }
    Ok(())
}

/// The blocks at the start: the shared globals, and then the strings.
pub fn globals(alloc: Memory, p: &Program) -> Result<Items<Global>, NoMemory>
    requires { IsLaidOut p.now.aggregates }
    ensures { IfOk result (λ globals. globals ≡ spec.globals p.now) }
{
    let texts = text_places(alloc, p)?;
    let mut globals = Items::new(alloc);
    add_shared(
        alloc,
        p,
        texts.as_slice(),
        p.globals.as_slice(),
        &mut globals,
    )?;
    add_strings(alloc, p.strings.as_slice(), &mut globals)?;
    Ok(globals)
}

/// The words that a global takes in each proc. A shared one takes none.
fn private_words(p: &Program, global: &GlobalRow) -> Result<u32, NoMemory>
    requires { IsLaidOut p.now.aggregates }
    ensures { IfOk result (λ n. n ≡ places.private_words_of p.now global.now) }
{
    if !global.is_private {
        return Ok(0);
    }
    some(few_words(p.aggregates.as_slice(), &global.ty))
}

/// The words of all private globals.
pub fn privates(p: &Program) -> Result<u32, NoMemory>
    requires { IsLaidOut p.now.aggregates }
    ensures { IfOk result (λ n. n ≡ places.private_place p.now (length p.now.globals)) }
{
    let mut place: u32 = 0;
    for global in p.globals.as_slice() {
        place = slot_behind(place, private_words(p, global)?)?;
    }
    Ok(place)
}
