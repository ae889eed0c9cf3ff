// Copies of what holds memory.

ghost use Rattle.std.specs.Prelude.{◌≡◌, ◌++◌, [], ◌∷◌, IfOk, OnOk};

use al_base::NoMemory;
use al_event::{Branch, Start, Words};
use al_items::Items;
use std::alloc::Global;

/// The same words.
pub fn copy_words(alloc: Global, words: &Words) -> Result<Words, NoMemory>
    ensures { IfOk result (λ copy. copy ≡ words.now) }
{
    Items::from_slice(alloc, words.as_slice())
}

/// The same branch.
pub fn copy_branch(alloc: Global, branch: &Branch) -> Result<Branch, NoMemory>
    ensures { IfOk result (λ copy. copy ≡ branch.now) }
{
    let send = match &branch.send {
        Some(words) => Some(copy_words(alloc, words)?),
        None => None,
    };
    Ok(Branch {
        chan: branch.chan,
        words: branch.words,
        send,
    })
}

/// The same start.
pub fn copy_start(alloc: Global, start: &Start) -> Result<Start, NoMemory>
    ensures { IfOk result (λ copy. copy ≡ start.now) }
{
    let words = copy_words(alloc, &start.words)?;
    Ok(Start {
        code: start.code,
        words,
    })
}

/// Adds the same values.
fn add_values(alloc: Global, copy: &mut Items<Words>, values: &[Words]) -> Result<(), NoMemory>
    ensures { OnOk result (copy.new ≡ copy.old ++ values.now) }
{
    match values {
        [] => Ok(()),
        [words, rest @ ..] => {
            copy.push(copy_words(alloc, words)?)?;
            add_values(alloc, copy, rest)
        }
    }
}

/// The same values.
pub fn copy_values(alloc: Global, values: &[Words]) -> Result<Items<Words>, NoMemory>
    ensures { IfOk result (λ copy. copy ≡ values.now) }
{
    let mut copy = Items::new(alloc);
    add_values(alloc, &mut copy, values)?;
    Ok(copy)
}

/// A list of one element.
pub fn list_of_one<T: Drop>(alloc: Global, item: T) -> Result<Items<T>, NoMemory>
    ensures { IfOk result (λ list. list ≡ item ∷ []) }
{
    let mut list = Items::new(alloc);
    list.push(item)?;
    Ok(list)
}

/// A list of two elements.
pub fn list_of_two<T: Drop>(alloc: Global, first: T, second: T) -> Result<Items<T>, NoMemory>
    ensures { IfOk result (λ list. list ≡ first ∷ second ∷ []) }
{
    let mut list = list_of_one(alloc, first)?;
    list.push(second)?;
    Ok(list)
}
