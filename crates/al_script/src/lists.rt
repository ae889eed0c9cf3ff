// Lists whose newest element stands first, and copies of controls.

ghost use Rattle.std.specs.Prelude.{◌≡◌, ◌∷◌, IfOk, slice_index};

use crate::script::Control;
use crate::world::Held;
use al_base::NoMemory;
use al_items::Items;
use al_script_book::{copy_values, copy_words, list_of_one};
use std::alloc::Global;

/// A list with one element more, in front of all others.
pub fn before<T: Drop>(alloc: Global, first: T, rest: Items<T>) -> Result<Items<T>, NoMemory>
    ensures { IfOk result (λ list. list ≡ first ∷ rest) }
{
    let mut list = list_of_one(alloc, first)?;
    list.append(rest)?;
    Ok(list)
}

/// The number at a place, 0 past the end.
pub fn word_in(words: &[u32], at: usize) -> u32
    ensures { result ≡ slice_index words.now at }
{
    if at < words.len() { words[at] } else { 0 }
}

/// The same control.
pub fn copy_control(alloc: Global, control: &Control) -> Result<Control, NoMemory>
    ensures { IfOk result (λ copy. copy ≡ control.now) }
{
    Ok(Control {
        code: control.code,
        arguments: copy_words(alloc, &control.arguments)?,
        answers: copy_values(alloc, control.answers.as_slice())?,
    })
}

/// The same state of a task.
pub fn copy_held(alloc: Global, held: &Held) -> Result<Held, NoMemory>
    ensures { IfOk result (λ copy. copy ≡ held.now) }
{
    match held {
        Held::Absent => Ok(Held::Absent),
        Held::Goes(control) => {
            let control = copy_control(alloc, control)?;
            Ok(Held::Goes(control))
        }
        Held::Waits(control) => {
            let control = copy_control(alloc, control)?;
            Ok(Held::Waits(control))
        }
    }
}
