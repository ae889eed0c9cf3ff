//! The string constants of a function that have blocks.
ghost use Rattle.std.specs.Prelude.{◌≡◌, ◌++◌, ◌+◌, map, IfOk, OnOk};
ghost use Rattle.al_type_stmt.specs.Iterators as iterators;
ghost use Rattle.al_type_function.specs.Texts as spec;

use al_base::{NoMemory, Place};
use al_body_parts::WrittenText;
use al_environment::{Numbered, Numbers};
use al_items::Items;
use std::alloc::Global;

/// A number that stands there, where a program has it.
fn push_number(from: usize, k: usize, at: Place, numbers: &mut Numbers) -> Result<(), NoMemory>
    ensures { OnOk result (numbers.new ≡ numbers.old ++ iterators.numbered_at (from + k) at) }
{
    let n = from.saturating_add(k);
    if n > 4_294_967_295 {
        return Ok(());
    }
    numbers.push(Numbered {
        at,
        number: n as u32,
    })
}

/// Their numbers, the first of which is `from`.
#[tactic(auto, using(crate::proofs::TextsAre::numbered_are))]
pub(crate) fn text_numbers(
    alloc: Global,
    from: usize,
    texts: &[WrittenText],
) -> Result<Numbers, NoMemory>
    ensures { IfOk result (λ ns. ns ≡ spec.numbered from texts.now) }
{
    let mut numbers = Numbers::new(alloc);
    for (k, t) in texts.iter().enumerate() {
        push_number(from, k, t.at, &mut numbers)?;
    }
    Ok(numbers)
}

/// Their bytes.
pub(crate) fn text_bytes(alloc: Global, texts: &[WrittenText]) -> Result<Items<Items<u8>>, NoMemory>
    ensures { IfOk result (λ list. list ≡ map spec.bytes_in texts.now) }
{
    let mut list = Items::with_capacity(alloc, texts.len())?;
    for t in texts {
        let bytes = Items::from_slice(alloc, t.bytes.as_slice())?;
        list.push(bytes)?;
    }
    Ok(list)
}
