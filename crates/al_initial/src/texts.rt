//! The string constants of initializers.
ghost use Rattle.std.specs.Prelude.{◌≡◌, ◌++◌, map, OnOk, IfOk};
ghost use Rattle.al_initial.specs.Whole as spec;

use al_base::{NoMemory, Place};
use al_body_parts::WrittenText;
use al_environment::{Here, Numbered, Numbers};
use al_items::Items;
use std::alloc::Global;

/// Where no function is at hand, and string constants have these numbers.
pub(crate) fn outside(alloc: Global, texts: Numbers) -> Here
    ensures { result ≡ spec.outside texts }
{
    Here {
        own: None,
        locals: Items::new(alloc),
        around: Items::new(alloc),
        texts,
        iterators: Numbers::new(alloc),
    }
}

/// One string constant more, where 32 bits have room for its number.
fn push_number(numbers: &mut Numbers, at: Place, n: usize) -> Result<(), NoMemory>
    ensures { OnOk result (numbers.new ≡ numbers.old ++ spec.numbered_text at n) }
{
    if n > 4_294_967_295 {
        return Ok(());
    }
    numbers.push(Numbered {
        at,
        number: n as u32,
    })
}

/// The numbers of string constants in their order.
#[tactic(auto, using(crate::proofs::NumbersAre::numbers_are))]
pub(crate) fn numbered(alloc: Global, texts: &[WrittenText]) -> Result<Numbers, NoMemory>
    ensures { IfOk result (λ ns. ns ≡ spec.numbered 0 texts.now) }
{
    let mut numbers = Numbers::new(alloc);
    for (n, text) in texts.iter().enumerate() {
        push_number(&mut numbers, text.at, n)?;
    }
    Ok(numbers)
}

fn bytes_in(alloc: Global, text: &WrittenText) -> Result<Items<u8>, NoMemory>
    ensures { IfOk result (λ bytes. bytes ≡ spec.bytes_in text.now) }
{
    Items::from_slice(alloc, text.bytes.as_slice())
}

/// The bytes of string constants.
pub(crate) fn all_bytes(alloc: Global, texts: &[WrittenText]) -> Result<Items<Items<u8>>, NoMemory>
    ensures { IfOk result (λ all. all ≡ map spec.bytes_in texts.now) }
{
    let mut all = Items::with_capacity(alloc, texts.len())?;
    for text in texts {
        let bytes = bytes_in(alloc, text)?;
        all.push(bytes)?;
    }
    Ok(all)
}
