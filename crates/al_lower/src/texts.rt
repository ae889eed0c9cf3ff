//! Where the blocks of strings stand, all found at once.
ghost use Rattle.std.specs.Prelude.{◌≡◌, IfOk};
ghost use Rattle.al_typed.specs.Capped.{capped};
ghost use Rattle.al_typed.specs.Layout.{IsLaidOut};
ghost use Rattle.al_meaning.specs.Places as places;
ghost use Rattle.al_lower.specs.Texts.{ArePlaces};

use al_base::NoMemory;
use al_items::Items;
use al_typed::Program;
use al_variables::global_place;
use std::alloc::Global;

/// The place behind a block of so many bytes, at most 2^64 - 1.
fn behind(at: u64, size: u64) -> u64
    ensures { result ≡ capped (places.behind at size) }
{
    at.saturating_add(size.div_ceil(8).saturating_mul(8))
}

/// The places of the strings of a program, and the one behind them.
#[tactic(auto, using(crate::proofs::TextPlaces::places_found))]
pub fn text_places(alloc: Global, p: &Program) -> Result<Items<u64>, NoMemory>
    requires { IsLaidOut p.now.aggregates }
    ensures { IfOk result (λ it. ArePlaces p.now it) }
{
    let mut it = Items::with_capacity(alloc, p.strings.len())?;
    let mut at = global_place(p, p.globals.len());
    for text in p.strings.as_slice() {
        it.push(at)?;
        at = behind(at, (text.len() as u64).saturating_add(1));
    }
    it.push(at)?;
    Ok(it)
}

/// The place of the block of a string, at most 2^64 - 1, by the places of all.
pub fn text_at(p: &Program, texts: &[u64], number: u32) -> u64
    requires { ArePlaces p.now texts.now }
    ensures { result ≡ capped (places.text_place p.now number) }
{
    texts[(number as usize).min(p.strings.len())]
}
