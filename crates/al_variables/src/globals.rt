//! Blocks of shared globals and of string constants, one behind the other.
ghost use Rattle.std.specs.Prelude.{◌≡◌, ℕ, [], ◌∷◌};
ghost use Rattle.al_typed.specs.Capped.{capped};
ghost use Rattle.al_typed.specs.Layout.{IsLaidOut};
ghost use Rattle.al_meaning.specs.Places as places;
ghost use Rattle.al_variables.specs.Placing as placing;

use al_typed::{Aggregate, Global, Program, room_of};

/// The place behind a block of so many bytes, at most 2^64 - 1.
fn behind(at: u64, size: u64) -> u64
    ensures { result ≡ capped (places.behind at size) }
{
    at.saturating_add(size.div_ceil(8).saturating_mul(8))
}

/// The place behind a global, at most 2^64 - 1. A private one takes no room.
fn behind_global(rows: &[Aggregate], at: u64, global: &Global) -> u64
    requires { IsLaidOut rows.now }
    ensures { (a : ℕ) → at ≡ capped a → result ≡ capped (placing.behind_all rows.now a (global.now ∷ [])) }
{
    if global.is_private {
        return at;
    }
    behind(at, room_of(rows, &global.ty).size)
}

/// Where the block of a global stands, or where it would stand, at most 2^64 - 1.
pub fn global_place(p: &Program, number: usize) -> u64
    requires { IsLaidOut p.now.aggregates }
    ensures { result ≡ capped (places.global_place p.now number) }
{
    let rows = p.aggregates.as_slice();
    let globals = p.globals.as_slice();
    let before = &globals[..number.min(globals.len())];
    let mut at: u64 = 0x1000_0000;
    for global in before {
        at = behind_global(rows, at, global);
    }
    at
}

/// Where the block of a string constant stands, at most 2^64 - 1.
pub fn text_place(p: &Program, number: u32) -> u64
    requires { IsLaidOut p.now.aggregates }
    ensures { result ≡ capped (places.text_place p.now number) }
{
    let texts = p.strings.as_slice();
    let before = &texts[..(number as usize).min(texts.len())];
    let mut at = global_place(p, p.globals.len());
    for text in before {
        at = behind(at, (text.len() as u64).saturating_add(1));
    }
    at
}
