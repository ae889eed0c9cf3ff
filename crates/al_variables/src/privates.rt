//! Private globals, whose words stand one after the other.
ghost use Rattle.std.specs.Prelude.{◌≡◌, take, drop, IfOk};
ghost use Rattle.al_typed.specs.Capped.{capped};
ghost use Rattle.al_typed.specs.Layout.{IsLaidOut};
ghost use Rattle.al_meaning.specs.Evaluate.{put_at};
ghost use Rattle.al_meaning.specs.Places as places;

use al_base::NoMemory;
use al_control_values::words_in;
use al_event::Words;
use al_items::Items;
use al_typed::{Global, Program, Ty};
use std::alloc::Global as Memory;

/// The words that a global takes in each proc, at most 2^64 - 1. A shared one takes none.
fn words_of(p: &Program, global: &Global) -> u64
    requires { IsLaidOut p.now.aggregates }
    ensures { result ≡ capped (places.private_words_of p.now global.now) }
{
    if global.is_private {
        words_in(p.aggregates.as_slice(), &global.ty)
    } else {
        0
    }
}

/// Where the words of a private global stand, at most 2^64 - 1.
fn private_place(p: &Program, number: u32) -> u64
    requires { IsLaidOut p.now.aggregates }
    ensures { result ≡ capped (places.private_place p.now number) }
{
    let globals = p.globals.as_slice();
    let before = &globals[..(number as usize).min(globals.len())];
    let mut place: u64 = 0;
    for global in before {
        place = place.saturating_add(words_of(p, global));
    }
    place
}

/// The words of a private global of a type, where these are the words of all of them.
pub fn private_value(
    alloc: Memory,
    p: &Program,
    number: u32,
    ty: &Ty,
    privates: &[u32],
) -> Result<Words, NoMemory>
    requires { IsLaidOut p.now.aggregates }
    ensures { IfOk result (λ ws. ws ≡ take (places.words_in p.now ty.now) (drop (places.private_place p.now number) privates.now)) }
{
    let start = private_place(p, number).min(privates.len() as u64) as usize;
    let rest = &privates[start..];
    let count = words_in(p.aggregates.as_slice(), ty).min(rest.len() as u64) as usize;
    Items::from_slice(alloc, &rest[..count])
}

/// The words of all private globals with these in the place of one of them.
pub fn with_private(
    alloc: Memory,
    p: &Program,
    number: u32,
    words: &[u32],
    privates: &[u32],
) -> Result<Words, NoMemory>
    requires { IsLaidOut p.now.aggregates }
    ensures { IfOk result (λ ws. ws ≡ put_at (places.private_place p.now number) words.now privates.now) }
{
    let start = private_place(p, number).min(privates.len() as u64) as usize;
    let end = start.saturating_add(words.len()).min(privates.len());
    let mut all = Items::from_slice(alloc, &privates[..start])?;
    all.extend_from_slice(words)?;
    all.extend_from_slice(&privates[end..])?;
    Ok(all)
}
