//! What a program says of its functions.
ghost use Rattle.std.specs.Prelude.{◌≡◌, ◌<◌, ◌^◌, ◌↔◌, length, IsTrue, IfOk, MatchOption};
ghost use Rattle.al_typed.specs.Layout.{IsLaidOut};
ghost use Rattle.al_typed.specs.WellTyped.{shared_types};
ghost use Rattle.al_meaning.specs.Calls as spec;
ghost use Rattle.al_meaning.specs.Places as places;
ghost use Rattle.al_control_values.specs.Fits.{IsSmall};
ghost use Rattle.al_walk_calls.specs.Fits.{AreSmall, BeginFits};

use al_base::NoMemory;
use al_control_values::{is_small, words_in};
use al_items::Items;
use al_typed::{Local, Program, Ty, in_order};
use al_variables::{locals_of, word_of};
use std::alloc::Global;

/// Whether there is a function of that number.
pub fn is_numbered(p: &Program, number: u32) -> bool
    ensures { IsTrue result ↔ (number < length p.now.functions) }
{
    (number as usize) < p.functions.len()
}

/// The line of a function's name, 0 where there is no such function.
pub fn line_of_name(p: &Program, number: u32) -> u32
    ensures { result ≡ spec.line_of_name (places.function_at p.now number) }
{
    let functions = p.functions.as_slice();
    let at = number as usize;
    if at < functions.len() {
        functions[at].line
    } else {
        0
    }
}

/// Whether any of these locals lies in the shared block.
pub fn any_shared(locals: &[Local]) -> bool
    ensures { result ≡ places.has_block locals.now }
{
    for local in locals {
        if local.is_shared {
            return true;
        }
    }
    false
}

/// Whether a function has a shared block.
pub fn has_block(p: &Program, number: u32) -> bool
    ensures { result ≡ places.has_block (places.locals_of (places.function_at p.now number)) }
{
    any_shared(locals_of(p, number))
}

/// The types of those of these locals that lie in the shared block.
fn shared(alloc: Global, locals: &[Local]) -> Result<Items<Ty>, NoMemory>
    ensures { IfOk result (λ ts. ts ≡ shared_types locals.now) }
{
    let mut types = Items::new(alloc);
    for local in locals {
        if local.is_shared {
            types.push(local.ty.copy(alloc)?)?;
        }
    }
    Ok(types)
}

/// The size of the shared block of these locals, where a word has room for it.
pub fn block_size(alloc: Global, p: &Program, locals: &[Local]) -> Result<Option<u32>, NoMemory>
    requires { IsLaidOut p.now.aggregates }
    ensures { IfOk result (λ size. MatchOption size (places.block_size p.now locals.now < 2 ^ 32 → ⊥) (λ bytes. bytes ≡ places.block_size p.now locals.now)) }
{
    let types = shared(alloc, locals)?;
    let room = in_order(p.aggregates.as_slice(), types.as_slice());
    Ok(word_of(room.size))
}

/// How many words a value of a small type takes privately.
#[tactic(auto, using(crate::proofs::SmallTypes::small_words))]
pub fn small_words(p: &Program, ty: &Ty) -> u64
    requires laid_out { IsLaidOut p.now.aggregates }
    requires small { IsSmall p.now ty.now }
    ensures { result ≡ places.words_in p.now ty.now }
{
    words_in(p.aggregates.as_slice(), ty)
}

/// Whether the types of all these locals are small.
fn are_small(p: &Program, locals: &[Local]) -> bool
    requires { IsLaidOut p.now.aggregates }
    ensures { IsTrue result ↔ AreSmall p.now locals.now }
{
    for local in locals {
        if !is_small(p, &local.ty) {
            return false;
        }
    }
    true
}

/// Whether the types of the locals of a function are small.
pub fn begin_fits(p: &Program, function: u32) -> bool
    requires { IsLaidOut p.now.aggregates }
    ensures { IsTrue result ↔ BeginFits p.now function }
{
    are_small(p, locals_of(p, function))
}
