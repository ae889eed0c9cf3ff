//! What main and the first proc begin with.
ghost use Rattle.std.specs.Prelude.{◌≡◌, ℕ, ◌+◌, ◌<◌, ◌^◌, replicate, sum_by, IfOk, IfErr};
ghost use Rattle.al_typed.specs.Capped.{capped};
ghost use Rattle.al_typed.specs.Layout.{IsLaidOut, words_of};
ghost use Rattle.al_typed.specs.Typed.{local_types, parameter_types};
ghost use Rattle.al_meaning.specs.Meaning as meaning;
ghost use Rattle.al_meaning.specs.Places as places;
ghost use Rattle.al_control.specs.Fits.{Explains};
ghost use Rattle.al_step.specs.Sources.{MainFits, PrivatesFit, main_count};

use al_control::Unmade;
use al_control_values::{words_in, zero_words};
use al_event::{Start, Words};
use al_items::Items;
use al_typed::{Aggregate, Function, Global as GlobalRow, Local, Program};
use std::alloc::Global;

// ---- counts

/// The words that these locals take privately, at most 2^64 - 1.
fn words_of_locals(rows: &[Aggregate], locals: &[Local]) -> u64
    requires { IsLaidOut rows.now }
    ensures { result ≡ capped (sum_by (words_of rows.now) (local_types locals.now)) }
{
    let mut sum: u64 = 0;
    for local in locals {
        let words = words_in(rows, &local.ty);
        sum = sum.saturating_add(words);
    }
    sum
}

/// The words that a global takes in each proc, at most 2^64 - 1. A shared one takes none.
fn words_of_global(p: &Program, global: &GlobalRow) -> u64
    requires { IsLaidOut p.now.aggregates }
    ensures { result ≡ capped (places.private_words_of p.now global.now) }
{
    if global.is_private {
        words_in(p.aggregates.as_slice(), &global.ty)
    } else {
        0
    }
}

/// The words of the private ones of these globals, at most 2^64 - 1.
fn words_of_globals(p: &Program, globals: &[GlobalRow]) -> u64
    requires { IsLaidOut p.now.aggregates }
    ensures { result ≡ capped (sum_by (places.private_words_of p.now) globals.now) }
{
    let mut sum: u64 = 0;
    for global in globals {
        let words = words_of_global(p, global);
        sum = sum.saturating_add(words);
    }
    sum
}

/// The words that the parameters of a function take, at most 2^64 - 1.
#[tactic(auto, using(crate::proofs::Openings::parameters_are))]
fn words_of_parameters(p: &Program, function: &Function) -> u64
    requires { IsLaidOut p.now.aggregates }
    ensures { result ≡ capped (sum_by (places.words_in p.now) (parameter_types function.now)) }
{
    let locals = function.locals.as_slice();
    let count = (function.parameters as usize).min(locals.len());
    words_of_locals(p.aggregates.as_slice(), &locals[..count])
}

/// The words that the parameters of main take, at most 2^64 - 1; 0 where there is no main.
fn words_of_main(p: &Program) -> u64
    requires { IsLaidOut p.now.aggregates }
    ensures { result ≡ capped (main_count p.now) }
{
    let functions = p.functions.as_slice();
    let number = p.main as usize;
    if number < functions.len() {
        words_of_parameters(p, &functions[number])
    } else {
        0
    }
}

// ---- words

/// So many words that are all 0. What counts as 2^64 - 1 may be more.
#[tactic(auto, using(crate::proofs::Openings::zeros_are))]
fn zeros(alloc: Global, count: u64) -> Result<Words, Unmade>
    ensures words { IfOk result (λ words. (n : ℕ) → count ≡ capped n → words ≡ replicate n 0) }
    ensures why { IfErr result (λ e. (n : ℕ) → count ≡ capped n → Explains e (n + 1 < 2 ^ 64)) }
{
    if count == u64::MAX {
        return Err(Unmade::TooLarge);
    }
    let words = zero_words(alloc, count)?;
    Ok(words)
}

/// The private globals of a proc at its start.
pub(crate) fn fresh_words(alloc: Global, p: &Program) -> Result<Words, Unmade>
    requires { IsLaidOut p.now.aggregates }
    ensures words { IfOk result (λ words. words ≡ places.fresh_privates p.now) }
    ensures why { IfErr result (λ e. Explains e (PrivatesFit p.now)) }
{
    let globals = p.globals.as_slice();
    let count = words_of_globals(p, globals);
    let words = zeros(alloc, count)?;
    Ok(words)
}

/// The start of main, with parameters that are 0 and nil.
pub(crate) fn main_start(alloc: Global, p: &Program) -> Result<Start, Unmade>
    requires { IsLaidOut p.now.aggregates }
    ensures start { IfOk result (λ start. start ≡ meaning.main_start p.now) }
    ensures why { IfErr result (λ e. Explains e (MainFits p.now)) }
{
    let count = words_of_main(p);
    let words = zeros(alloc, count)?;
    Ok(Start {
        code: p.main,
        words,
    })
}
