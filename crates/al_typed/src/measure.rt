//! The measures of a program, held to the limits.
ghost use Rattle.std.specs.Prelude.{◌≡◌, ℕ, ◌≤◌, ◌+◌, ◌^◌, ◌↔◌, max, fold, drop, take, Ok, Err, IsOk, sum_by};
ghost use Rattle.al_typed.specs.Capped.{capped};
ghost use Rattle.al_typed.specs.Layout.{IsLaidOut, size_of, words_of};
ghost use Rattle.al_typed.specs.Measures as spec;
ghost use Rattle.al_typed.specs.Measures.{tallied, greatest_by, IsWithin};
ghost use Rattle.al_typed.specs.Typed.{local_types, parameter_types};

use crate::count_statement::statement;
use crate::layout::room_of;
use crate::limit::Limit;
use crate::program::{Function, Local, Program};
use crate::tally::{Tally, parameter_words, words};
use crate::ty::Ty;

/// The measures of the functions so far. Each is at most 2^64 - 1.
#[derive(Clone, Copy)]
pub struct Totals {
    pub wide: u64,
    pub weight: u64,
    /// The greatest weight of a function.
    pub greatest: u64,
    pub slots: u64,
}

/// The size of a value of a type, at most 2^64 - 1.
fn size(p: &Program, ty: &Ty) -> u64
    requires { IsLaidOut p.now.aggregates }
    ensures { result ≡ capped (size_of p.now.aggregates ty.now) }
{
    room_of(p.aggregates.as_slice(), ty).size
}

/// What the pieces of a function add.
#[tactic(auto, unfolding(crate::specs::Measures::pieces_of))]
fn tally_of(p: &Program, f: &Function) -> Tally
    requires { IsLaidOut p.now.aggregates }
    ensures { result ≡ tallied p.now spec.no_pieces (spec.pieces_of f.now) }
{
    let mut tally = Tally {
        weight: 0,
        slots: 0,
        width: 0,
    };
    statement(p, &f.body, &mut tally);
    tally
}

/// The greatest size of these locals.
fn greatest_size(p: &Program, locals: &[Local]) -> u64
    requires { IsLaidOut p.now.aggregates }
    ensures { result ≡ capped (greatest_by (size_of p.now.aggregates) (local_types locals.now)) }
{
    let mut greatest: u64 = 0;
    for local in locals {
        greatest = greatest.max(size(p, &local.ty));
    }
    greatest
}

/// The words of those of these locals that are private.
fn private_words(p: &Program, locals: &[Local]) -> u64
    requires { IsLaidOut p.now.aggregates }
    ensures { result ≡ capped (spec.words_in p.now (spec.private_types locals.now)) }
{
    let mut sum: u64 = 0;
    for local in locals {
        if !local.is_shared {
            sum = sum.saturating_add(words(p.aggregates.as_slice(), &local.ty));
        }
    }
    sum
}

/// The greatest size of a value that a function copies whole, gets or gives.
fn width(p: &Program, f: &Function, tally: Tally) -> u64
    requires { IsLaidOut p.now.aggregates }
    ensures { result ≡ max tally.width (max (capped (greatest_by (size_of p.now.aggregates) (parameter_types f.now))) (capped (size_of p.now.aggregates f.now.returns))) }
{
    let count = (f.parameters as usize).min(f.locals.len());
    let parameters = greatest_size(p, &f.locals.as_slice()[..count]);
    tally.width.max(parameters.max(size(p, &f.returns)))
}

/// The words that a function takes on the stack of a task.
fn slots(p: &Program, f: &Function, tally: Tally) -> u64
    requires { IsLaidOut p.now.aggregates }
    ensures { result ≡ capped (spec.slots_with p.now f.now tally.slots) }
{
    let count = (f.parameters as usize).min(f.locals.len());
    let private = private_words(p, &f.locals.as_slice()[count..]);
    let returns = words(p.aggregates.as_slice(), &f.returns);
    parameter_words(p, f)
        .saturating_add(private)
        .saturating_add(returns)
        .saturating_add(f.around.len() as u64)
        .saturating_add(tally.slots)
        .saturating_add(16)
}

/// The words that a function takes on the stack of a task, at most 2^64 - 1.
///
/// [`weigh`] says whether they are within the limit; a program that is walked wants the numbers themselves.
#[tactic(auto, using(crate::proofs::Sums::tally_is))]
pub fn function_slots(p: &Program, f: &Function) -> u64
    requires { IsLaidOut p.now.aggregates }
    ensures { result ≡ capped (spec.function_slots p.now f.now) }
{
    slots(p, f, tally_of(p, f))
}

/// One function more.
#[tactic(auto, using(crate::proofs::Sums::tally_is), unfolding(crate::specs::Measures::with_function))]
fn with_function(p: &Program, f: &Function, totals: Totals) -> Totals
    requires { IsLaidOut p.now.aggregates }
    ensures { result ≡ spec.with_function p.now totals f.now }
{
    let tally = tally_of(p, f);
    Totals {
        wide: totals.wide.max(width(p, f, tally)),
        weight: totals.weight.saturating_add(tally.weight),
        greatest: totals.greatest.max(tally.weight),
        slots: totals.slots.max(slots(p, f, tally)),
    }
}

/// The measures of all functions.
fn of_functions(p: &Program) -> Totals
    requires { IsLaidOut p.now.aggregates }
    ensures { result ≡ fold (spec.with_function p.now) spec.no_functions p.now.functions }
{
    let mut totals = Totals {
        wide: 0,
        weight: 0,
        greatest: 0,
        slots: 0,
    };
    for f in p.functions.as_slice() {
        totals = with_function(p, f, totals);
    }
    totals
}

/// The greatest size of an element of a channel type.
fn greatest_element(p: &Program) -> u64
    requires { IsLaidOut p.now.aggregates }
    ensures { result ≡ capped (greatest_by (size_of p.now.aggregates) p.now.elements) }
{
    let mut greatest: u64 = 0;
    for ty in p.elements.as_slice() {
        greatest = greatest.max(size(p, ty));
    }
    greatest
}

/// The words of all private globals.
fn words_of_globals(p: &Program) -> u64
    requires { IsLaidOut p.now.aggregates }
    ensures { result ≡ capped (spec.private_words p.now) }
{
    let mut sum: u64 = 0;
    for global in p.globals.as_slice() {
        if global.is_private {
            sum = sum.saturating_add(words(p.aggregates.as_slice(), &global.ty));
        }
    }
    sum
}

/// The measures of a program.
#[tactic(auto, using(crate::proofs::Sums::totals_are), unfolding(crate::specs::Measures::wide, crate::specs::Measures::weight, crate::specs::Measures::greatest_weight, crate::specs::Measures::slots))]
fn measured(p: &Program) -> Totals
    requires { IsLaidOut p.now.aggregates }
    ensures wide { result.wide ≡ capped (spec.wide p.now) }
    ensures weight { result.weight ≡ capped (spec.weight p.now) }
    ensures greatest { result.greatest ≡ capped (spec.greatest_weight p.now) }
    ensures slots { result.slots ≡ capped (spec.slots p.now) }
{
    let of_functions = of_functions(p);
    Totals {
        wide: of_functions.wide.max(greatest_element(p)),
        slots: of_functions.slots.max(words_of_globals(p)),
        ..of_functions
    }
}

/// The first limit that a program passes: a value of more than 1,024 bytes that is copied whole, a weight of more than
/// 65,536, a function's weight of more than 4,096, more than 16,384 words of a function or of private globals.
///
/// Of what well-typed programs keep it needs the layouts of the aggregates alone.
pub fn weigh(p: &Program) -> Result<(), Limit>
    requires { IsLaidOut p.now.aggregates }
    ensures value { result ≡ spec.weighed (spec.wide p.now) (spec.weight p.now) (spec.greatest_weight p.now) (spec.slots p.now) }
    ensures ok { IsOk result ↔ IsWithin p.now }
{
    let totals = measured(p);
    if totals.wide > 1024 {
        return Err(Limit::Wide(totals.wide));
    }
    if totals.weight > 65536 {
        return Err(Limit::Weight(totals.weight));
    }
    if totals.greatest > 4096 {
        return Err(Limit::FunctionWeight(totals.greatest));
    }
    if totals.slots > 16384 {
        return Err(Limit::Slots(totals.slots));
    }
    Ok(())
}
