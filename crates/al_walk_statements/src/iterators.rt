//! Iterators of an expression statement.
ghost use Rattle.std.specs.Prelude.{◌≡◌, ◌+◌, ◌<◌, ◌^◌, ◌∷◌, [], ℕ, length, map, slice_index, IfOk, IfErr, MatchOption};
ghost use Rattle.al_meaning.specs.Execute as spec;
ghost use Rattle.al_meaning.specs.Here as here;
ghost use Rattle.al_meaning.specs.Items as item;
ghost use Rattle.al_meaning.specs.Step as step;
ghost use Rattle.al_meaning.specs.Words.{is_below};
ghost use Rattle.al_control.specs.Fits.{Explains};
ghost use Rattle.al_control.specs.Models.{bounds_of, here_of, next_of};
ghost use Rattle.al_walk_statements.specs.Forms.{with_turn};

use al_base::{Kind, NoMemory, Op, apply};
use al_control::{
    Bounds, Copied, Here, Next, Stack, Taken, Unmade, ValueStage, Work, does, does_two, moves,
    turns, values,
};
use al_control_values::{split_word, sum};
use al_event::Words;
use al_items::Items;
use al_typed::TExpr;
use al_walk_loops::with_dropped;
use std::alloc::Global;

/// The bounds of an iterator, from a value for each.
fn bounds_between(from: Words, to: Words) -> Bounds
    ensures { bounds_of result ≡ record { from = slice_index from 0; to = slice_index to 0 } }
{
    Bounds {
        from: split_word(from.as_slice()).0,
        to: split_word(to.as_slice()).0,
    }
}

/// The bounds from this value to the first of the others, which is taken away, where there is one.
fn bounds_to(from: Words, values: &mut Stack<Words>) -> Option<Bounds>
    ensures { MatchOption result (spec.bounds_of (from ∷ values.old) ≡ []) (λ b. (spec.bounds_of (from ∷ values.old) ≡ bounds_of b ∷ spec.bounds_of values.new) × (length values.new < length (from ∷ values.old))) }
{
    match values.pop() {
        None => None,
        Some(to) => Some(bounds_between(from, to)),
    }
}

/// Takes the bounds of the first iterator away, two values, where there are two.
fn next_bounds(values: &mut Stack<Words>) -> Option<Bounds>
    ensures { MatchOption result (spec.bounds_of values.old ≡ []) (λ b. (spec.bounds_of values.old ≡ bounds_of b ∷ spec.bounds_of values.new) × (length values.new < length values.old)) }
{
    match values.pop() {
        None => None,
        Some(from) => bounds_to(from, values),
    }
}

/// The bounds of iterators, from the values that were found, two for each.
fn bounds_from(alloc: Global, values: Stack<Words>) -> Result<Stack<Bounds>, NoMemory>
    ensures { IfOk result (λ bs. map bounds_of bs ≡ spec.bounds_of values) }
{
    let mut values = values;
    let mut all = Items::new(alloc);
    while let Some(bounds) = next_bounds(&mut values) {
        all.push(bounds)?;
    }
    Ok(Stack::from_vec(all.into_vec()))
}

/// The iterators begin, where these are their bounds.
fn begin_all<'p>(
    alloc: Global,
    values: Stack<Words>,
    e: &'p TExpr,
    h: Here<'p>,
) -> Result<Next<'p>, NoMemory>
    ensures { IfOk result (λ n. next_of n ≡ here.does (here_of h.entry) (item.Iterate 0 (spec.bounds_of values) e.now ∷ [])) }
{
    let bounds = bounds_from(alloc, values)?;
    does(h, Work::Value(ValueStage::Iterate { number: 0, bounds }, e))
}

/// The iterators begin, where so many bounds were found.
fn begin<'p>(alloc: Global, count: usize, e: &'p TExpr, h: Here<'p>) -> Result<Next<'p>, NoMemory>
    ensures { IfOk result (λ n. next_of n ≡ here.with_values count (here_of h.entry) (λ values h. here.does h (item.Iterate 0 (spec.bounds_of values) e.now ∷ []))) }
{
    match values(alloc, count, h)? {
        Taken::Lost(next) => Ok(next),
        Taken::Took(values, h) => begin_all(alloc, values, e, h),
    }
}

/// The iterators of the value `e` begin, where two bounds of each were found.
pub fn bound<'p>(alloc: Global, count: usize, e: &'p TExpr, h: Here<'p>) -> Result<Next<'p>, Unmade>
    ensures next { IfOk result (λ n. next_of n ≡ step.step_work (item.Bound count e.now) (here_of h.entry)) }
    ensures why { IfErr result (λ x. Explains x (count + count < 2 ^ 64)) }
{
    match count.checked_add(count) {
        None => Err(Unmade::TooLarge),
        Some(bounds) => Ok(begin(alloc, bounds, e, h)?),
    }
}

/// Whether an int is less than another.
fn is_less(a: u32, b: u32) -> bool
    ensures { result ≡ is_below a b }
{
    match apply(Op::Lt, Kind::Int, a as u64, b as u64) {
        Some(less) => less == 1,
        None => false,
    }
}

/// The iterator of that number is at a turn: the others go through theirs, and then comes its next one.
fn begin_turn<'p>(
    alloc: Global,
    number: usize,
    inner: usize,
    bounds: Bounds,
    rest: Stack<Bounds>,
    e: &'p TExpr,
    h: Here<'p>,
) -> Result<Next<'p>, NoMemory>
    requires { inner ≡ number + 1 }
    ensures { IfOk result (λ n. next_of n ≡ here.does (with_turn number bounds.from (here_of h.entry)) (item.Iterate (number + 1) (map bounds_of rest) e.now ∷ item.NextTurn number (bounds_of bounds) (map bounds_of rest) e.now ∷ [])) }
{
    let mut h = h;
    h.frame.turns.truncate(number);
    h.frame.turns.push(bounds.from)?;
    let others = rest.copied(alloc)?;
    let iterate = ValueStage::Iterate {
        number: inner,
        bounds: others,
    };
    let next = ValueStage::NextTurn {
        number,
        bounds,
        rest,
    };
    does_two(h, Work::Value(iterate, e), Work::Value(next, e))
}

/// The iterator of that number begins a turn, where there is room for the number of the next one.
fn begin_inner<'p>(
    alloc: Global,
    number: usize,
    bounds: Bounds,
    rest: Stack<Bounds>,
    e: &'p TExpr,
    h: Here<'p>,
) -> Result<Next<'p>, Unmade>
    ensures next { IfOk result (λ n. next_of n ≡ here.does (with_turn number bounds.from (here_of h.entry)) (item.Iterate (number + 1) (map bounds_of rest) e.now ∷ item.NextTurn number (bounds_of bounds) (map bounds_of rest) e.now ∷ [])) }
    ensures why { IfErr result (λ x. Explains x (number + 1 < 2 ^ 64)) }
{
    match number.checked_add(1) {
        None => Err(Unmade::TooLarge),
        Some(inner) => Ok(begin_turn(alloc, number, inner, bounds, rest, e, h)?),
    }
}

/// The iterator of that number goes through its turns.
fn go_through<'p>(
    alloc: Global,
    number: usize,
    bounds: Bounds,
    rest: Stack<Bounds>,
    e: &'p TExpr,
    h: Here<'p>,
) -> Result<Next<'p>, Unmade>
    ensures next { IfOk result (λ n. next_of n ≡ spec.iterate number (bounds_of bounds ∷ map bounds_of rest) e.now (here_of h.entry)) }
    ensures why { IfErr result (λ x. Explains x (number + 1 < 2 ^ 64)) }
{
    if is_less(bounds.from, bounds.to) {
        begin_inner(alloc, number, bounds, rest, e, h)
    } else {
        Ok(moves(h)?)
    }
}

/// A value whose iterators are all at a turn.
fn once<'p>(e: &'p TExpr, h: Here<'p>) -> Result<Next<'p>, NoMemory>
    ensures { IfOk result (λ n. (number : ℕ) → next_of n ≡ spec.iterate number [] e.now (here_of h.entry)) }
{
    moves(with_dropped(e, h)?)
}

/// The iterators of the value `e` from that number on go through these bounds.
pub fn iterate<'p>(
    alloc: Global,
    number: usize,
    bounds: Stack<Bounds>,
    e: &'p TExpr,
    h: Here<'p>,
) -> Result<Next<'p>, Unmade>
    ensures next { IfOk result (λ n. next_of n ≡ step.step_work (item.Iterate number (map bounds_of bounds) e.now) (here_of h.entry)) }
    ensures why { IfErr result (λ x. Explains x (number + 1 < 2 ^ 64)) }
{
    let mut rest = bounds;
    match rest.pop() {
        None => Ok(once(e, h)?),
        Some(bounds) => go_through(alloc, number, bounds, rest, e, h),
    }
}

/// The bounds of an iterator at its next turn.
fn next_of_bounds(bounds: Bounds) -> Bounds
    ensures { bounds_of result ≡ spec.next_turn (bounds_of bounds) }
{
    Bounds {
        from: sum(bounds.from as u64, 1),
        to: bounds.to,
    }
}

/// The next turn of the iterator of that number.
pub fn next_turn<'p>(
    number: usize,
    bounds: Bounds,
    rest: Stack<Bounds>,
    e: &'p TExpr,
    h: Here<'p>,
) -> Result<Next<'p>, NoMemory>
    ensures { IfOk result (λ n. next_of n ≡ step.step_work (item.NextTurn number (bounds_of bounds) (map bounds_of rest) e.now) (here_of h.entry)) }
{
    let mut bounds_left = rest;
    bounds_left.push(next_of_bounds(bounds))?;
    let iterate = ValueStage::Iterate {
        number,
        bounds: bounds_left,
    };
    turns(h, Work::Value(iterate, e))
}
