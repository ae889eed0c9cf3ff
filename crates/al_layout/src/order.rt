//! An order in which what stands in others by value comes before them.
ghost use Rattle.std.specs.Prelude.{◌≡◌, map, length, false, slice_set, IfOk, OnOk};
ghost use Rattle.std.specs.List.{list_all};
ghost use Rattle.al_layout.specs.Order as spec;

use al_base::NoMemory;
use al_items::Items;
use std::alloc::Global;

/// Those that have come, in their order and by number.
#[derive(Drop)]
pub(crate) struct Placed {
    order: Items<usize>,
    come: Items<bool>,
}

fn has_come(come: &Items<bool>, k: usize) -> bool
    ensures { result ≡ spec.has_come come.now k }
{
    match come.get(k) {
        None => false,
        Some(come) => *come,
    }
}

fn have_come(come: &Items<bool>, parts: &[usize]) -> bool
    ensures { result ≡ list_all (spec.has_come come.now) parts.now }
{
    parts.iter().all(|k| has_come(come, *k))
}

/// It comes next.
fn come(w: &mut Placed, k: usize) -> Result<(), NoMemory>
    ensures { OnOk result (w.new ≡ spec.coming w.old k) }
{
    w.order.push(k)?;
    if k < w.come.len() {
        w.come.set(k, true);
    }
    Ok(())
}

/// Whether it comes: its parts have come and it has not.
#[tactic(auto, unfolding(crate::specs::Order::placed))]
fn place(w: &mut Placed, k: usize, parts: &[usize]) -> Result<bool, NoMemory>
    ensures placed { OnOk result (w.new ≡ spec.placed w.old k parts.now) }
    ensures still { IfOk result (λ moves. moves ≡ false → w.new ≡ w.old) }
{
    if has_come(&w.come, k) || !have_come(&w.come, parts) {
        return Ok(false);
    }
    come(w, k)?;
    Ok(true)
}

/// Whether one comes in a round.
#[tactic(auto, using(crate::proofs::RoundsAre::round_is))]
fn round(w: &mut Placed, graph: &[Items<usize>]) -> Result<bool, NoMemory>
    ensures placed { OnOk result (w.new ≡ spec.round 0 graph.now w.old) }
    ensures still { IfOk result (λ moves. moves ≡ false → w.new ≡ w.old) }
{
    let mut moves = false;
    for (k, parts) in graph.iter().enumerate() {
        if place(w, k, parts.as_slice())? {
            moves = true;
        }
    }
    Ok(moves)
}

/// Rounds, until none comes.
#[tactic(auto, using(crate::proofs::RoundsAre::rounds_are))]
fn rounds(w: &mut Placed, graph: &[Items<usize>]) -> Result<(), NoMemory>
    ensures { OnOk result (w.new ≡ spec.rounds (length graph.now) graph.now w.old) }
{
    for _n in 0..graph.len() {
        if !round(w, graph)? {
            return Ok(());
        }
    }
    Ok(())
}

/// It comes, if it has not.
#[tactic(auto, unfolding(crate::specs::Order::left))]
fn leave(w: &mut Placed, k: usize) -> Result<(), NoMemory>
    ensures { OnOk result (w.new ≡ spec.left w.old k) }
{
    if has_come(&w.come, k) {
        return Ok(());
    }
    come(w, k)
}

/// Those that have not come, come.
#[tactic(auto, using(crate::proofs::RoundsAre::left_is))]
fn with_left(w: &mut Placed, graph: &[Items<usize>]) -> Result<(), NoMemory>
    ensures { OnOk result (w.new ≡ spec.with_left 0 graph.now w.old) }
{
    for (k, _parts) in graph.iter().enumerate() {
        leave(w, k)?;
    }
    Ok(())
}

fn none_come(alloc: Global, graph: &[Items<usize>]) -> Result<Items<bool>, NoMemory>
    ensures { IfOk result (λ come. come ≡ map (λ _. false) graph.now) }
{
    let mut come = Items::with_capacity(alloc, graph.len())?;
    for _parts in graph {
        come.push(false)?;
    }
    Ok(come)
}

/// All, in an order in which the parts of each come before it, where it does not contain itself.
#[tactic(auto, unfolding(crate::specs::Order::order))]
pub(crate) fn order(alloc: Global, graph: &[Items<usize>]) -> Result<Items<usize>, NoMemory>
    ensures { IfOk result (λ o. o ≡ spec.order graph.now) }
{
    let mut w = Placed {
        order: Items::new(alloc),
        come: none_come(alloc, graph)?,
    };
    rounds(&mut w, graph)?;
    with_left(&mut w, graph)?;
    Ok(w.order)
}

fn no_places(alloc: Global, graph: &[Items<usize>]) -> Result<Items<usize>, NoMemory>
    ensures { IfOk result (λ ns. ns ≡ map (λ _. 0) graph.now) }
{
    let mut numbers = Items::with_capacity(alloc, graph.len())?;
    for _parts in graph {
        numbers.push(0)?;
    }
    Ok(numbers)
}

fn note(numbers: &mut Items<usize>, k: usize, place: usize)
    ensures { numbers.new ≡ slice_set numbers.old k place }
{
    if k < numbers.len() {
        numbers.set(k, place);
    }
}

#[tactic(auto, using(crate::proofs::RoundsAre::places_are))]
fn note_places(numbers: &mut Items<usize>, order: &[usize])
    ensures { numbers.new ≡ spec.places 0 order.now numbers.old }
{
    for (place, k) in order.iter().enumerate() {
        note(numbers, *k, place);
    }
}

/// The place of each in the order.
#[tactic(auto, unfolding(crate::specs::Order::numbers))]
pub(crate) fn numbers(
    alloc: Global,
    graph: &[Items<usize>],
    order: &[usize],
) -> Result<Items<usize>, NoMemory>
    requires { order.now ≡ spec.order graph.now }
    ensures { IfOk result (λ ns. ns ≡ spec.numbers graph.now) }
{
    let mut numbers = no_places(alloc, graph)?;
    note_places(&mut numbers, order);
    Ok(numbers)
}
