//! What stands on the left of `=`.
ghost use Rattle.std.specs.Prelude.{◌≡◌, [], ◌∷◌, ◌++◌, length, map, IfOk, OnOk};
ghost use Rattle.std.specs.List.{flat_map};
ghost use Rattle.al_typed.specs.Layout.{IsLaidOut};
ghost use Rattle.al_meaning.specs.Evaluate as spec;
ghost use Rattle.al_meaning.specs.Here as here;
ghost use Rattle.al_meaning.specs.Items as item;
ghost use Rattle.al_meaning.specs.Step as step;
ghost use Rattle.al_control.specs.Models.{found_of, here_of, next_of, work_of};
ghost use Rattle.al_walk_places.specs.Referred.{referred};

use al_base::NoMemory;
use al_control::{
    Found, Here, Next, Stack, Storage, Taken, TargetStage, Work, does, finds, moves, places, value,
    with_work,
};
use al_control_values::words_in;
use al_event::Words;
use al_items::Items;
use al_typed::{Program, TTarget, Ty};
use std::alloc::Global;

/// The places of the parts of a target are to be found, from left to right, before the rest.
fn with_parts<'p>(parts: &'p [TTarget], h: Here<'p>) -> Result<Here<'p>, NoMemory>
    ensures { IfOk result (λ r. here_of r ≡ here.with_work (map item.Aim parts.now) (here_of h.entry)) }
{
    let mut h = h;
    let mut rest = parts;
    while let Some((part, front)) = rest.split_last() {
        h = with_work(h, Work::Target(TargetStage::Aim, part))?;
        rest = front;
    }
    Ok(h)
}

/// Finds the places of a target.
#[tactic(auto, using(crate::proofs::TargetPlaces::aims))]
pub fn aim<'p>(target: &'p TTarget, h: Here<'p>) -> Result<Next<'p>, NoMemory>
    ensures { IfOk result (λ n. next_of n ≡ spec.aim_at target.now (here_of h.entry)) }
{
    match target {
        TTarget::Into(place) => does(h, Work::Find(place.get())),
        TTarget::Dropped(_) => finds(h, Found::Nowhere),
        TTarget::Parts { parts, .. } => moves(with_parts(parts.as_slice(), h)?),
    }
}

/// The types of the places of targets, behind others.
#[cycle(leaves)]
fn put_all<'p>(parts: &'p [TTarget], out: &mut Items<&'p Ty>) -> Result<(), NoMemory>
    ensures { OnOk result (referred out.new ≡ referred out.old ++ flat_map spec.leaves_of parts.now) }
{
    for part in parts {
        put_leaves(part, out)?;
    }
    Ok(())
}

/// The types of the places of a target, behind others.
#[cycle(leaves)]
#[tactic(auto, using(crate::proofs::TargetPlaces::leaves))]
fn put_leaves<'p>(target: &'p TTarget, out: &mut Items<&'p Ty>) -> Result<(), NoMemory>
    ensures { OnOk result (referred out.new ≡ referred out.old ++ spec.leaves_of target.now) }
{
    match target {
        TTarget::Into(place) => out.push(place.get().ty()),
        TTarget::Dropped(ty) => out.push(ty),
        TTarget::Parts { parts, .. } => put_all(parts.as_slice(), out),
    }
}

/// The types of the places of a target.
fn leaves<'p>(alloc: Global, target: &'p TTarget) -> Result<Items<&'p Ty>, NoMemory>
    ensures { IfOk result (λ types. referred types ≡ spec.leaves_of target.now) }
{
    let mut types = Items::new(alloc);
    put_leaves(target, &mut types)?;
    Ok(types)
}

/// Each part of a value is to be put into its place, from left to right.
fn saves<'p>(
    alloc: Global,
    p: &Program,
    types: &[&'p Ty],
    places: Stack<Found>,
    words: &[u32],
) -> Result<Items<Work<'p>>, NoMemory>
    requires { IsLaidOut p.now.aggregates }
    ensures { IfOk result (λ works. map work_of works ≡ spec.saves p.now (referred types.now) (map found_of places) words.now) }
{
    let mut places = places;
    let mut works = Items::new(alloc);
    let mut rest = words;
    for ty in types {
        match places.pop() {
            None => return Ok(works),
            Some(place) => {
                let count = words_in(p.aggregates.as_slice(), ty).min(rest.len() as u64) as usize;
                let cut = rest.split_at(count);
                let words = Items::from_slice(alloc, cut.0)?;
                works.push(Work::Storage(Storage::Save {
                    ty: *ty,
                    words,
                    place,
                }))?;
                rest = cut.1;
            }
        }
    }
    Ok(works)
}

/// Works, before the rest.
fn with_works<'p>(works: Items<Work<'p>>, h: Here<'p>) -> Result<Here<'p>, NoMemory>
    ensures { IfOk result (λ r. here_of r ≡ here.with_work (map work_of works.entry) (here_of h.entry)) }
{
    let mut h = h;
    let mut rest = works;
    while let Some(work) = rest.pop() {
        h = with_work(h, work)?;
    }
    Ok(h)
}

/// Works, and then the value, before the rest.
fn with_works_and<'p>(
    works: Items<Work<'p>>,
    words: Words,
    h: Here<'p>,
) -> Result<Here<'p>, NoMemory>
    ensures { IfOk result (λ r. here_of r ≡ here.with_work (map work_of works.entry ++ item.Give words ∷ []) (here_of h.entry)) }
{
    let h = with_work(h, Work::Give(words))?;
    with_works(works, h)
}

/// Goes on with the parts of a value into their places, and then gives the value.
fn assigns<'p>(
    alloc: Global,
    types: &[&'p Ty],
    places: Stack<Found>,
    words: Words,
    h: Here<'p>,
) -> Result<Next<'p>, NoMemory>
    requires { IsLaidOut h.program.now.aggregates }
    ensures { IfOk result (λ n. next_of n ≡ here.does (here_of h.entry) (spec.saves h.entry.program.now (referred types.now) (map found_of places) words ++ item.Give words ∷ [])) }
{
    let works = saves(alloc, h.program, types, places, words.as_slice())?;
    moves(with_works_and(works, words, h)?)
}

/// A value is put into places of these types that were found before it.
fn assign_parts<'p>(
    alloc: Global,
    types: &[&'p Ty],
    words: Words,
    h: Here<'p>,
) -> Result<Next<'p>, NoMemory>
    requires { IsLaidOut h.program.now.aggregates }
    ensures { IfOk result (λ n. next_of n ≡ here.places_before (length types.now) [] (here_of h.entry) (λ fs at. here.does at (spec.saves at.program (referred types.now) fs words ++ item.Give words ∷ []))) }
{
    match places(alloc, types.len(), h)? {
        Taken::Lost(next) => Ok(next),
        Taken::Took(places, h) => assigns(alloc, types, places, words, h),
    }
}

/// A value is put into the places of a target that were found before it.
fn assign_words<'p>(
    alloc: Global,
    target: &'p TTarget,
    words: Words,
    h: Here<'p>,
) -> Result<Next<'p>, NoMemory>
    requires { IsLaidOut h.program.now.aggregates }
    ensures { IfOk result (λ n. next_of n ≡ here.places_before (length (spec.leaves_of target.now)) [] (here_of h.entry) (λ fs at. here.does at (spec.saves at.program (spec.leaves_of target.now) fs words ++ item.Give words ∷ []))) }
{
    let types = leaves(alloc, target)?;
    assign_parts(alloc, types.as_slice(), words, h)
}

/// The value that was found is put into the places of a target that were found before it.
pub fn assign<'p>(alloc: Global, target: &'p TTarget, h: Here<'p>) -> Result<Next<'p>, NoMemory>
    requires { IsLaidOut h.program.now.aggregates }
    ensures { IfOk result (λ n. next_of n ≡ step.step_work (item.Assign target.now) (here_of h.entry)) }
{
    match value(h)? {
        Taken::Lost(next) => Ok(next),
        Taken::Took(words, h) => assign_words(alloc, target, words, h),
    }
}
