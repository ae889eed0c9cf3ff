//! What was found is taken off its frame.
ghost use Rattle.std.specs.Prelude.{◌≡◌, ℕ, List, [], ◌∷◌, map, IfOk};
ghost use Rattle.al_meaning.specs.Calls as calls;
ghost use Rattle.al_meaning.specs.Items as item;
ghost use Rattle.al_meaning.specs.Here as step;
ghost use Rattle.al_control.specs.Models.{found_of, here_of, next_of};
ghost use Rattle.al_control.specs.Takes.{Keeps, taken_by};

use crate::control::{Here, Next};
use crate::here::lost;
use crate::stack::Stack;
use crate::work::Found;
use al_base::NoMemory;
use al_control_values::split_word;
use al_event::Words;
use al_items::Items;
use std::alloc::Global;

/// What was taken, and the frame without it; or what is wanted was not found, and the task is lost.
#[derive(Drop)]
pub enum Taken<'p, T> {
    Took(T, Here<'p>),
    Lost(Next<'p>),
}

/// The task is lost, and this is found as it was.
fn lost_with<'p>(h: Here<'p>, found: Found) -> Result<Next<'p>, NoMemory>
    ensures { IfOk result (λ n. next_of n ≡ step.lost (step.with_found (found_of found ∷ map found_of h.entry.frame.found) (here_of h.entry))) }
{
    let mut h = h;
    h.frame.found.push(found)?;
    lost(h)
}

/// What was found as a value, where it is one.
fn value_of<'p>(found: Found, h: Here<'p>) -> Result<Taken<'p, Words>, NoMemory>
    ensures taken { IfOk result (λ t. (k : List ℕ → step.Here → step.Next) → let all = found_of found ∷ map found_of h.entry.frame.found in step.value_taken all (step.with_found all (here_of h.entry)) k ≡ taken_by t k) }
    ensures keeps { IfOk result (λ t. Keeps h.entry.program.now t) }
{
    match found {
        Found::Words(words) => Ok(Taken::Took(words, h)),
        Found::Address(at) => Ok(Taken::Lost(lost_with(h, Found::Address(at))?)),
        Found::Local(number) => Ok(Taken::Lost(lost_with(h, Found::Local(number))?)),
        Found::Private(number) => Ok(Taken::Lost(lost_with(h, Found::Private(number))?)),
        Found::Nowhere => Ok(Taken::Lost(lost_with(h, Found::Nowhere)?)),
    }
}

/// The value that was found last.
pub fn value<'p>(h: Here<'p>) -> Result<Taken<'p, Words>, NoMemory>
    ensures taken { IfOk result (λ t. (k : List ℕ → step.Here → step.Next) → step.with_value (here_of h.entry) k ≡ taken_by t k) }
    ensures keeps { IfOk result (λ t. Keeps h.entry.program.now t) }
{
    let mut h = h;
    match h.frame.found.pop() {
        None => Ok(Taken::Lost(lost(h)?)),
        Some(found) => value_of(found, h),
    }
}

/// The first word of the value that was found last.
pub fn word<'p>(h: Here<'p>) -> Result<Taken<'p, u32>, NoMemory>
    ensures taken { IfOk result (λ t. (k : ℕ → step.Here → step.Next) → step.with_word (here_of h.entry) k ≡ taken_by t k) }
    ensures keeps { IfOk result (λ t. Keeps h.entry.program.now t) }
{
    match value(h)? {
        Taken::Lost(next) => Ok(Taken::Lost(next)),
        Taken::Took(words, h) => {
            let (word, _) = split_word(words.as_slice());
            Ok(Taken::Took(word, h))
        }
    }
}

/// Two values, the one that was found first before the other.
pub fn two_values<'p>(h: Here<'p>) -> Result<Taken<'p, (Words, Words)>, NoMemory>
    ensures taken { IfOk result (λ t. (k : List ℕ → List ℕ → step.Here → step.Next) → step.with_two (here_of h.entry) k ≡ taken_by t (λ both at. k both.0 both.1 at)) }
    ensures keeps { IfOk result (λ t. Keeps h.entry.program.now t) }
{
    match value(h)? {
        Taken::Lost(next) => Ok(Taken::Lost(next)),
        Taken::Took(second, h) => match value(h)? {
            Taken::Lost(next) => Ok(Taken::Lost(next)),
            Taken::Took(first, h) => Ok(Taken::Took((first, second), h)),
        },
    }
}

/// The place that was found last, or that a part is dropped.
pub fn place<'p>(h: Here<'p>) -> Result<Taken<'p, Found>, NoMemory>
    ensures taken { IfOk result (λ t. (k : item.Found → step.Here → step.Next) → step.with_place (here_of h.entry) k ≡ taken_by t (λ f at. k (found_of f) at)) }
    ensures keeps { IfOk result (λ t. Keeps h.entry.program.now t) }
{
    let mut h = h;
    match h.frame.found.pop() {
        Some(found) => Ok(Taken::Took(found, h)),
        None => Ok(Taken::Lost(lost(h)?)),
    }
}

/// The address of what was found, where it has one.
fn address_of<'p>(found: Found, h: Here<'p>) -> Result<Taken<'p, u32>, NoMemory>
    ensures taken { IfOk result (λ t. (k : ℕ → step.Here → step.Next) → step.at_address k (found_of found) (here_of h.entry) ≡ taken_by t k) }
    ensures keeps { IfOk result (λ t. Keeps h.entry.program.now t) }
{
    match found {
        Found::Address(at) => Ok(Taken::Took(at, h)),
        Found::Words(_) => Ok(Taken::Lost(lost(h)?)),
        Found::Local(_) => Ok(Taken::Lost(lost(h)?)),
        Found::Private(_) => Ok(Taken::Lost(lost(h)?)),
        Found::Nowhere => Ok(Taken::Lost(lost(h)?)),
    }
}

/// The address of the place that was found last.
pub fn address<'p>(h: Here<'p>) -> Result<Taken<'p, u32>, NoMemory>
    ensures taken { IfOk result (λ t. (k : ℕ → step.Here → step.Next) → step.with_address (here_of h.entry) k ≡ taken_by t k) }
    ensures keeps { IfOk result (λ t. Keeps h.entry.program.now t) }
{
    match place(h)? {
        Taken::Lost(next) => Ok(Taken::Lost(next)),
        Taken::Took(found, h) => address_of(found, h),
    }
}

/// So many values, the one that was found first before the others.
pub fn values<'p>(
    alloc: Global,
    count: usize,
    h: Here<'p>,
) -> Result<Taken<'p, Stack<Words>>, NoMemory>
    ensures taken { IfOk result (λ t. (k : List (List ℕ) → step.Here → step.Next) → step.with_values count (here_of h.entry) k ≡ taken_by t k) }
    ensures keeps { IfOk result (λ t. Keeps h.entry.program.now t) }
{
    let mut h = h;
    let mut values = Stack::new(alloc);
    for _ in 0..count {
        match value(h)? {
            Taken::Lost(next) => return Ok(Taken::Lost(next)),
            Taken::Took(words, rest) => {
                values.push(words)?;
                h = rest;
            }
        }
    }
    Ok(Taken::Took(values, h))
}

/// So many places, the one that was found first before the others.
pub fn places<'p>(
    alloc: Global,
    count: usize,
    h: Here<'p>,
) -> Result<Taken<'p, Stack<Found>>, NoMemory>
    ensures taken { IfOk result (λ t. (k : List item.Found → step.Here → step.Next) → step.places_before count [] (here_of h.entry) k ≡ taken_by t (λ fs at. k (map found_of fs) at)) }
    ensures keeps { IfOk result (λ t. Keeps h.entry.program.now t) }
{
    let mut h = h;
    let mut places = Stack::new(alloc);
    for _ in 0..count {
        match place(h)? {
            Taken::Lost(next) => return Ok(Taken::Lost(next)),
            Taken::Took(found, rest) => {
                places.push(found)?;
                h = rest;
            }
        }
    }
    Ok(Taken::Took(places, h))
}

/// The words of several values as those of one.
pub fn joined(alloc: Global, values: Stack<Words>) -> Result<Words, NoMemory>
    ensures { IfOk result (λ ws. ws ≡ calls.joined values) }
{
    let mut values = values;
    let mut words = Items::new(alloc);
    while let Some(more) = values.pop() {
        words.append(more)?;
    }
    Ok(words)
}
