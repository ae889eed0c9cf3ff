// Answers, cut to the size that their action has.

ghost use Rattle.std.specs.Prelude.{◌≡◌, ℕ, ◌++◌, ◌<◌, ◌%◌, ◌^◌, drop, slice_get, slice_index, IfOk, OnOk};
ghost use Rattle.al_world.specs.Control.{cut, received_by, talk_answer, branch_in, fitted};

use crate::lists::word_in;
use al_base::NoMemory;
use al_event::{Act, Branch, Words};
use al_items::Items;
use std::alloc::Global;

/// Adds `count` words, each modulo `below`: what is missing is 0, and what is too much is cut off.
fn add_cut(words: &mut Words, count: u32, below: u64, given: &[u32]) -> Result<(), NoMemory>
    requires { 0 < below }
    ensures { OnOk result (words.new ≡ words.old ++ cut count below given.now) }
{
    if count == 0 {
        return Ok(());
    }
    match given {
        [] => {
            words.push(0)?;
            add_cut(words, count - 1, below, given)
        }
        [word, rest @ ..] => {
            let cut = u64::from(*word) % below;
            words.push(cut as u32)?;
            add_cut(words, count - 1, below, rest)
        }
    }
}

/// So many words, each modulo `below`.
fn cut(alloc: Global, count: u32, below: u64, given: &[u32]) -> Result<Words, NoMemory>
    requires { 0 < below }
    ensures { IfOk result (λ words. words ≡ cut count below given.now) }
{
    let mut words = Items::new(alloc);
    add_cut(&mut words, count, below, given)?;
    Ok(words)
}

/// How many words the branch of a number receives.
fn received_by(branches: &[Branch], number: usize) -> u32
    ensures { result ≡ received_by (slice_get branches.now number) }
{
    match branches.get(number) {
        Some(branch) => {
            if branch.send.is_some() {
                0
            } else {
                branch.words
            }
        }
        None => 0,
    }
}

/// The words after the first.
fn later(words: &[u32]) -> &[u32]
    ensures { result.now ≡ drop 1 words.now }
{
    match words {
        [] => words,
        [_, rest @ ..] => rest,
    }
}

/// The answer to a talk: its branch, and the words that this receives.
fn talk_answer(alloc: Global, branches: &[Branch], given: &[u32]) -> Result<Words, NoMemory>
    ensures { IfOk result (λ words. words ≡ talk_answer branches.now (branch_in branches.now (slice_index given.now 0)) (drop 1 given.now)) }
{
    let named = word_in(given, 0);
    let number = if (named as usize) < branches.len() {
        named
    } else {
        0
    };
    let mut words = Items::new(alloc);
    words.push(number)?;
    let count = received_by(branches, number as usize);
    add_cut(&mut words, count, 0x1_0000_0000, later(given))?;
    Ok(words)
}

/// A number by which words leave the same remainders as by the number of values that so many bytes have.
#[tactic(auto, using(crate::proofs::Bounds::bounds_are))]
fn bound_of(size: u8) -> u64
    ensures same { (word : ℕ) → word < 2 ^ 32 → word % result ≡ word % 256 ^ size }
    ensures some { 0 < result }
{
    match size {
        0 => 1,
        1 => 0x100,
        2 => 0x1_0000,
        3 => 0x100_0000,
        _ => 0x1_0000_0000,
    }
}

/// The word that a load of so many bytes answers.
#[tactic(auto, using(crate::proofs::Bounds::first_is_cut))]
fn loaded(alloc: Global, size: u8, given: &[u32]) -> Result<Words, NoMemory>
    ensures { IfOk result (λ words. words ≡ cut 1 (256 ^ size) given.now) }
{
    let word = word_in(given, 0);
    let cut = u64::from(word) % bound_of(size);
    let mut words = Items::new(alloc);
    words.push(cut as u32)?;
    Ok(words)
}

/// The words that an answer to an action has.
pub fn fitted(alloc: Global, act: &Act, given: &[u32]) -> Result<Words, NoMemory>
    ensures { IfOk result (λ words. words ≡ fitted act.now given.now) }
{
    match act {
        Act::Load { size, .. } => loaded(alloc, *size, given),
        Act::Alloc { .. } | Act::NewChan { .. } => cut(alloc, 1, 0x1_0000_0000, given),
        Act::CanRecv { .. } | Act::CanSend { .. } => cut(alloc, 1, 2, given),
        Act::Talk { branches } => talk_answer(alloc, branches.as_slice(), given),
        _ => Ok(Items::new(alloc)),
    }
}
