//! The bytes that a global starts with.
ghost use Rattle.std.specs.Prelude.{◌≡◌, ◌+◌, ◌<◌, ◌≤◌, ◌^◌, ◌%◌, All, length, fold, replicate, IfOk, IfErr, OnOk, MatchOption};
ghost use Rattle.al_event.specs.Store.{bytes_of, overwritten};
ghost use Rattle.al_typed.specs.Layout.{IsLaidOut, size_of};
ghost use Rattle.al_meaning.specs.Places as places;
ghost use Rattle.al_control.specs.Fits.{Explains};
ghost use Rattle.al_opening.specs.Opening.{WordFits, StartFits, GlobalFits};

use al_base::NoMemory;
use al_control::Unmade;
use al_typed::{Global as GlobalRow, Program, StartValue, StartWord};
use al_variables::{small_size, text_place};
use std::alloc::Global;

/// The lowest 32 bits of the number that a start value stands for; none where a string stands too far on.
#[tactic(auto, using(crate::proofs::LowBytes::small_words))]
fn start_word(p: &Program, word: StartWord) -> Option<u32>
    requires { IsLaidOut p.now.aggregates }
    ensures { MatchOption result (WordFits p.now word → ⊥) (λ low. low ≡ places.start_number p.now word % 2 ^ 32) }
{
    match word {
        StartWord::Number(number) => Some(number),
        StartWord::Text(number) => {
            let at = text_place(p, number);
            if at < 0xffff_ffff_ffff_ffff {
                Some((at % 0x1_0000_0000) as u32)
            } else {
                None
            }
        }
    }
}

/// Puts the lowest `size` bytes of a word into bytes.
fn put(bytes: &mut [u8], at: usize, size: usize, word: u32)
    requires few { size ≤ 4 }
    requires within { at + size ≤ length bytes.old }
    ensures { bytes.new ≡ overwritten bytes.old at (bytes_of size word) }
{
    bytes[at..at + size].copy_from_slice(&word.to_le_bytes()[..size]);
}

/// Puts a start value into the bytes of its global.
#[tactic(auto, using(crate::proofs::LowBytes::low_bytes))]
fn put_start(p: &Program, bytes: &mut [u8], start: StartValue) -> Result<(), Unmade>
    requires { IsLaidOut p.now.aggregates }
    ensures put { OnOk result (bytes.new ≡ places.with_start p.now bytes.old start) }
    ensures why { IfErr result (λ e. Explains e (StartFits p.now (length bytes.old) start)) }
{
    let at = start.at as usize;
    let size = usize::from(start.size);
    if size > 4 {
        return Err(Unmade::TooLarge);
    }
    if at + size > bytes.len() {
        return Err(Unmade::TooLarge);
    }
    match start_word(p, start.word) {
        None => Err(Unmade::TooLarge),
        Some(word) => {
            put(bytes, at, size, word);
            Ok(())
        }
    }
}

/// Puts start values into the bytes of their global.
#[tactic(auto, using(crate::proofs::Explained::elements_explain))]
fn put_starts(p: &Program, bytes: &mut [u8], starts: &[StartValue]) -> Result<(), Unmade>
    requires { IsLaidOut p.now.aggregates }
    ensures put { OnOk result (bytes.new ≡ fold (places.with_start p.now) bytes.old starts.now) }
    ensures why { IfErr result (λ e. Explains e (All (StartFits p.now (length bytes.old)) starts.now)) }
{
    for start in starts {
        put_start(p, bytes, *start)?;
    }
    Ok(())
}

fn zeros(alloc: Global, size: u32) -> Result<Vec<u8>, NoMemory>
    ensures { IfOk result (λ bytes. bytes.items ≡ replicate size 0) }
{
    Ok(vec![in alloc; 0; size as usize]?)
}

/// The bytes that a global of so many starts with.
fn started(alloc: Global, p: &Program, starts: &[StartValue], size: u32) -> Result<Vec<u8>, Unmade>
    requires { IsLaidOut p.now.aggregates }
    ensures bytes { IfOk result (λ bytes. bytes.items ≡ fold (places.with_start p.now) (replicate size 0) starts.now) }
    ensures count { IfOk result (λ bytes. length bytes.items ≡ size) }
    ensures why { IfErr result (λ e. Explains e (All (StartFits p.now size) starts.now)) }
{
    let mut bytes = zeros(alloc, size)?;
    put_starts(p, &mut bytes, starts)?;
    Ok(bytes)
}

/// The bytes that a global starts with, at least 1 and fewer than 2^32.
pub(crate) fn global_bytes(
    alloc: Global,
    p: &Program,
    global: &GlobalRow,
) -> Result<Vec<u8>, Unmade>
    requires { IsLaidOut p.now.aggregates }
    ensures bytes { IfOk result (λ bytes. bytes.items ≡ places.global_bytes p.now global.now) }
    ensures some { IfOk result (λ bytes. 0 < length bytes.items) }
    ensures few { IfOk result (λ bytes. length bytes.items < 2 ^ 32) }
    ensures why { IfErr result (λ e. Explains e (GlobalFits p.now global.now)) }
{
    match small_size(p, &global.ty) {
        None => Err(Unmade::TooLarge),
        Some(size) => {
            if size == 0 {
                return Err(Unmade::TooLarge);
            }
            started(alloc, p, global.start.as_slice(), size)
        }
    }
}
