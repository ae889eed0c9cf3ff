//! Numbers as words.
ghost use Rattle.std.specs.Prelude.{◌≡◌, ◌≤◌, ◌<◌, ◌^◌, slice_index, MatchOption};
ghost use Rattle.al_typed.specs.Layout.{IsLaidOut, words_of};

use al_control_values::words_in;
use al_typed::{Aggregate, Ty};

/// A number as a word, where it is one.
pub fn word_of(number: u64) -> Option<u32>
    ensures { MatchOption result (2 ^ 32 ≤ number) (λ word. (word ≡ number) × (number < 2 ^ 32)) }
{
    if number < 0x1_0000_0000 {
        Some(number as u32)
    } else {
        None
    }
}

/// The word of that number, 0 where there is none.
pub fn word_at(words: &[u32], number: u32) -> u32
    ensures { result ≡ slice_index words.now number }
{
    match words.get(number as usize) {
        None => 0,
        Some(word) => *word,
    }
}

/// How many words a value takes privately, where they are few enough for a word.
pub fn few_words(rows: &[Aggregate], ty: &Ty) -> Option<u32>
    requires { IsLaidOut rows.now }
    ensures { MatchOption result (words_of rows.now ty.now < 2 ^ 32 → ⊥) (λ count. count ≡ words_of rows.now ty.now) }
{
    word_of(words_in(rows, ty))
}
