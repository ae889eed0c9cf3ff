//! The line of an entry, both ways.

ghost use Rattle.std.specs.Prelude.{◌≡◌, ◌+◌, ◌<◌, ◌≤◌, ◌^◌, ◌↔◌, ◌==◌, ◌++◌, ◌∷◌, ℕ, List, Some, length, take, decimal, IsTrue, IfSome, IfNone, IsSomeAnd};
ghost use Rattle.std.specs.List.{position_from};
ghost use Rattle.al_event.specs.declared.entry.Entry.{Entry};
ghost use Rattle.al_trace.specs.Lines.{HasNo};
ghost use Rattle.al_trace.specs.Schedule.{entry_line, IsEntry};

use al_base::{put, put_number};
use al_event::Entry;

/// Room for three numbers of ten digits and the byte behind each.
pub(crate) const MOST_IN_LINE: usize = 33;

/// Puts an entry's line from the byte `at` on, and gives the byte after it.
pub(crate) fn put_entry(text: &mut [u8], at: usize, entry: &Entry) -> usize
    requires { at + 33 ≤ length text.old }
    ensures text { take result text.new ≡ take at text.old ++ entry_line entry.now }
    ensures short { result ≤ at + 33 }
{
    let mut end = put_number(text, at, entry.proc);
    end = put(text, end, b" ");
    end = put_number(text, end, u32::from(entry.pick));
    end = put(text, end, b" ");
    end = put_number(text, end, u32::from(entry.worker));
    put(text, end, b"\n")
}

/// The entry whose line this is.
pub(crate) fn entry_of(line: &[u8]) -> Option<Entry>
    ensures found { IfSome result (λ entry. IsEntry entry × (line.now ≡ entry_line entry)) }
    ensures none { IfNone result ((entry : Entry) → IsEntry entry → line.now ≡ entry_line entry → ⊥) }
{
    let entry = read_numbers(line)?;
    if is_line_of(line, &entry) {
        Some(entry)
    } else {
        None
    }
}

fn is_line_of(line: &[u8], entry: &Entry) -> bool
    ensures { IsTrue result ↔ (line.now ≡ entry_line entry.now) }
{
    let mut text = [0; MOST_IN_LINE];
    let len = put_entry(&mut text, 0, entry);
    line == &text[..len]
}

/// The three numbers of a line, where it is the line of an entry, and of other lines at most something alike.
fn read_numbers(line: &[u8]) -> Option<Entry>
    ensures bounds { IfSome result IsEntry }
    ensures only { (entry : Entry) → IsEntry entry → line.now ≡ entry_line entry → result ≡ Some entry }
{
    let (proc, rest) = cut(line, b' ')?;
    let (pick, rest) = cut(rest, b' ')?;
    let (worker, _) = cut(rest, b'\n')?;
    Some(Entry {
        proc: number_of(proc, 1 << 32)? as u32,
        pick: number_of(pick, 65_536)? as u16,
        worker: number_of(worker, 64)? as u8,
    })
}

/// What is before the first such byte, and what is after it.
fn cut(bytes: &[u8], at: u8) -> Option<(&[u8], &[u8])>
    ensures { (a b : List ℕ) → HasNo at a → bytes.now ≡ a ++ at ∷ b → IsSomeAnd result (λ parts. (parts.0.now ≡ a) × (parts.1.now ≡ b)) }
{
    let place = place_of(bytes, at)?;
    Some((&bytes[..place], &bytes[place + 1..]))
}

fn place_of(bytes: &[u8], at: u8) -> Option<usize>
    ensures place { result ≡ position_from (λ byte. byte == at) 0 bytes.now }
    ensures within { IfSome result (λ place. place < length bytes.now) }
{
    bytes.iter().position(|byte| *byte == at)
}

/// The number below a bound that these decimal digits write, and of other bytes at most something alike.
fn number_of(digits: &[u8], bound: u64) -> Option<u64>
    ensures below { IfSome result (λ n. n < bound) }
    ensures only { (n : ℕ) → n < bound → digits.now ≡ decimal n → result ≡ Some n }
{
    let n = parse(digits)?;
    if n < bound { Some(n) } else { None }
}

fn parse(digits: &[u8]) -> Option<u64>
    ensures { (n : ℕ) → n < 2 ^ 64 → digits.now ≡ decimal n → result ≡ Some n }
{
    match std::str::from_utf8(digits) {
        Ok(text) => text.parse().ok(),
        Err(_) => None,
    }
}
