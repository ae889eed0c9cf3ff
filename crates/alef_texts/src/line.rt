//! Lines of the log piece by piece, and that of a trap, with the line of the text in which it came.

ghost use Rattle.std.specs.Prelude.{◌≡◌, ◌+◌, ◌≤◌, ◌++◌, length, take, decimal};
ghost use Rattle.al_base.specs.declared.over.Over.TheVariants as Over;
ghost use Rattle.alef_texts.specs.Line.{naming};
ghost use Rattle.alef_texts.specs.Status.{line_of_end};

use crate::report::End;
use al_base::{Over, Trap, over_line};
use itoa::Buffer;

/// Writes a piece of text into a line from the byte `at` on, and gives the byte after it.
pub(crate) fn put(line: &mut [u8], at: usize, piece: &[u8]) -> usize
    requires { at + length piece.now ≤ length line.old }
    ensures end { result ≡ at + length piece.now }
    ensures text { take result line.new ≡ take at line.old ++ piece.now }
{
    let end = at + piece.len();
    line[at..end].copy_from_slice(piece);
    end
}

/// Writes a number in decimal digits, of which there are at most ten.
pub(crate) fn put_number(line: &mut [u8], at: usize, number: u32) -> usize
    requires { at + 10 ≤ length line.old }
    ensures end { result ≡ at + length (decimal number) }
    ensures short { result ≤ at + 10 }
    ensures text { take result line.new ≡ take at line.old ++ decimal number }
{
    let mut digits = Buffer::new();
    put(line, at, digits.format(number).as_bytes())
}

/// Writes a longer number in decimal digits, of which there are at most twenty.
pub(crate) fn put_long(line: &mut [u8], at: usize, number: u64) -> usize
    requires { at + 20 ≤ length line.old }
    ensures end { result ≡ at + length (decimal number) }
    ensures short { result ≤ at + 20 }
    ensures text { take result line.new ≡ take at line.old ++ decimal number }
{
    let mut digits = Buffer::new();
    put(line, at, digits.format(number).as_bytes())
}

/// Names a line of the text before the line feed of what stands in the first `len` bytes, and gives the new length.
fn name_line(buf: &mut [u8], len: usize, line: u32) -> usize
    requires some { 1 ≤ len }
    requires room { len + 17 ≤ length buf.old }
    ensures text { take result buf.new ≡ naming line (take len buf.old) }
    ensures within { result ≤ len + 17 }
{
    if line == 0 {
        return len;
    }
    let mut end = put(buf, len - 1, b", line ");
    end = put_number(buf, end, line);
    put(buf, end, b"\n")
}

/// Writes the line that the log gets for a trap to the front of a buffer, and gives its length.
pub(crate) fn trap_line(buf: &mut [u8; 80], trap: Trap, proc: u32, at: u32, line: u32) -> usize
    ensures text { take result buf.new ≡ line_of_end line (End.Ran (Over.Trapped trap proc at)) }
    ensures within { result ≤ 80 }
{
    let len = over_line(&Over::Trapped { trap, proc, at }, buf) as usize;
    name_line(buf, len, line)
}
