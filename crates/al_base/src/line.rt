ghost use Rattle.std.specs.Prelude.{◌≡◌, ◌+◌, ◌≤◌, ◌++◌, length, take, drop, decimal};

use itoa::Buffer;

/// Writes a piece of text into a line from the byte `at` on, and gives the byte after it.
pub fn put(line: &mut [u8], at: usize, piece: &[u8]) -> usize
    requires { at + length piece.now ≤ length line.old }
    ensures end { result ≡ at + length piece.now }
    ensures text { take result line.new ≡ take at line.old ++ piece.now }
    ensures rest { drop result line.new ≡ drop result line.old }
{
    let end = at + piece.len();
    line[at..end].copy_from_slice(piece);
    end
}

/// Writes a number in decimal digits into a line from the byte `at` on, and gives the byte after it. There is
/// room for ten digits, which no number here exceeds.
pub fn put_number(line: &mut [u8], at: usize, number: u32) -> usize
    requires { at + 10 ≤ length line.old }
    ensures end { result ≡ at + length (decimal number) }
    ensures short { result ≤ at + 10 }
    ensures text { take result line.new ≡ take at line.old ++ decimal number }
    ensures rest { drop result line.new ≡ drop result line.old }
{
    let mut digits = Buffer::new();
    put(line, at, digits.format(number).as_bytes())
}
