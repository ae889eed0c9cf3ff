//! The lines of the text that code words come from.

ghost use Rattle.std.specs.Prelude.{◌≡◌};
ghost use Rattle.std.specs.List.Sorted.{IsNonDecreasingBy};
ghost use Rattle.rv_isa.specs.declared.image.LineRow.{LineRow};
ghost use Rattle.rv_isa.specs.Image.{IsWithin};
ghost use Rattle.rv_exec.specs.Machine.{line_at, line_of};

use rv_isa::addresses::CODE_START;
use rv_isa::image::{Contents, LineRow};

/// The line of the last row whose word is at or before word number `at`, 0 where there is none.
fn line_at(at: u32, rows: &[LineRow]) -> u32
    requires { IsNonDecreasingBy (λ (row : LineRow). row.word) rows.now }
    ensures { result ≡ line_at at rows.now }
{
    let after = rows.partition_point(|row| row.word <= at);
    if after == 0 { 0 } else { rows[after - 1].line }
}

/// The line of the code word that has the byte at pc, 0 outside the code.
pub fn line_of(image: &Contents, pc: u32) -> u32
    requires { IsWithin image.now }
    ensures { result ≡ line_of image.now pc }
{
    if pc < CODE_START {
        return 0;
    }
    let at = (pc - CODE_START) / 4;
    if (at as usize) < image.code.len() {
        line_at(at, image.lines.as_slice())
    } else {
        0
    }
}
