// Code that was emitted.

ghost use Rattle.std.specs.Prelude.{◌≡◌, ◌++◌, OnOk, nat_lt};
ghost use Rattle.rv_gen.specs.Emitting.{row_if};

use al_base::NoMemory;
use al_items::Items;
use rv_code::Reach;
use rv_isa::image::LineRow;
use rv_isa::instr::Instr;

/// Code that was emitted, with the lines of its words, the places of what stands in it, and how far the jumps of functions of
/// these widths go.
#[derive(Drop)]
pub struct Emitted {
    pub code: Vec<Instr>,
    pub lines: Items<LineRow>,
    pub entries: Items<u32>,
    pub starts: Items<Items<u32>>,
    pub dispatchers: Items<u32>,
    pub routines: Items<u32>,
    pub reaches: Items<Reach>,
}

/// Adds the row of a piece, where it has a word.
pub fn add_row(lines: &mut Items<LineRow>, at: u32, end: u32, line: u32) -> Result<(), NoMemory>
    ensures { OnOk result (lines.new ≡ lines.old ++ row_if (nat_lt at end) at line) }
{
    if at < end {
        lines.push(LineRow { word: at, line })
    } else {
        Ok(())
    }
}
