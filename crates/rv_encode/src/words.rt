// Words of lists of instructions.

ghost use Rattle.std.specs.Prelude.{◌≡◌, map, Some, IfOk};
ghost use Rattle.rv_isa.specs.Table.{instruction_of};

use crate::ranges::is_in_range;
use al_base::NoMemory;
use al_items::Items;
use rv_isa::encode;
use rv_isa::instr::Instr;
use std::alloc::Global;

/// The words of instructions. Where one has no word there is no code either.
pub fn words_of(alloc: Global, instrs: &[Instr]) -> Result<Items<u32>, NoMemory>
    ensures { IfOk result (λ words. map instruction_of words ≡ map Some instrs.now) }
{
    let mut words = Items::with_capacity(alloc, instrs.len())?;
    for instr in instrs {
        if !is_in_range(*instr) {
            return Err(NoMemory);
        }
        words.push(encode(*instr))?;
    }
    Ok(words)
}
