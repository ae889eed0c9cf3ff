// Counts of procs, by their numbers; a proc past the end has 0.

ghost use Rattle.std.specs.Prelude.{◌≡◌, ◌<◌, length, IfOk};
ghost use Rattle.al_world.specs.World.{at_proc};
ghost use Rattle.al_script.specs.Worlds.{counts_of};

use crate::lists::word_in;
use al_base::NoMemory;
use al_items::Items;

/// The count of a proc, 0 where there is none.
#[tactic(auto, using(crate::proofs::CountsOf::counts_at))]
pub fn count_in(counts: &[u32], proc: u32) -> u32
    ensures { result ≡ counts_of counts.now proc }
{
    word_in(counts, proc as usize)
}

/// The same counts, with a place for that proc.
#[tactic(auto, using(crate::proofs::CountsOf::padded_are))]
fn with_place(counts: Items<u32>, proc: u32) -> Result<Items<u32>, NoMemory>
    ensures same { IfOk result (λ after. counts_of after ≡ counts_of counts) }
    ensures place { IfOk result (λ after. proc < length after) }
{
    let mut counts = counts;
    while counts.len() <= proc as usize {
        counts.push(0)?;
    }
    Ok(counts)
}

/// The counts with another one for a proc.
#[tactic(auto, using(crate::proofs::CountsOf::counts_are))]
pub fn with_count(counts: Items<u32>, proc: u32, count: u32) -> Result<Items<u32>, NoMemory>
    ensures { IfOk result (λ after. counts_of after ≡ at_proc proc count (counts_of counts)) }
{
    let mut counts = with_place(counts, proc)?;
    counts.set(proc as usize, count);
    Ok(counts)
}
