//! Where the jumps in a statement lead.
ghost use Rattle.std.specs.Prelude.{◌≡◌, ◌∷◌, [], map, unwrap_or, IfOk};
ghost use Rattle.al_lower_code.specs.Statements as spec;
ghost use Rattle.al_lower_stmt.specs.Leading.{again_of, noted, targets_in};

use al_base::NoMemory;
use al_items::Items;
use std::alloc::Global;

/// How a loop goes on with its next round.
#[derive(Clone, Copy)]
pub enum Again {
    /// By a turn in its line to its start.
    Turned { line: u32, place: u32 },
    /// From a place further on.
    Onward { place: u32 },
}

/// The places of labels and rescues, and those behind the loops, switches and alts round a statement, the innermost first.
#[derive(Clone, Copy)]
pub struct Leading<'t> {
    /// By their numbers.
    pub labels: &'t [Option<u32>],
    pub behind: &'t [u32],
    pub again: &'t [Again],
}

/// The place of a label or rescue.
pub fn label_place(c: Leading<'_>, number: u32) -> u32
    ensures { result ≡ (targets_in c.entry).label number }
{
    let at = number as usize;
    if at < c.labels.len() {
        match c.labels[at] {
            Some(place) => place,
            None => 0,
        }
    } else {
        0
    }
}

/// Where a break leads that leaves so many loops, switches and alts.
pub fn behind_levels(c: Leading<'_>, levels: u32) -> u32
    ensures { result ≡ spec.at_level 0 levels (targets_in c.entry).behind }
{
    if levels == 0 {
        return 0;
    }
    let at = (levels - 1) as usize;
    if at < c.behind.len() { c.behind[at] } else { 0 }
}

/// How the loop of that number goes on.
pub fn again_at(c: Leading<'_>, levels: u32) -> Again
    ensures { again_of result ≡ spec.at_level (spec.Onward 0) levels (targets_in c.entry).again }
{
    if levels == 0 {
        return Again::Onward { place: 0 };
    }
    let at = (levels - 1) as usize;
    if at < c.again.len() {
        c.again[at]
    } else {
        Again::Onward { place: 0 }
    }
}

/// One more place, the innermost.
pub fn with_behind(alloc: Global, first: u32, behind: &[u32]) -> Result<Items<u32>, NoMemory>
    ensures { IfOk result (λ it. it ≡ first ∷ behind.now) }
{
    let mut more = Items::new(alloc);
    more.push(first)?;
    more.extend_from_slice(behind)?;
    Ok(more)
}

/// One more loop, the innermost.
pub fn with_again(alloc: Global, first: Again, again: &[Again]) -> Result<Items<Again>, NoMemory>
    ensures { IfOk result (λ it. it ≡ first ∷ again.now) }
{
    let mut more = Items::new(alloc);
    more.push(first)?;
    more.extend_from_slice(again)?;
    Ok(more)
}
