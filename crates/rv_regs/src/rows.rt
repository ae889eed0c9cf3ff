//! Ten registers, and the operations before which each is taken.

ghost use Rattle.std.specs.Prelude.{◌≡◌, ◌<◌, true, length, IfOk, MatchOption};
ghost use Rattle.rv_regs.specs.Marks.{are_clear, marked};
ghost use Rattle.rv_regs.specs.Rows.{row, Takes, AreEmpty, AreTaken};

use crate::marks::{are_clear, joined};
use al_base::NoMemory;
use al_items::Items;
use std::alloc::Global;

/// Slots have this register and the nine behind it.
pub const FIRST_REGISTER: u8 = 18;

const REGISTERS: usize = 10;

/// Nothing is taken.
pub fn no_rows(alloc: Global) -> Result<Items<Items<bool>>, NoMemory>
    ensures { IfOk result (λ taken. AreEmpty taken) }
{
    let mut taken = Items::new(alloc);
    for _k in 0..REGISTERS {
        taken.push(Items::new(alloc))?;
    }
    Ok(taken)
}

/// The first row that is free wherever it would be busy.
fn free_row(taken: &[Items<bool>], busy: &[bool]) -> Option<usize>
    ensures within { MatchOption result (AreTaken taken.now busy.now) (λ k. k < length taken.now) }
    ensures clear { MatchOption result (Unit {0}) (λ k. are_clear (row taken.now k) 0 busy.now ≡ true) }
{
    for k in 0..taken.len() {
        if are_clear(taken[k].as_slice(), busy) {
            return Some(k);
        }
    }
    None
}

/// Takes a row that is free wherever it would be busy, if one is.
pub fn take_row(
    alloc: Global,
    taken: &mut Items<Items<bool>>,
    busy: &[bool],
) -> Result<Option<u8>, NoMemory>
    requires { length taken.old ≡ 10 }
    ensures { IfOk result (λ r. MatchOption r ((taken.new ≡ taken.old) × AreTaken taken.old busy.now) (λ k. Takes k busy.now taken.old taken.new)) }
{
    match free_row(taken.as_slice(), busy) {
        Some(k) => {
            let more = joined(alloc, taken.as_slice()[k].as_slice(), busy)?;
            taken.set(k, more);
            Ok(Some(k as u8))
        }
        None => Ok(None),
    }
}
