//! How many functions of a program are of each item.
ghost use Rattle.std.specs.Prelude.{◌≡◌, ◌+◌, ◌<◌, ◌^◌, [], length, take, IfOk};
ghost use Rattle.al_branches.specs.Tables as spec;

use al_base::NoMemory;
use al_declare::Defined;
use al_items::Items;
use std::alloc::Global;

/// None is of any of so many items.
#[tactic(auto, using(crate::proofs::CountsAre::none_more))]
pub(crate) fn none(alloc: Global, items: usize) -> Result<Items<usize>, NoMemory>
    ensures { IfOk result (λ uses. uses ≡ spec.all_uses [] items) }
{
    let mut uses = Items::with_capacity(alloc, items)?;
    for _ in 0..items {
        uses.push(0)?;
    }
    Ok(uses)
}

/// Function number `k` is of its item.
pub(crate) fn add(uses: &mut Items<usize>, defined: &[Defined], k: usize)
    requires short { length defined.now < 2 ^ 64 }
    requires within { k < length defined.now }
    requires so_far { uses.old ≡ spec.all_uses (take k defined.now) (length uses.old) }
    ensures { uses.new ≡ spec.all_uses (take (k + 1) defined.now) (length uses.old) }
{
    let d = defined[k];
    if d.item < uses.len() {
        let count = uses[d.item];
        uses.set(d.item, count + 1);
    }
}

/// How many functions each of so many items is.
pub(crate) fn all_uses(
    alloc: Global,
    defined: &[Defined],
    items: usize,
) -> Result<Items<usize>, NoMemory>
    ensures { IfOk result (λ uses. uses ≡ spec.all_uses defined.now items) }
{
    let mut uses = none(alloc, items)?;
    for k in 0..defined.len() {
        add(&mut uses, defined, k);
    }
    Ok(uses)
}
