//! The limits on the types of a text.
ghost use Rattle.std.specs.Prelude.{◌≡◌, ◌∷◌, fold, Ok, Err, None, Some, IfOk, OnOk};
ghost use Rattle.al_type_limits.specs.declared.limit.TypeLimit.{TypeLimit as SpecLimit};
ghost use Rattle.al_type_limits.specs.Items as spec;
ghost use Rattle.al_type_limits.specs.Limits.{passed};

use crate::by_name::ByName;
use crate::item::{Found, add_item};
use crate::limit::{TypesStop, passed_by};
use crate::size::{Size, nothing};
use al_base::NoMemory;
use al_tree::{Item, Tree};
use std::alloc::Global;

fn add_items(found: &mut Found, items: &[Item]) -> Result<(), NoMemory>
    ensures { OnOk result (found.new ≡ fold spec.with_item found.old items.now) }
{
    for i in items {
        add_item(found, i)?;
    }
    Ok(())
}

/// The size of all types that a text writes.
#[tactic(auto, unfolding(crate::specs::Items::written))]
fn written(alloc: Global, items: &[Item]) -> Result<Size, NoMemory>
    ensures { IfOk result (λ size. size ≡ spec.written items.now) }
{
    let mut found = Found {
        names: ByName::new(alloc),
        sum: nothing(),
    };
    add_items(&mut found, items)?;
    Ok(found.sum)
}

/// Asks the limits on types of a tree. It looks at nothing else of it.
#[tactic(auto, unfolding(crate::specs::Limits::passed))]
pub fn types_within(alloc: Global, tree: &Tree) -> Result<(), TypesStop>
    ensures within { OnOk result (passed tree.now.items ≡ None) }
    ensures passed { (l : SpecLimit) → result ≡ Err (TypesStop.Limit l) → passed tree.now.items ≡ Some l }
{
    let size = written(alloc, tree.items.as_slice())?;
    match passed_by(size) {
        None => Ok(()),
        Some(limit) => Err(TypesStop::Limit(limit)),
    }
}
