//! Lists of names by their numbers.
ghost use Rattle.std.specs.Prelude.{◌≡◌, ◌++◌, ◌≤◌, map, OnOk, IfOk};
ghost use Rattle.al_tree.specs.Types.{with_names};
ghost use Rattle.al_tree.specs.Items.{number_of};

use al_base::NoMemory;
use al_items::Items;
use al_tree::{Name, TypeNames};
use std::alloc::Global;

/// The numbers of names.
pub(crate) fn numbers_of(alloc: Global, names: &Items<Name>) -> Result<Items<u32>, NoMemory>
    ensures { IfOk result (λ all. all ≡ map number_of names.now) }
{
    let mut all = Items::new(alloc);
    for name in names.as_slice() {
        all.push(name.name)?;
    }
    Ok(all)
}

/// Makes types of these names too.
pub(crate) fn declare_all(types: &mut TypeNames, names: &Items<u32>) -> Result<(), NoMemory>
    ensures { OnOk result (types.new ≡ with_names types.old names.now) }
{
    for name in names.as_slice() {
        types.declare(*name)?;
    }
    Ok(())
}
