//! The elements of the channel types in types.
ghost use Rattle.std.specs.Prelude.{◌≡◌, OnOk};
ghost use Rattle.al_elements.specs.Elements as spec;

use al_base::NoMemory;
use al_items::Items;
use al_typed::Ty;
use std::alloc::Global;

/// Adds those in these types, one after the other.
#[cycle(elements_in)]
pub(crate) fn all_elements_in(
    alloc: Global,
    types: &[Ty],
    list: &mut Items<Ty>,
) -> Result<(), NoMemory>
    ensures { OnOk result (list.new ≡ spec.in_types types.now list.old) }
{
    for ty in types {
        elements_in(alloc, ty, list)?;
    }
    Ok(())
}

/// Adds the elements of the channel types in a type to a list, the outer one first. What is in aggregates stands there.
#[cycle(elements_in)]
#[tactic(auto, using(crate::proofs::ElementsAre::in_type_is))]
pub fn elements_in(alloc: Global, ty: &Ty, list: &mut Items<Ty>) -> Result<(), NoMemory>
    ensures { OnOk result (list.new ≡ spec.in_type ty.now list.old) }
{
    match ty {
        Ty::Void | Ty::Integer(_) | Ty::Aggregate(_) => Ok(()),
        Ty::Pointer(to) => elements_in(alloc, to.get(), list),
        Ty::Array { element, .. } => elements_in(alloc, element.get(), list),
        Ty::Chan { element, .. } => {
            let element = element.get();
            list.push(element.copy(alloc)?)?;
            elements_in(alloc, element, list)
        }
        Ty::Tuple(parts) => all_elements_in(alloc, parts.as_slice(), list),
        Ty::Function {
            returns,
            parameters,
        } => {
            elements_in(alloc, returns.get(), list)?;
            all_elements_in(alloc, parameters.as_slice(), list)
        }
    }
}
