//! Functions of adts.
ghost use Rattle.std.specs.Prelude.{◌≡◌, IfOk};

use al_base::{NoMemory, Place};
use al_environment::{NamedFunction, Signature};
use al_items::Items;
use al_typed::Ty;
use std::alloc::Global;

/// A function that an adt declares.
#[derive(Drop)]
pub struct OwnFunction {
    pub at: Place,
    pub function: NamedFunction,
}

fn types(alloc: Global, list: &[Ty]) -> Result<Items<Ty>, NoMemory>
    ensures { IfOk result (λ ts. ts ≡ list.now) }
{
    let mut types = Items::with_capacity(alloc, list.len())?;
    for ty in list {
        let ty = ty.copy(alloc)?;
        types.push(ty)?;
    }
    Ok(types)
}

/// The same types of a function once more.
pub(crate) fn signature(alloc: Global, s: &Signature) -> Result<Signature, NoMemory>
    ensures { IfOk result (λ c. c ≡ s.now) }
{
    Ok(Signature {
        number: s.number,
        returns: s.returns.copy(alloc)?,
        parameters: types(alloc, s.parameters.as_slice())?,
    })
}

/// The same function once more.
pub(crate) fn own(alloc: Global, f: &NamedFunction) -> Result<NamedFunction, NoMemory>
    ensures { IfOk result (λ c. c ≡ f.now) }
{
    Ok(NamedFunction {
        name: f.name,
        path: Items::from_slice(alloc, f.path.as_slice())?,
        interns: Items::from_slice(alloc, f.interns.as_slice())?,
        passed: f.passed,
        signature: signature(alloc, &f.signature)?,
    })
}
