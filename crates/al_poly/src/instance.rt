ghost use Rattle.std.specs.Prelude.{◌≡◌, IfOk};
ghost use Rattle.al_poly.specs.Concrete as spec;

use crate::concrete_type::{ConcreteType, copies};
use crate::equality::same_list;
use al_base::NoMemory;
use al_items::Items;
use std::alloc::Global;

/// An adt with parameters, by the number of its name, with a type for each parameter.
#[derive(Drop)]
pub struct Instance {
    pub adt: u32,
    pub arguments: Items<ConcreteType>,
}

/// The same instance once more.
pub(crate) fn copy_instance(alloc: Global, instance: &Instance) -> Result<Instance, NoMemory>
    ensures { IfOk result (λ i. i ≡ instance.now) }
{
    Ok(Instance {
        adt: instance.adt,
        arguments: copies(alloc, instance.arguments.as_slice())?,
    })
}

/// Whether two instances are one: their adts and their arguments are the same.
pub fn same_instance(a: &Instance, b: &Instance) -> bool
    ensures { result ≡ spec.same_instance a.now b.now }
{
    a.adt == b.adt && same_list(a.arguments.as_slice(), b.arguments.as_slice())
}
