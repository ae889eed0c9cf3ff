//! Types and instances once more.
ghost use Rattle.std.specs.Prelude.{◌≡◌, IfOk};

use al_base::NoMemory;
use al_items::{Boxed, Items};
use al_poly::{ConcreteType, Instance};
use std::alloc::Global;

/// The same types once more.
#[cycle(copy)]
fn copies(alloc: Global, types: &[ConcreteType]) -> Result<Items<ConcreteType>, NoMemory>
    ensures { IfOk result (λ it. it ≡ types.now) }
{
    let mut out = Items::with_capacity(alloc, types.len())?;
    for ty in types {
        out.push(copy(alloc, ty)?)?;
    }
    Ok(out)
}

#[cycle(copy)]
fn boxed(alloc: Global, ty: &ConcreteType) -> Result<Boxed<ConcreteType>, NoMemory>
    ensures { IfOk result (λ t. t ≡ ty.now) }
{
    Boxed::new(alloc, copy(alloc, ty)?)
}

/// The same type once more.
#[cycle(copy)]
fn copy(alloc: Global, ty: &ConcreteType) -> Result<ConcreteType, NoMemory>
    ensures { IfOk result (λ t. t ≡ ty.now) }
{
    match ty {
        ConcreteType::Basic(basic) => Ok(ConcreteType::Basic(*basic)),
        ConcreteType::Named(name) => Ok(ConcreteType::Named(*name)),
        ConcreteType::Instance { adt, arguments } => Ok(ConcreteType::Instance {
            adt: *adt,
            arguments: copies(alloc, arguments.as_slice())?,
        }),
        ConcreteType::Tuple(parts) => { Ok(ConcreteType::Tuple(copies(alloc, parts.as_slice())?)) }
        ConcreteType::Chan { element, capacity } => Ok(ConcreteType::Chan {
            element: boxed(alloc, element.get())?,
            capacity: *capacity,
        }),
        ConcreteType::Pointer(to) => Ok(ConcreteType::Pointer(boxed(alloc, to.get())?)),
        ConcreteType::Array { element, count } => Ok(ConcreteType::Array {
            element: boxed(alloc, element.get())?,
            count: *count,
        }),
        ConcreteType::Function {
            returns,
            parameters,
        } => Ok(ConcreteType::Function {
            returns: boxed(alloc, returns.get())?,
            parameters: copies(alloc, parameters.as_slice())?,
        }),
    }
}

/// The same instance once more.
pub(crate) fn copy_instance(alloc: Global, instance: &Instance) -> Result<Instance, NoMemory>
    ensures { IfOk result (λ i. i ≡ instance.now) }
{
    Ok(Instance {
        adt: instance.adt,
        arguments: copies(alloc, instance.arguments.as_slice())?,
    })
}
