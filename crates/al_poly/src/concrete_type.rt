ghost use Rattle.std.specs.Prelude.{◌≡◌, IfOk};
ghost use Rattle.al_poly.specs.Concrete as spec;

use al_base::NoMemory;
use al_items::{Boxed, Items};
use al_tree::BasicType;
use std::alloc::Global;

/// A type in which no parameter of an adt and no name of another type is left.
#[derive(Drop)]
pub enum ConcreteType {
    Basic(BasicType),
    /// An aggr, a union, or an adt without parameters, by the number of its name.
    Named(u32),
    /// An adt with parameters, by the number of its name, with their arguments.
    Instance {
        adt: u32,
        arguments: Items<ConcreteType>,
    },
    Tuple(Items<ConcreteType>),
    /// A channel. Its capacity is 0 where none is written.
    Chan {
        element: Boxed<ConcreteType>,
        capacity: u32,
    },
    Pointer(Boxed<ConcreteType>),
    Array {
        element: Boxed<ConcreteType>,
        count: u32,
    },
    Function {
        returns: Boxed<ConcreteType>,
        parameters: Items<ConcreteType>,
    },
}

/// The same types once more.
#[cycle(copy)]
pub(crate) fn copies(alloc: Global, types: &[ConcreteType]) -> Result<Items<ConcreteType>, NoMemory>
    ensures { IfOk result (λ it. it ≡ types.now) }
{
    let mut out = Items::with_capacity(alloc, types.len())?;
    for ty in types {
        out.push(copy(alloc, ty)?)?;
    }
    Ok(out)
}

#[cycle(copy)]
fn boxed(alloc: Global, ty: &ConcreteType) -> Result<Boxed<ConcreteType>, NoMemory>
    ensures { IfOk result (λ t. t ≡ ty.now) }
{
    Boxed::new(alloc, copy(alloc, ty)?)
}

/// The same type once more.
#[cycle(copy)]
pub(crate) fn copy(alloc: Global, ty: &ConcreteType) -> Result<ConcreteType, NoMemory>
    ensures { IfOk result (λ t. t ≡ ty.now) }
{
    match ty {
        ConcreteType::Basic(basic) => Ok(ConcreteType::Basic(*basic)),
        ConcreteType::Named(name) => Ok(ConcreteType::Named(*name)),
        ConcreteType::Instance { adt, arguments } => Ok(ConcreteType::Instance {
            adt: *adt,
            arguments: copies(alloc, arguments.as_slice())?,
        }),
        ConcreteType::Tuple(parts) => { Ok(ConcreteType::Tuple(copies(alloc, parts.as_slice())?)) }
        ConcreteType::Chan { element, capacity } => Ok(ConcreteType::Chan {
            element: boxed(alloc, element.get())?,
            capacity: *capacity,
        }),
        ConcreteType::Pointer(to) => Ok(ConcreteType::Pointer(boxed(alloc, to.get())?)),
        ConcreteType::Array { element, count } => Ok(ConcreteType::Array {
            element: boxed(alloc, element.get())?,
            count: *count,
        }),
        ConcreteType::Function {
            returns,
            parameters,
        } => Ok(ConcreteType::Function {
            returns: boxed(alloc, returns.get())?,
            parameters: copies(alloc, parameters.as_slice())?,
        }),
    }
}
