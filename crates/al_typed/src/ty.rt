ghost use Rattle.std.specs.Prelude.{◌≡◌, IfOk};

use al_base::{Kind, NoMemory};
use al_items::{Boxed, Items};
use std::alloc::Global;

/// A type. A value of one type stands for a value of another only by a conversion that the program shows, also where
/// two channel types differ in their capacity alone.
#[derive(Drop)]
pub enum Ty {
    Void,
    Integer(Kind),
    Pointer(Boxed<Ty>),
    Array {
        element: Boxed<Ty>,
        count: u32,
    },
    /// A channel. Its capacity is what `alloc` makes it with, and serves nothing else.
    Chan {
        element: Boxed<Ty>,
        capacity: u32,
    },
    Tuple(Items<Ty>),
    /// An aggr, a union, an adt or an instance of one, by its number in the list of the program.
    Aggregate(u32),
    /// The type of a function. No value has it; pointers to it are what a function's name stands for.
    Function {
        returns: Boxed<Ty>,
        parameters: Items<Ty>,
    },
}

impl Ty {
    /// The same type once more.
    #[cycle(copy)]
    pub fn copy(&self, alloc: Global) -> Result<Ty, NoMemory>
        ensures { IfOk result (λ t. t ≡ self.now) }
    {
        match self {
            Ty::Void => Ok(Ty::Void),
            Ty::Integer(kind) => Ok(Ty::Integer(*kind)),
            Ty::Pointer(to) => Ok(Ty::Pointer(to.get().boxed(alloc)?)),
            Ty::Array { element, count } => Ok(Ty::Array {
                element: element.get().boxed(alloc)?,
                count: *count,
            }),
            Ty::Chan { element, capacity } => Ok(Ty::Chan {
                element: element.get().boxed(alloc)?,
                capacity: *capacity,
            }),
            Ty::Tuple(parts) => Ok(Ty::Tuple(copies(alloc, parts.as_slice())?)),
            Ty::Aggregate(number) => Ok(Ty::Aggregate(*number)),
            Ty::Function {
                returns,
                parameters,
            } => Ok(Ty::Function {
                returns: returns.get().boxed(alloc)?,
                parameters: copies(alloc, parameters.as_slice())?,
            }),
        }
    }

    /// The same type once more, in a box.
    #[cycle(copy)]
    pub fn boxed(&self, alloc: Global) -> Result<Boxed<Ty>, NoMemory>
        ensures { IfOk result (λ t. t ≡ self.now) }
    {
        Boxed::new(alloc, self.copy(alloc)?)
    }
}

/// The same types once more.
#[cycle(copy)]
fn copies(alloc: Global, types: &[Ty]) -> Result<Items<Ty>, NoMemory>
    ensures { IfOk result (λ it. it ≡ types.now) }
{
    let mut out = Items::with_capacity(alloc, types.len())?;
    for ty in types {
        out.push(ty.copy(alloc)?)?;
    }
    Ok(out)
}
