//! The adt at hand.
ghost use Rattle.std.specs.Prelude.{◌≡◌, map, IfOk};
ghost use Rattle.al_adt_functions.specs.Owned as spec;

use crate::owned::Owned;
use al_base::NoMemory;
use al_environment::{Here, InstanceType, Numbers, OwnAdt};
use al_items::Items;
use al_tree::Name;
use al_typed::Ty;
use std::alloc::Global;

/// Where no function is at hand.
pub(crate) fn here_in(alloc: Global, own: Option<OwnAdt>) -> Here
    ensures { result ≡ spec.here_in own }
{
    Here {
        own,
        locals: Items::new(alloc),
        around: Items::new(alloc),
        texts: Numbers::new(alloc),
        iterators: Numbers::new(alloc),
    }
}

/// An adt without parameters.
pub(crate) fn plain_owned(alloc: Global, name: u32, aggregate: u32) -> Owned
    ensures { result ≡ spec.plain_owned name aggregate }
{
    let own = OwnAdt {
        name,
        aggregate,
        parameters: Items::new(alloc),
        arguments: Items::new(alloc),
    };
    Owned {
        name,
        instance: None,
        aggregate,
        here: here_in(alloc, Some(own)),
    }
}

fn numbers_of(alloc: Global, list: &[Name]) -> Result<Items<u32>, NoMemory>
    ensures { IfOk result (λ ns. ns ≡ map spec.number_of list.now) }
{
    let mut numbers = Items::with_capacity(alloc, list.len())?;
    for n in list {
        numbers.push(n.name)?;
    }
    Ok(numbers)
}

fn copies(alloc: Global, list: &[Ty]) -> Result<Items<Ty>, NoMemory>
    ensures { IfOk result (λ ts. ts ≡ list.now) }
{
    let mut types = Items::with_capacity(alloc, list.len())?;
    for ty in list {
        let ty = ty.copy(alloc)?;
        types.push(ty)?;
    }
    Ok(types)
}

/// The instance of that number.
pub(crate) fn instance_owned(
    alloc: Global,
    k: usize,
    i: &InstanceType,
    parameters: &[Name],
) -> Result<Owned, NoMemory>
    ensures { IfOk result (λ o. o ≡ spec.instance_owned k i.now parameters.now) }
{
    let own = OwnAdt {
        name: i.adt,
        aggregate: i.aggregate,
        parameters: numbers_of(alloc, parameters)?,
        arguments: copies(alloc, i.arguments.as_slice())?,
    };
    Ok(Owned {
        name: i.adt,
        instance: Some(k),
        aggregate: i.aggregate,
        here: here_in(alloc, Some(own)),
    })
}
