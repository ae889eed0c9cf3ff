//! The adt whose function is at hand.
ghost use Rattle.std.specs.Prelude.{◌≡◌, map, IfOk};
ghost use Rattle.std.specs.Option.{option_copied};
ghost use Rattle.al_adt_functions.specs.Owned as owned;
ghost use Rattle.al_type_function.specs.Own as spec;

use al_base::NoMemory;
use al_environment::{Environment, Here, InstanceType, Numbers, OwnAdt, plain_type};
use al_items::Items;
use al_member_names::aggregate_if;
use al_tree::{Name, Owner};
use al_type_nodes::copies;
use std::alloc::Global;

/// Where nothing but that adt is at hand.
pub(crate) fn here_in(alloc: Global, own: Option<OwnAdt>) -> Here
    ensures { result ≡ owned.here_in own }
{
    Here {
        own,
        locals: Items::new(alloc),
        around: Items::new(alloc),
        texts: Numbers::new(alloc),
        iterators: Numbers::new(alloc),
    }
}

/// The number that an adt without parameters has as a type with members.
fn aggregate_named(alloc: Global, env: &Environment, name: u32) -> Result<Option<u32>, NoMemory>
    ensures { IfOk result (λ n. n ≡ owned.aggregate_named env.now name) }
{
    let here = here_in(alloc, None);
    let ty = plain_type(alloc, env, &here, name)?;
    Ok(aggregate_if(&ty))
}

fn plain_adt(alloc: Global, name: u32, aggregate: Option<u32>) -> Option<OwnAdt>
    ensures { result ≡ spec.plain_adt name aggregate }
{
    match aggregate {
        None => None,
        Some(aggregate) => Some(OwnAdt {
            name,
            aggregate,
            parameters: Items::new(alloc),
            arguments: Items::new(alloc),
        }),
    }
}

fn numbers_of(alloc: Global, list: &[Name]) -> Result<Items<u32>, NoMemory>
    ensures { IfOk result (λ ns. ns ≡ map owned.number_of list.now) }
{
    let mut numbers = Items::with_capacity(alloc, list.len())?;
    for n in list {
        numbers.push(n.name)?;
    }
    Ok(numbers)
}

fn instance_adt(
    alloc: Global,
    i: Option<&InstanceType>,
    parameters: &[Name],
) -> Result<Option<OwnAdt>, NoMemory>
    ensures { IfOk result (λ a. a ≡ spec.instance_adt (option_copied i.entry) parameters.now) }
{
    match i {
        None => Ok(None),
        Some(i) => {
            let parameters = numbers_of(alloc, parameters)?;
            let arguments = copies(alloc, i.arguments.as_slice())?;
            Ok(Some(OwnAdt {
                name: i.adt,
                aggregate: i.aggregate,
                parameters,
                arguments,
            }))
        }
    }
}

fn adt_of(
    alloc: Global,
    env: &Environment,
    owner: &Owner,
    instance: Option<usize>,
) -> Result<Option<OwnAdt>, NoMemory>
    ensures { IfOk result (λ a. a ≡ spec.adt_of env.now owner.now instance) }
{
    match instance {
        None => {
            let name = owner.adt.name;
            let aggregate = aggregate_named(alloc, env, name)?;
            Ok(plain_adt(alloc, name, aggregate))
        }
        Some(k) => instance_adt(alloc, env.instances.get(k), owner.parameters.as_slice()),
    }
}

/// The adt whose function has that owner, for an instance of it the one of that number.
pub(crate) fn own_adt(
    alloc: Global,
    env: &Environment,
    owner: &Option<Owner>,
    instance: Option<usize>,
) -> Result<Option<OwnAdt>, NoMemory>
    ensures { IfOk result (λ a. a ≡ spec.own_adt env.now owner.now instance) }
{
    match owner {
        None => Ok(None),
        Some(owner) => adt_of(alloc, env, owner, instance),
    }
}
