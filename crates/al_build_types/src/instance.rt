//! Instances with their arguments.
ghost use Rattle.std.specs.Prelude.{◌≡◌, ◌++◌, map, IfOk, OnOk};
ghost use Rattle.std.specs.Option.{option_to_list};
ghost use Rattle.al_layout.specs.Types.{all_of, ty_of as resolved};
ghost use Rattle.al_build_types.specs.Built as spec;

use al_base::NoMemory;
use al_environment::InstanceType;
use al_form::{Forms, InstanceForm};
use al_items::Items;
use al_layout::{number_of_form, ty_of};
use al_poly::ConcreteType;
use al_typed::Ty;
use std::alloc::Global;

/// All of the types, if each has a meaning.
#[tactic(auto, using(al_layout::proofs::TypesAre::lists))]
fn arguments(
    alloc: Global,
    forms: &Forms,
    numbers: &[usize],
    list: &[ConcreteType],
) -> Result<Option<Items<Ty>>, NoMemory>
    ensures { IfOk result (λ ts. ts ≡ all_of (map (resolved forms.now numbers.now) list.now)) }
{
    let mut types = Items::new(alloc);
    for t in list {
        match ty_of(alloc, forms, numbers, t)? {
            None => return Ok(None),
            Some(ty) => types.push(ty)?,
        }
    }
    Ok(Some(types))
}

fn instance_with(
    adt: u32,
    arguments: Option<Items<Ty>>,
    number: Option<u32>,
) -> Option<InstanceType>
    ensures { result ≡ spec.instance_with adt arguments number }
{
    match arguments {
        None => None,
        Some(arguments) => match number {
            None => None,
            Some(aggregate) => Some(InstanceType {
                adt,
                arguments,
                aggregate,
            }),
        },
    }
}

/// An instance with its arguments. It is missing where an argument or its adt has no meaning.
pub fn instance_of(
    alloc: Global,
    forms: &Forms,
    numbers: &[usize],
    i: &InstanceForm,
) -> Result<Option<InstanceType>, NoMemory>
    ensures { IfOk result (λ t. t ≡ spec.instance forms.now numbers.now i.now) }
{
    let types = arguments(alloc, forms, numbers, i.instance.arguments.as_slice())?;
    Ok(instance_with(i.instance.adt, types, number_of_form(numbers, i.form)))
}

fn push(out: &mut Items<InstanceType>, i: Option<InstanceType>) -> Result<(), NoMemory>
    ensures { OnOk result (out.new ≡ out.old ++ option_to_list i) }
{
    match i {
        None => Ok(()),
        Some(i) => out.push(i),
    }
}

/// The instances that a text needs, with their arguments, in their order.
#[tactic(auto, using(crate::proofs::RangesAre::instances_are))]
pub fn instances(
    alloc: Global,
    forms: &Forms,
    numbers: &[usize],
) -> Result<Items<InstanceType>, NoMemory>
    ensures { IfOk result (λ is. is ≡ spec.instances forms.now numbers.now) }
{
    let mut out = Items::new(alloc);
    for i in forms.instances.as_slice() {
        let i = instance_of(alloc, forms, numbers, i)?;
        push(&mut out, i)?;
    }
    Ok(out)
}
