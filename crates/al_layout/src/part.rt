//! What stands in a type by value.
ghost use Rattle.std.specs.Prelude.{◌≡◌, ◌++◌, map, IfOk, OnOk};
ghost use Rattle.std.specs.List.{flat_map};
ghost use Rattle.std.specs.Option.{option_to_list};
ghost use Rattle.al_layout.specs.Types as spec;

use crate::lookup::{form_named, form_of_instance};
use al_base::NoMemory;
use al_form::{Form, FormMember, Forms, MemberType};
use al_items::Items;
use al_poly::ConcreteType;
use std::alloc::Global;

fn push_form(out: &mut Items<usize>, form: Option<usize>) -> Result<(), NoMemory>
    ensures { OnOk result (out.new ≡ out.old ++ option_to_list form) }
{
    match form {
        None => Ok(()),
        Some(form) => out.push(form),
    }
}

/// Adds the forms that stand in types by value.
#[cycle(parts)]
#[tactic(auto, using(crate::proofs::PartsAre::rows))]
fn push_all(forms: &Forms, list: &[ConcreteType], out: &mut Items<usize>) -> Result<(), NoMemory>
    ensures { OnOk result (out.new ≡ out.old ++ flat_map (spec.parts forms.now) list.now) }
{
    for t in list {
        push_parts(forms, t, out)?;
    }
    Ok(())
}

/// Adds the forms that stand in a type by value.
#[cycle(parts)]
#[tactic(auto, using(crate::proofs::PartsAre::parts_are))]
fn push_parts(forms: &Forms, t: &ConcreteType, out: &mut Items<usize>) -> Result<(), NoMemory>
    ensures { OnOk result (out.new ≡ out.old ++ spec.parts forms.now t.now) }
{
    match t {
        ConcreteType::Basic(_)
        | ConcreteType::Chan { .. }
        | ConcreteType::Pointer(_)
        | ConcreteType::Function { .. } => Ok(()),
        ConcreteType::Named(name) => push_form(out, form_named(forms, *name)),
        ConcreteType::Instance { adt, arguments } => {
            push_form(out, form_of_instance(forms, *adt, arguments.as_slice()))
        }
        ConcreteType::Tuple(parts) => push_all(forms, parts.as_slice(), out),
        ConcreteType::Array { element, .. } => push_parts(forms, element.get(), out),
    }
}

fn push_member(forms: &Forms, ty: &MemberType, out: &mut Items<usize>) -> Result<(), NoMemory>
    ensures { OnOk result (out.new ≡ out.old ++ spec.member_parts forms.now ty.now) }
{
    match ty {
        MemberType::Written(None) => Ok(()),
        MemberType::Written(Some(t)) => push_parts(forms, t, out),
        MemberType::Inner(form) => out.push(*form),
    }
}

#[tactic(auto, using(crate::proofs::PartsAre::rows))]
fn push_members(
    forms: &Forms,
    members: &[FormMember],
    out: &mut Items<usize>,
) -> Result<(), NoMemory>
    ensures { OnOk result (out.new ≡ out.old ++ flat_map (λ m. spec.member_parts forms.now m.ty) members.now) }
{
    for m in members {
        push_member(forms, &m.ty, out)?;
    }
    Ok(())
}

fn form_parts(alloc: Global, forms: &Forms, form: &Form) -> Result<Items<usize>, NoMemory>
    ensures { IfOk result (λ ps. ps ≡ spec.form_parts forms.now form.now) }
{
    let mut out = Items::new(alloc);
    if let Some(members) = &form.members {
        push_members(forms, members.as_slice(), &mut out)?;
    }
    Ok(out)
}

/// The forms that stand in each by value, by number.
pub(crate) fn graph(alloc: Global, forms: &Forms) -> Result<Items<Items<usize>>, NoMemory>
    ensures { IfOk result (λ g. g ≡ map (spec.form_parts forms.now) forms.now.list) }
{
    let mut graph = Items::with_capacity(alloc, forms.list.len())?;
    for form in forms.list.as_slice() {
        let parts = form_parts(alloc, forms, form)?;
        graph.push(parts)?;
    }
    Ok(graph)
}
