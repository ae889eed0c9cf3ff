//! The members of types.
ghost use Rattle.std.specs.Prelude.{◌≡◌, fold, OnOk, IfOk};
ghost use Rattle.al_form.specs.Forms as spec;

use crate::form::{FormMember, MemberType};
use crate::found::Found;
use al_base::{NoMemory, Place};
use al_poly::{Instance, Names, declared, type_of};
use al_tree::{AdtMember, AdtPart, Dcl, Member, Scope, TypeTree};
use std::alloc::Global;

fn field(
    alloc: Global,
    names: &Names,
    inside: &Option<Instance>,
    is_intern: bool,
    base: &TypeTree,
    dcl: &Dcl,
) -> Result<FormMember, NoMemory>
    ensures { IfOk result (λ m. m ≡ spec.field names.now inside.now is_intern base.now dcl.now) }
{
    let ty = declared(alloc, names, inside, base, dcl)?;
    Ok(FormMember {
        at: dcl.at,
        name: Some(dcl.name.name),
        ty: MemberType::Written(ty),
        is_intern,
    })
}

fn fields(
    alloc: Global,
    names: &Names,
    inside: &Option<Instance>,
    w: &mut Found,
    is_intern: bool,
    base: &TypeTree,
    list: &[Dcl],
) -> Result<(), NoMemory>
    ensures { OnOk result (w.new ≡ fold (spec.with_field names.now inside.now is_intern base.now) w.old list.now) }
{
    for dcl in list {
        let member = field(alloc, names, inside, is_intern, base, dcl)?;
        w.push(member)?;
    }
    Ok(())
}

fn unnamed(
    alloc: Global,
    names: &Names,
    inside: &Option<Instance>,
    w: &mut Found,
    is_intern: bool,
    at: Place,
    of: &TypeTree,
) -> Result<(), NoMemory>
    ensures { OnOk result (w.new ≡ spec.with_member (spec.unnamed names.now inside.now is_intern at of.now) w.old) }
{
    let ty = type_of(alloc, names, inside, of)?;
    w.push(FormMember {
        at,
        name: None,
        ty: MemberType::Written(ty),
        is_intern,
    })
}

/// Members that are not intern.
#[cycle(member)]
pub(crate) fn plain_members(
    alloc: Global,
    names: &Names,
    inside: &Option<Instance>,
    w: &mut Found,
    list: &[Member],
) -> Result<(), NoMemory>
    ensures { OnOk result (w.new ≡ fold (spec.with_plain names.now inside.now) w.old list.now) }
{
    for m in list {
        member(alloc, names, inside, w, false, m)?;
    }
    Ok(())
}

/// A member.
#[cycle(member)]
#[tactic(auto, using(crate::proofs::MembersAre::member_is))]
fn member(
    alloc: Global,
    names: &Names,
    inside: &Option<Instance>,
    w: &mut Found,
    is_intern: bool,
    m: &Member,
) -> Result<(), NoMemory>
    ensures { OnOk result (w.new ≡ spec.member names.now inside.now m.now is_intern w.old) }
{
    match m {
        Member::Fields {
            base,
            fields: list,
            ..
        } => fields(alloc, names, inside, w, is_intern, base, list.as_slice()),
        Member::Unnamed { at, of } => unnamed(alloc, names, inside, w, is_intern, *at, of),
        Member::Inner {
            at,
            kind,
            members: list,
        } => {
            let before = w.open(alloc);
            plain_members(alloc, names, inside, w, list.as_slice())?;
            w.close_inner(before, *at, *kind, is_intern)
        }
    }
}

fn is_intern(scope: Option<Scope>) -> bool
    ensures { result ≡ spec.is_intern scope }
{
    match scope {
        None => true,
        Some(Scope::Intern) => true,
        Some(Scope::Extern) => false,
        Some(Scope::Private) => true,
    }
}

fn adt_member(
    alloc: Global,
    names: &Names,
    inside: &Option<Instance>,
    w: &mut Found,
    m: &AdtMember,
) -> Result<(), NoMemory>
    ensures { OnOk result (w.new ≡ spec.with_adt_member names.now inside.now w.old m.now) }
{
    match &m.part {
        AdtPart::Data(data) => member(alloc, names, inside, w, is_intern(m.scope), data),
        AdtPart::Function { .. } => Ok(()),
    }
}

/// The members of an adt.
pub(crate) fn adt_members(
    alloc: Global,
    names: &Names,
    inside: &Option<Instance>,
    w: &mut Found,
    list: &[AdtMember],
) -> Result<(), NoMemory>
    ensures { OnOk result (w.new ≡ fold (spec.with_adt_member names.now inside.now) w.old list.now) }
{
    for m in list {
        adt_member(alloc, names, inside, w, m)?;
    }
    Ok(())
}
