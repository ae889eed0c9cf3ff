//! The members and functions of types.
ghost use Rattle.std.specs.Prelude.{◌≡◌, fold, slice_get, IfOk, OnOk};
ghost use Rattle.std.specs.Option.{option_copied};
ghost use Rattle.al_rules.specs.Outcome.{Answers};
ghost use Rattle.al_layout.specs.Rows.{Leads};
ghost use Rattle.al_member_names.specs.Members as spec;

use crate::function::{OwnFunction, own as own_function};
use crate::lend::push_lent;
use crate::walk::Walk;
use al_base::{NoMemory, Place};
use al_environment::{MemberNames, NamedMember};
use al_form::{Form, FormMember, Forms};
use al_items::Items;
use al_layout::member_ty;
use al_rules::{TypeStop, judged};
use al_typed::Ty;
use std::alloc::Global;

fn interns_of(alloc: Global, adt: usize, is_intern: bool) -> Result<Items<u32>, NoMemory>
    ensures { IfOk result (λ is. is ≡ spec.interns_of adt is_intern) }
{
    let mut interns = Items::new(alloc);
    if is_intern && adt <= 4_294_967_295 {
        interns.push(adt as u32)?;
    }
    Ok(interns)
}

fn own(
    alloc: Global,
    number: u32,
    name: u32,
    ty: Ty,
    interns: &[u32],
) -> Result<NamedMember, NoMemory>
    ensures { IfOk result (λ m. m ≡ spec.own number name ty interns.now) }
{
    let mut path = Items::new(alloc);
    path.push(number)?;
    Ok(NamedMember {
        name,
        path,
        ty,
        interns: Items::from_slice(alloc, interns)?,
    })
}

/// The number of the type with members that a type is.
#[tactic(auto, unfolding(crate::specs::Members::aggregate_of))]
fn aggregate_of(ty: &Ty) -> Option<u32>
    ensures { result ≡ spec.aggregate_of ty.now }
{
    match ty {
        Ty::Aggregate(number) => Some(*number),
        Ty::Void
        | Ty::Integer(_)
        | Ty::Pointer(_)
        | Ty::Array { .. }
        | Ty::Chan { .. }
        | Ty::Tuple(_)
        | Ty::Function { .. } => None,
    }
}

/// The same of a type that may be missing.
pub fn aggregate_if(ty: &Option<Ty>) -> Option<u32>
    ensures { result ≡ spec.aggregate_if ty.now }
{
    match ty {
        None => None,
        Some(ty) => aggregate_of(ty),
    }
}

/// What the type of that number has.
fn names_at(before: &[MemberNames], number: Option<u32>) -> Option<&MemberNames>
    ensures { option_copied result ≡ spec.names_at before.now number }
{
    match number {
        None => None,
        Some(n) => before.get(n as usize),
    }
}

/// Adds those that a member without a name lends.
#[tactic(auto, unfolding(crate::specs::Members::with_unnamed))]
fn push_unnamed(
    alloc: Global,
    before: &[MemberNames],
    w: &mut Walk,
    at: Place,
    number: u32,
    interns: &[u32],
    aggregate: Option<u32>,
) -> Result<(), NoMemory>
    ensures { OnOk result (w.new ≡ spec.with_unnamed before.now at number interns.now w.old aggregate) }
{
    w.ask_unnamed(at, aggregate)?;
    push_lent(alloc, w, at, number, interns, names_at(before, aggregate))
}

fn push_own(
    alloc: Global,
    w: &mut Walk,
    at: Place,
    number: u32,
    name: u32,
    interns: &[u32],
    ty: Option<Ty>,
) -> Result<(), NoMemory>
    ensures { OnOk result (w.new ≡ spec.with_own at number name interns.now w.old ty) }
{
    match ty {
        None => Ok(()),
        Some(ty) => {
            let member = own(alloc, number, name, ty, interns)?;
            w.push(at, member)
        }
    }
}

/// Adds what a member of that type adds.
fn push_ty(
    alloc: Global,
    before: &[MemberNames],
    w: &mut Walk,
    m: &FormMember,
    number: u32,
    interns: &[u32],
    ty: Option<Ty>,
) -> Result<(), NoMemory>
    ensures { OnOk result (w.new ≡ spec.with_ty before.now m.now.at number m.now.name interns.now w.old ty) }
{
    match m.name {
        None => push_unnamed(alloc, before, w, m.at, number, interns, aggregate_if(&ty)),
        Some(name) => push_own(alloc, w, m.at, number, name, interns, ty),
    }
}

/// Adds what the member of that number of the adt of that number adds.
fn push_member(
    alloc: Global,
    forms: &Forms,
    numbers: &[usize],
    before: &[MemberNames],
    adt: usize,
    number: u32,
    w: &mut Walk,
    m: &FormMember,
) -> Result<(), NoMemory>
    ensures { OnOk result (w.new ≡ spec.with_member forms.now numbers.now before.now adt number w.old m.now) }
{
    let ty = member_ty(alloc, forms, numbers, &m.ty)?;
    let interns = interns_of(alloc, adt, m.is_intern)?;
    push_ty(alloc, before, w, m, number, interns.as_slice(), ty)
}

/// As `push_member`, where the number fits.
fn push_numbered(
    alloc: Global,
    forms: &Forms,
    numbers: &[usize],
    before: &[MemberNames],
    adt: usize,
    number: usize,
    w: &mut Walk,
    m: &FormMember,
) -> Result<(), NoMemory>
    ensures { OnOk result (w.new ≡ spec.with_numbered forms.now numbers.now before.now adt number w.old m.now) }
{
    if number <= 4_294_967_295 {
        push_member(alloc, forms, numbers, before, adt, number as u32, w, m)
    } else {
        Ok(())
    }
}

/// Adds what the members of the adt of that number add.
#[tactic(auto, using(crate::proofs::MembersAre::members_are))]
fn push_members(
    alloc: Global,
    forms: &Forms,
    numbers: &[usize],
    before: &[MemberNames],
    adt: usize,
    w: &mut Walk,
    list: &[FormMember],
) -> Result<(), NoMemory>
    ensures { OnOk result (w.new ≡ spec.with_members forms.now numbers.now before.now adt 0 list.now w.old) }
{
    for (number, m) in list.iter().enumerate() {
        push_numbered(alloc, forms, numbers, before, adt, number, w, m)?;
    }
    Ok(())
}

/// Adds the functions of an adt.
fn push_own_functions(alloc: Global, w: &mut Walk, list: &[OwnFunction]) -> Result<(), NoMemory>
    ensures { OnOk result (w.new ≡ fold spec.with_own_function w.old list.now) }
{
    for f in list {
        let function = own_function(alloc, &f.function)?;
        w.push_function(f.at, function)?;
    }
    Ok(())
}

fn found(w: Walk) -> Result<MemberNames, TypeStop>
    ensures { Answers result (spec.found w) }
{
    let Walk {
        members,
        functions,
        names: _,
        faults,
    } = w;
    judged(faults.as_slice(), MemberNames { members, functions })
}

fn no_names(alloc: Global) -> MemberNames
    ensures { result ≡ spec.no_names }
{
    MemberNames {
        members: Items::new(alloc),
        functions: Items::new(alloc),
    }
}

fn of_members(
    alloc: Global,
    forms: &Forms,
    numbers: &[usize],
    before: &[MemberNames],
    own: &[OwnFunction],
    members: &Option<Items<FormMember>>,
) -> Result<MemberNames, TypeStop>
    ensures { Answers result (spec.of_members forms.now numbers.now before.now own.now members.now) }
{
    match members {
        None => Ok(no_names(alloc)),
        Some(list) => {
            let mut w = Walk::begun(alloc);
            let adt = before.len();
            push_members(alloc, forms, numbers, before, adt, &mut w, list.as_slice())?;
            push_own_functions(alloc, &mut w, own)?;
            found(w)
        }
    }
}

/// The names of the type that has that form, which is the next behind those.
fn of_form(
    alloc: Global,
    forms: &Forms,
    numbers: &[usize],
    before: &[MemberNames],
    own: &[OwnFunction],
    form: Option<&Form>,
) -> Result<MemberNames, TypeStop>
    ensures { Answers result (spec.of_form forms.now numbers.now before.now own.now (option_copied form.entry)) }
{
    match form {
        None => Ok(no_names(alloc)),
        Some(form) => of_members(alloc, forms, numbers, before, own, &form.members),
    }
}

fn own_at(own: &[Items<OwnFunction>], number: usize) -> &[OwnFunction]
    ensures { result.now ≡ spec.own_at own.now number }
{
    match own.get(number) {
        None => &[],
        Some(functions) => functions.as_slice(),
    }
}

/// Adds those of the type that has the form of that number.
#[tactic(auto, using(al_rules::proofs::Permits::permitted))]
fn push_form(
    alloc: Global,
    forms: &Forms,
    numbers: &[usize],
    own: &[Items<OwnFunction>],
    names: &mut Items<MemberNames>,
    k: usize,
) -> Result<(), TypeStop>
    ensures { Leads result (spec.with_form forms.now numbers.now own.now names.old (slice_get forms.now.list k)) names.new }
{
    let before = names.as_slice();
    let functions = own_at(own, before.len());
    let found = of_form(alloc, forms, numbers, before, functions, forms.list.get(k))?;
    names.push(found)?;
    Ok(())
}

#[tactic(auto, using(crate::proofs::MembersAre::forms_are))]
fn push_forms(
    alloc: Global,
    forms: &Forms,
    numbers: &[usize],
    own: &[Items<OwnFunction>],
    names: &mut Items<MemberNames>,
    list: &[usize],
) -> Result<(), TypeStop>
    ensures { Leads result (spec.with_forms forms.now numbers.now own.now names.old list.now) names.new }
{
    for k in list {
        push_form(alloc, forms, numbers, own, names, *k)?;
    }
    Ok(())
}

/// The names that may stand behind `.` and `->`, for the types with members of a text, by the numbers of these: their own data
/// members and functions, and those that members without a name lend. The types have these forms in their order and these
/// functions of their own, and the forms have those numbers.
///
/// A fault is a member that breaks rule 8. It is found exactly where there is one.
#[tactic(auto, unfolding(crate::specs::Members::member_names))]
pub fn member_names(
    alloc: Global,
    forms: &Forms,
    numbers: &[usize],
    order: &[usize],
    own: &[Items<OwnFunction>],
) -> Result<Items<MemberNames>, TypeStop>
    ensures { Answers result (spec.member_names forms.now numbers.now order.now own.now) }
{
    let mut names = Items::new(alloc);
    push_forms(alloc, forms, numbers, own, &mut names, order)?;
    Ok(names)
}
