//! The types with members as a program has them.
ghost use Rattle.std.specs.Prelude.{◌≡◌, ◌++◌, [], slice_get, unwrap_or, true, IfOk, OnOk};
ghost use Rattle.std.specs.List.{list_all};
ghost use Rattle.std.specs.Option.{option_to_list};
ghost use Rattle.al_rules.specs.Outcome.{Answers, judge};
ghost use Rattle.al_typed.specs.Layout.{IsLaidOut};
ghost use Rattle.al_typed.specs.Types.{is_complete as complete};
ghost use Rattle.al_layout.specs.Rules as rule;
ghost use Rattle.al_layout.specs.Rows as spec;
ghost use Rattle.al_layout.specs.Rows.{Leads};

use crate::order::{numbers, order};
use crate::part::graph;
use crate::ty::member_ty;
use al_base::NoMemory;
use al_convert::is_void;
use al_form::{Form, FormMember, Forms};
use al_items::Items;
use al_rules::{TypeFault, TypeStop, ask, broken};
use al_typed::{Aggregate, Ty, is_complete};
use std::alloc::Global;

/// The types with members of a text.
#[derive(Drop)]
pub struct LaidOut {
    /// Those that stand in others by value are earlier.
    pub aggregates: Items<Aggregate>,
    /// The number of the form of each.
    pub forms: Items<usize>,
    /// The number among them of each form.
    pub numbers: Items<usize>,
}

/// The types of members, and the faults in them.
#[derive(Drop)]
struct MemberTypes {
    types: Items<Ty>,
    faults: Items<TypeFault>,
}

fn rule_7_member(before: &[Aggregate], ty: &Option<Ty>) -> bool
    ensures { result ≡ rule.rule_7_member before.now ty.now }
{
    match ty {
        None => false,
        Some(ty) => is_void(ty) || is_complete(before, ty),
    }
}

fn rule_16_member(ty: &Option<Ty>) -> bool
    ensures { result ≡ rule.rule_16_member ty.now }
{
    match ty {
        None => true,
        Some(ty) => !is_void(ty),
    }
}

fn push_type(types: &mut Items<Ty>, ty: Option<Ty>) -> Result<(), NoMemory>
    ensures { OnOk result (types.new ≡ types.old ++ option_to_list ty) }
{
    match ty {
        None => Ok(()),
        Some(ty) => types.push(ty),
    }
}

/// Adds the type of a member, and asks rules 16 and 7 of it.
fn push_member(
    alloc: Global,
    forms: &Forms,
    numbers: &[usize],
    rows: &[Aggregate],
    w: &mut MemberTypes,
    m: &FormMember,
) -> Result<(), NoMemory>
    ensures types { OnOk result (w.new.types ≡ w.old.types ++ spec.types_of_member forms.now numbers.now m.now) }
    ensures faults { OnOk result (w.new.faults ≡ w.old.faults ++ spec.fault_of_member forms.now numbers.now rows.now m.now) }
{
    let ty = member_ty(alloc, forms, numbers, &m.ty)?;
    ask(&mut w.faults, 16, m.at, rule_16_member(&ty))?;
    ask(&mut w.faults, 7, m.at, rule_7_member(rows, &ty))?;
    push_type(&mut w.types, ty)
}

/// The types of members, and the faults in them.
#[tactic(auto, using(crate::proofs::RowsAre::members_are))]
fn members(
    alloc: Global,
    forms: &Forms,
    numbers: &[usize],
    rows: &[Aggregate],
    list: &[FormMember],
) -> Result<MemberTypes, NoMemory>
    ensures types { IfOk result (λ w. w.types ≡ spec.types_of_members forms.now numbers.now list.now) }
    ensures faults { IfOk result (λ w. w.faults ≡ spec.faults_of_members forms.now numbers.now rows.now list.now) }
    ensures complete { IfOk result (λ w. w.faults ≡ [] → list_all (complete rows.now) w.types ≡ true) }
{
    let mut w = MemberTypes {
        types: Items::new(alloc),
        faults: Items::new(alloc),
    };
    for m in list {
        push_member(alloc, forms, numbers, rows, &mut w, m)?;
    }
    Ok(w)
}

/// The types of members, unless there are faults.
fn judged_types(
    rows: &[Aggregate],
    faults: &[TypeFault],
    types: Items<Ty>,
) -> Result<Option<Items<Ty>>, TypeStop>
    requires { faults.now ≡ [] → list_all (complete rows.now) types ≡ true }
    ensures answer { Answers result (judge faults.now (Some types)) }
    ensures complete { IfOk result (λ ts. list_all (complete rows.now) (unwrap_or ts []) ≡ true) }
{
    match faults.split_first() {
        None => Ok(Some(types)),
        Some((fault, _)) => Err(TypeStop::Fault(*fault)),
    }
}

/// The types of the members of a form.
#[tactic(auto, using(al_rules::proofs::Permits::permitted))]
fn member_types(
    alloc: Global,
    forms: &Forms,
    numbers: &[usize],
    rows: &[Aggregate],
    list: &Option<Items<FormMember>>,
) -> Result<Option<Items<Ty>>, TypeStop>
    ensures answer { Answers result (spec.member_types forms.now numbers.now rows.now list.now) }
    ensures complete { IfOk result (λ ts. list_all (complete rows.now) (unwrap_or ts []) ≡ true) }
{
    match list {
        None => Ok(None),
        Some(list) => {
            let MemberTypes { types, faults } = members(
                alloc,
                forms,
                numbers,
                rows,
                list.as_slice(),
            )?;
            judged_types(rows, faults.as_slice(), types)
        }
    }
}

/// Adds a type whose members have these types.
#[tactic(auto, using(crate::proofs::RowsAre::pushed), unfolding(crate::specs::Rows::with_members))]
fn push_row(
    rows: &mut Items<Aggregate>,
    form: &Form,
    types: Option<Items<Ty>>,
) -> Result<(), TypeStop>
    requires laid { IsLaidOut rows.old }
    requires complete { list_all (complete rows.old) (unwrap_or types []) ≡ true }
    ensures leads { Leads result (spec.with_members rows.old form.now types) rows.new }
    ensures laid { OnOk result (IsLaidOut rows.new) }
{
    match Aggregate::laid_out(rows.as_slice(), form.is_union, types) {
        None => Err(broken(18, form.at)),
        Some(row) => {
            rows.push(row)?;
            Ok(())
        }
    }
}

/// Adds a type.
#[tactic(auto, using(al_rules::proofs::Permits::permitted), unfolding(crate::specs::Rows::with_form))]
fn push_form(
    alloc: Global,
    forms: &Forms,
    numbers: &[usize],
    rows: &mut Items<Aggregate>,
    form: &Form,
) -> Result<(), TypeStop>
    requires { IsLaidOut rows.old }
    ensures leads { Leads result (spec.with_form forms.now numbers.now rows.old form.now) rows.new }
    ensures laid { OnOk result (IsLaidOut rows.new) }
{
    let types = member_types(alloc, forms, numbers, rows.as_slice(), &form.members)?;
    push_row(rows, form, types)
}

/// Adds the type of that form.
fn push_number(
    alloc: Global,
    forms: &Forms,
    numbers: &[usize],
    rows: &mut Items<Aggregate>,
    k: usize,
) -> Result<(), TypeStop>
    requires { IsLaidOut rows.old }
    ensures leads { Leads result (spec.with_number forms.now numbers.now rows.old (slice_get forms.now.list k)) rows.new }
    ensures laid { OnOk result (IsLaidOut rows.new) }
{
    match forms.list.get(k) {
        None => Ok(()),
        Some(form) => push_form(alloc, forms, numbers, rows, form),
    }
}

/// Adds the types in that order.
#[tactic(auto, using(crate::proofs::RowsAre::rows_are))]
fn push_rows(
    alloc: Global,
    forms: &Forms,
    numbers: &[usize],
    rows: &mut Items<Aggregate>,
    order: &[usize],
) -> Result<(), TypeStop>
    requires { IsLaidOut rows.old }
    ensures leads { Leads result (spec.with_rows forms.now numbers.now rows.old order.now) rows.new }
    ensures laid { OnOk result (IsLaidOut rows.new) }
{
    for k in order {
        push_number(alloc, forms, numbers, rows, *k)?;
    }
    Ok(())
}

/// The types with members of a text.
///
/// A fault is a member whose type is not complete without the type in which it stands, by rule 7, or is void, by rule 16, or
/// a type that has more than 2^28 bytes, by rule 18. It is found exactly where there is one.
#[tactic(auto, using(crate::proofs::RowsAre::none_are), unfolding(crate::specs::Rows::laid_out))]
pub fn laid_out(alloc: Global, forms: &Forms) -> Result<LaidOut, TypeStop>
    ensures answer { Answers result (spec.laid_out forms.now) }
    ensures laid { IfOk result (λ l. IsLaidOut l.aggregates) }
{
    let graph = graph(alloc, forms)?;
    let order = order(alloc, graph.as_slice())?;
    let numbers = numbers(alloc, graph.as_slice(), order.as_slice())?;
    let mut aggregates = Items::new(alloc);
    push_rows(
        alloc,
        forms,
        numbers.as_slice(),
        &mut aggregates,
        order.as_slice(),
    )?;
    Ok(LaidOut {
        aggregates,
        forms: order,
        numbers,
    })
}
