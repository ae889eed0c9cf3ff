//! The rules of types that stand in a written type.
ghost use Rattle.std.specs.Prelude.{◌≡◌, ◌++◌, OnOk};
ghost use Rattle.std.specs.List.{flat_map};
ghost use Rattle.al_typed.specs.Layout.{IsLaidOut};
ghost use Rattle.al_type_rules.specs.Written as spec;

use crate::rules::{rule_7_value, rule_16_value, rule_18_size, rule_20_part};
use al_base::{NoMemory, Place};
use al_environment::{Environment, Here, written_type};
use al_items::Items;
use al_rules::{TypeFault, ask};
use al_tree::TypeTree;
use al_typed::{Aggregate, Ty};
use std::alloc::Global;

/// What a type is in the one in which it stands.
#[derive(Clone, Copy, Debug, PartialEq, Eq)]
pub(crate) enum Stands {
    /// What a pointer points to.
    Behind,
    /// A type argument.
    Argument,
    /// The element of an array.
    Element,
    /// A part of a tuple, or the element of a channel.
    Part,
}

/// Asks rules 7 and 18 of a type by value.
fn ask_value(
    rows: &[Aggregate],
    at: Place,
    ty: &Option<Ty>,
    faults: &mut Items<TypeFault>,
) -> Result<(), NoMemory>
    requires { IsLaidOut rows.now }
    ensures { OnOk result (faults.new ≡ faults.old ++ spec.value rows.now at ty.now) }
{
    ask(faults, 7, at, rule_7_value(rows, ty))?;
    ask(faults, 18, at, rule_18_size(rows, ty))
}

fn ask_behind(
    rows: &[Aggregate],
    at: Place,
    ty: &Option<Ty>,
    faults: &mut Items<TypeFault>,
) -> Result<(), NoMemory>
    requires { IsLaidOut rows.now }
    ensures { OnOk result (faults.new ≡ faults.old ++ spec.behind rows.now at ty.now) }
{
    ask(faults, 18, at, rule_18_size(rows, ty))
}

fn ask_argument(
    rows: &[Aggregate],
    at: Place,
    ty: &Option<Ty>,
    faults: &mut Items<TypeFault>,
) -> Result<(), NoMemory>
    requires { IsLaidOut rows.now }
    ensures { OnOk result (faults.new ≡ faults.old ++ spec.argument rows.now at ty.now) }
{
    ask(faults, 16, at, rule_16_value(ty))?;
    ask_behind(rows, at, ty, faults)
}

fn ask_element(
    rows: &[Aggregate],
    at: Place,
    ty: &Option<Ty>,
    faults: &mut Items<TypeFault>,
) -> Result<(), NoMemory>
    requires { IsLaidOut rows.now }
    ensures { OnOk result (faults.new ≡ faults.old ++ spec.element rows.now at ty.now) }
{
    ask(faults, 16, at, rule_16_value(ty))?;
    ask_value(rows, at, ty, faults)
}

fn ask_part(
    rows: &[Aggregate],
    at: Place,
    ty: &Option<Ty>,
    faults: &mut Items<TypeFault>,
) -> Result<(), NoMemory>
    requires { IsLaidOut rows.now }
    ensures { OnOk result (faults.new ≡ faults.old ++ spec.part rows.now at ty.now) }
{
    ask(faults, 20, at, rule_20_part(ty))?;
    ask_element(rows, at, ty, faults)
}

/// Asks the rules of a type that stands so in the type at a place.
fn ask_standing(
    rows: &[Aggregate],
    stands: Stands,
    at: Place,
    ty: &Option<Ty>,
    faults: &mut Items<TypeFault>,
) -> Result<(), NoMemory>
    requires { IsLaidOut rows.now }
    ensures { OnOk result (faults.new ≡ faults.old ++ spec.asked rows.now stands at ty.now) }
{
    match stands {
        Stands::Behind => ask_behind(rows, at, ty, faults),
        Stands::Argument => ask_argument(rows, at, ty, faults),
        Stands::Element => ask_element(rows, at, ty, faults),
        Stands::Part => ask_part(rows, at, ty, faults),
    }
}

/// Adds the faults of a type that stands so in the type at a place.
#[cycle(faults)]
fn child(
    alloc: Global,
    env: &Environment,
    here: &Here,
    stands: Stands,
    at: Place,
    t: &TypeTree,
    faults: &mut Items<TypeFault>,
) -> Result<(), NoMemory>
    requires { IsLaidOut env.now.aggregates }
    ensures { OnOk result (faults.new ≡ faults.old ++ spec.faults_of env.now here.now stands at t.now) }
{
    push_faults(alloc, env, here, t, faults)?;
    let ty = written_type(alloc, env, here, t)?;
    ask_standing(env.aggregates.as_slice(), stands, at, &ty, faults)
}

#[cycle(faults)]
#[tactic(auto, using(crate::proofs::FaultsAre::lists))]
fn children(
    alloc: Global,
    env: &Environment,
    here: &Here,
    stands: Stands,
    at: Place,
    list: &[TypeTree],
    faults: &mut Items<TypeFault>,
) -> Result<(), NoMemory>
    requires { IsLaidOut env.now.aggregates }
    ensures { OnOk result (faults.new ≡ faults.old ++ flat_map (spec.faults_of env.now here.now stands at) list.now) }
{
    for t in list {
        child(alloc, env, here, stands, at, t, faults)?;
    }
    Ok(())
}

/// Adds the breaks of rules 7, 16, 18 and 20 of the types that stand in a written type.
#[cycle(faults)]
#[tactic(auto, using(crate::proofs::FaultsAre::faults_are))]
fn push_faults(
    alloc: Global,
    env: &Environment,
    here: &Here,
    t: &TypeTree,
    faults: &mut Items<TypeFault>,
) -> Result<(), NoMemory>
    requires { IsLaidOut env.now.aggregates }
    ensures { OnOk result (faults.new ≡ faults.old ++ spec.faults_in env.now here.now t.now) }
{
    match t {
        TypeTree::Basic { .. } => Ok(()),
        TypeTree::Named { at, arguments, .. } => children(
            alloc,
            env,
            here,
            Stands::Argument,
            *at,
            arguments.as_slice(),
            faults,
        ),
        TypeTree::Tuple { at, parts } => {
            children(
                alloc,
                env,
                here,
                Stands::Part,
                *at,
                parts.as_slice(),
                faults,
            )?;
            let ty = written_type(alloc, env, here, t)?;
            ask_behind(env.aggregates.as_slice(), *at, &ty, faults)
        }
        TypeTree::Chan { at, element, .. } => child(
            alloc,
            env,
            here,
            Stands::Part,
            *at,
            element.get(),
            faults,
        ),
        TypeTree::Pointer { at, to } => {
            child(alloc, env, here, Stands::Behind, *at, to.get(), faults)
        }
        TypeTree::Array { at, element, .. } => child(
            alloc,
            env,
            here,
            Stands::Element,
            *at,
            element.get(),
            faults,
        ),
    }
}

/// Adds the breaks of rules 7, 16, 18 and 20 of the types that stand in a written type. What is written as a whole is asked by
/// what it declares, and a tuple of rule 18 in any place.
pub fn faults_in(
    alloc: Global,
    env: &Environment,
    here: &Here,
    t: &TypeTree,
    faults: &mut Items<TypeFault>,
) -> Result<(), NoMemory>
    requires { IsLaidOut env.now.aggregates }
    ensures { OnOk result (faults.new ≡ faults.old ++ spec.faults_in env.now here.now t.now) }
{
    push_faults(alloc, env, here, t, faults)
}
