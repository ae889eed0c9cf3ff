//! What is added to what was gathered of a body.
ghost use Rattle.std.specs.Prelude.{◌≡◌, ◌++◌, nat_le, OnOk};
ghost use Rattle.al_typed.specs.Layout.{IsLaidOut, size_of};
ghost use Rattle.al_environment.specs.Written as written;
ghost use Rattle.al_type_rules.specs.Rules as rule;
ghost use Rattle.al_body_parts.specs.Parts as spec;

use crate::parts::{DeclaredLocal, Parts, WrittenText};
use al_base::{NoMemory, Place};
use al_environment::{Environment, Here, written_type};
use al_items::Items;
use al_rules::{TypeFault, ask};
use al_tree::{Dcl, TypeTree};
use al_type_rules::{faults_in, variable_type};
use al_typed::{Aggregate, Ty, room_of};
use std::alloc::Global;

/// Nothing.
pub(crate) fn nothing(alloc: Global) -> Parts
    ensures { result ≡ spec.nothing }
{
    Parts {
        locals: Items::new(alloc),
        texts: Items::new(alloc),
        types: Items::new(alloc),
        labels: Items::new(alloc),
        faults: Items::new(alloc),
    }
}

/// One string constant more.
pub(crate) fn push_text(
    alloc: Global,
    parts: &mut Parts,
    at: Place,
    bytes: &[u8],
) -> Result<(), NoMemory>
    ensures { OnOk result (parts.new ≡ spec.with_text at bytes.now parts.old) }
{
    let bytes = Items::from_slice(alloc, bytes)?;
    parts.texts.push(WrittenText { at, bytes })
}

/// One label more, where it is no branch's.
pub(crate) fn push_label(parts: &mut Parts, inside: bool, at: Place) -> Result<(), NoMemory>
    ensures { OnOk result (parts.new ≡ spec.with_label inside at parts.old) }
{
    if inside {
        return Ok(());
    }
    parts.labels.push(at)
}

/// Adds a type, where there is one.
fn push_known(types: &mut Items<Ty>, ty: Option<Ty>) -> Result<(), NoMemory>
    ensures { OnOk result (types.new ≡ types.old ++ spec.listed ty) }
{
    match ty {
        None => Ok(()),
        Some(ty) => types.push(ty),
    }
}

#[tactic(auto, using(crate::proofs::SizesAre::small_size))]
fn is_small(rows: &[Aggregate], ty: &Ty) -> bool
    requires { IsLaidOut rows.now }
    ensures { result ≡ nat_le (size_of rows.now ty.now) 268435456 }
{
    room_of(rows, ty).size <= 268_435_456
}

/// 18. A type has at most 2^28 bytes.
fn rule_18_size(rows: &[Aggregate], ty: &Option<Ty>) -> bool
    requires { IsLaidOut rows.now }
    ensures { result ≡ rule.rule_18_size rows.now ty.now }
{
    match ty {
        None => true,
        Some(ty) => is_small(rows, ty),
    }
}

/// Adds the breaks of the rules of a type that is written in a cast or behind sizeof.
fn ask_type(
    alloc: Global,
    env: &Environment,
    here: &Here,
    at: Place,
    t: &TypeTree,
    ty: &Option<Ty>,
    faults: &mut Items<TypeFault>,
) -> Result<(), NoMemory>
    requires laid { IsLaidOut env.now.aggregates }
    requires ty { ty.now ≡ written.written env.now here.now t.now }
    ensures { OnOk result (faults.new ≡ faults.old ++ spec.type_faults env.now here.now at t.now) }
{
    faults_in(alloc, env, here, t, faults)?;
    ask(faults, 18, at, rule_18_size(env.aggregates.as_slice(), ty))
}

/// A type that is written in a cast or behind sizeof.
#[tactic(auto, unfolding(crate::specs::Parts::with_type))]
pub(crate) fn push_type(
    alloc: Global,
    env: &Environment,
    here: &Here,
    at: Place,
    t: &TypeTree,
    parts: &mut Parts,
) -> Result<(), NoMemory>
    requires { IsLaidOut env.now.aggregates }
    ensures { OnOk result (parts.new ≡ spec.with_type env.now here.now at t.now parts.old) }
{
    let ty = written_type(alloc, env, here, t)?;
    ask_type(alloc, env, here, at, t, &ty, &mut parts.faults)?;
    push_known(&mut parts.types, ty)
}

/// The base type of a declaration.
#[tactic(auto, unfolding(crate::specs::Parts::with_base))]
pub(crate) fn push_base(
    alloc: Global,
    env: &Environment,
    here: &Here,
    base: &TypeTree,
    parts: &mut Parts,
) -> Result<(), NoMemory>
    requires { IsLaidOut env.now.aggregates }
    ensures { OnOk result (parts.new ≡ spec.with_base env.now here.now base.now parts.old) }
{
    faults_in(alloc, env, here, base, &mut parts.faults)
}

/// A local of that type.
fn push_declared(parts: &mut Parts, inside: bool, dcl: &Dcl, ty: Ty) -> Result<(), NoMemory>
    ensures { OnOk result (parts.new ≡ spec.with_declared inside dcl.now ty parts.old) }
{
    if inside {
        return parts.types.push(ty);
    }
    parts.locals.push(DeclaredLocal {
        name: dcl.name.name,
        at: dcl.name.at,
        ty,
    })
}

/// A local, of the function itself or of a branch in it.
#[tactic(auto, unfolding(crate::specs::Parts::with_local))]
pub(crate) fn push_local(
    alloc: Global,
    env: &Environment,
    base: &Option<Ty>,
    inside: bool,
    dcl: &Dcl,
    parts: &mut Parts,
) -> Result<(), NoMemory>
    requires { IsLaidOut env.now.aggregates }
    ensures { OnOk result (parts.new ≡ spec.with_local env.now base.now inside dcl.now parts.old) }
{
    let ty = variable_type(alloc, env, base, dcl, &mut parts.faults)?;
    push_declared(parts, inside, dcl, ty)
}
