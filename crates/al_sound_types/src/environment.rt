//! The types of an environment.
ghost use Rattle.std.specs.Prelude.{◌≡◌};
ghost use Rattle.std.specs.List.{list_all};
ghost use Rattle.al_typed.specs.Layout.{IsLaidOut};
ghost use Rattle.al_sound_types.specs.Environment as spec;

use crate::types::{are_sound, are_stored, is_signature, is_sound, is_stored};
use al_environment::{Environment, InstanceType, MemberNames, Signature, Variable};
use al_typed::{Aggregate, Ty};

/// What a name stands for, if it is a type's name.
fn is_known(rows: &[Aggregate], ty: &Option<Ty>) -> bool
    requires { IsLaidOut rows.now }
    ensures { result ≡ spec.is_known rows.now ty.now }
{
    match ty {
        None => true,
        Some(ty) => is_sound(rows, ty),
    }
}

fn is_instance(rows: &[Aggregate], instance: &InstanceType) -> bool
    requires { IsLaidOut rows.now }
    ensures { result ≡ spec.is_instance rows.now instance.now }
{
    (instance.aggregate as usize) < rows.len() && are_sound(rows, instance.arguments.as_slice())
}

fn has_stored(rows: &[Aggregate], aggregate: &Aggregate) -> bool
    requires { IsLaidOut rows.now }
    ensures { result ≡ spec.has_stored rows.now aggregate.now }
{
    match &aggregate.members {
        None => true,
        Some(members) => are_stored(rows, members.as_slice()),
    }
}

fn signature_holds(rows: &[Aggregate], f: &Signature) -> bool
    requires { IsLaidOut rows.now }
    ensures { result ≡ spec.signature_holds rows.now f.now }
{
    is_signature(rows, &f.returns, f.parameters.as_slice())
}

fn functions_hold(rows: &[Aggregate], names: &MemberNames) -> bool
    requires { IsLaidOut rows.now }
    ensures { result ≡ spec.functions_hold rows.now names.now }
{
    names
        .functions
        .as_slice()
        .iter()
        .all(|f| signature_holds(rows, &f.signature))
}

fn rows_hold(rows: &[Aggregate], list: &[Aggregate]) -> bool
    requires { IsLaidOut rows.now }
    ensures { result ≡ list_all (spec.has_stored rows.now) list.now }
{
    list.iter().all(|it| has_stored(rows, it))
}

fn names_hold(rows: &[Aggregate], list: &[Option<Ty>]) -> bool
    requires { IsLaidOut rows.now }
    ensures { result ≡ list_all (spec.is_known rows.now) list.now }
{
    list.iter().all(|it| is_known(rows, it))
}

fn instances_hold(rows: &[Aggregate], list: &[InstanceType]) -> bool
    requires { IsLaidOut rows.now }
    ensures { result ≡ list_all (spec.is_instance rows.now) list.now }
{
    list.iter().all(|it| is_instance(rows, it))
}

fn globals_hold(rows: &[Aggregate], list: &[Variable]) -> bool
    requires { IsLaidOut rows.now }
    ensures { result ≡ list_all (spec.is_global rows.now) list.now }
{
    list.iter().all(|it| is_stored(rows, &it.ty))
}

fn signatures_hold(rows: &[Aggregate], list: &[Signature]) -> bool
    requires { IsLaidOut rows.now }
    ensures { result ≡ list_all (spec.signature_holds rows.now) list.now }
{
    list.iter().all(|it| signature_holds(rows, it))
}

fn methods_hold(rows: &[Aggregate], list: &[MemberNames]) -> bool
    requires { IsLaidOut rows.now }
    ensures { result ≡ list_all (spec.functions_hold rows.now) list.now }
{
    list.iter().all(|it| functions_hold(rows, it))
}

/// Whether all types of an environment are ones that the rules leave.
#[tactic(auto, unfolding(crate::specs::Environment::environment_holds))]
pub fn environment_holds(env: &Environment) -> bool
    requires { IsLaidOut env.now.aggregates }
    ensures { result ≡ spec.environment_holds env.now }
{
    let rows = env.aggregates.as_slice();
    rows_hold(rows, rows)
        && names_hold(rows, env.types.as_slice())
        && instances_hold(rows, env.instances.as_slice())
        && globals_hold(rows, env.globals.as_slice())
        && signatures_hold(rows, env.functions.as_slice())
        && methods_hold(rows, env.names.as_slice())
}
