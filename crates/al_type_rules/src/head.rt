//! The types of functions.
ghost use Rattle.std.specs.Prelude.{◌≡◌, ◌++◌, map, option_map, IfOk, OnOk};
ghost use Rattle.std.specs.List.{flat_map};
ghost use Rattle.al_environment.specs.Lookups.{plain_type as own_type};
ghost use Rattle.al_typed.specs.declared.ty.Ty.TheVariants as variant;
ghost use Rattle.al_typed.specs.Layout.{IsLaidOut};
ghost use Rattle.al_type_rules.specs.Types as spec;

use crate::rules::{rule_7_array, rule_7_value, rule_16_value, rule_18_size, rule_20_result};
use crate::variable::{array_type, known, starred};
use crate::written::faults_in;
use al_base::{NoMemory, Place};
use al_convert::items_of;
use al_environment::{Environment, Here, Signature, plain_type, written_type};
use al_items::{Boxed, Items};
use al_rules::{TypeFault, ask};
use al_tree::{Bound, Parameter, TypeTree, bound_value};
use al_typed::{Aggregate, Ty};
use std::alloc::Global;

/// What a parameter declares: its base type with its stars, the array of that without the first bound, and its type.
#[derive(Drop)]
struct ParameterTypes {
    inner: Option<Ty>,
    array: Option<Ty>,
    whole: Option<Ty>,
}

fn bound_of(env: &Environment, at: Place, bound: &Option<Bound>) -> Option<u32>
    ensures { result ≡ spec.bound_of env.now at bound.now }
{
    match bound {
        None => None,
        Some(b) => bound_value(&env.scopes.constants, b, at),
    }
}

/// As `arrays`, where bounds may be missing.
#[tactic(auto, using(crate::proofs::ArraysAre::arrays_are))]
fn parameter_arrays(
    alloc: Global,
    env: &Environment,
    at: Place,
    bounds: &[Option<Bound>],
    ty: Option<Ty>,
) -> Result<Option<Ty>, NoMemory>
    ensures { IfOk result (λ t. t ≡ spec.parameter_arrays env.now at bounds.now ty) }
{
    let mut found = ty;
    let mut rest = bounds;
    while let Some((b, front)) = rest.split_last() {
        found = array_type(alloc, found, bound_of(env, at, b))?;
        rest = front;
    }
    Ok(found)
}

fn copied(alloc: Global, ty: &Option<Ty>) -> Result<Option<Ty>, NoMemory>
    ensures { IfOk result (λ t. t ≡ ty.now) }
{
    match ty {
        None => Ok(None),
        Some(ty) => Ok(Some(ty.copy(alloc)?)),
    }
}

fn pointer_to(alloc: Global, to: &Option<Ty>) -> Result<Option<Ty>, NoMemory>
    ensures { IfOk result (λ t. t ≡ option_map variant.Pointer to.now) }
{
    match to {
        None => Ok(None),
        Some(to) => Ok(Some(Ty::Pointer(to.boxed(alloc)?))),
    }
}

/// An array parameter is a pointer.
#[tactic(auto, unfolding(crate::specs::Types::decayed))]
fn decayed(alloc: Global, ty: &Ty) -> Result<Ty, NoMemory>
    ensures { IfOk result (λ t. t ≡ spec.decayed ty.now) }
{
    match items_of(ty) {
        None => ty.copy(alloc),
        Some(element) => Ok(Ty::Pointer(element.boxed(alloc)?)),
    }
}

fn decayed_if(alloc: Global, ty: &Option<Ty>) -> Result<Option<Ty>, NoMemory>
    ensures { IfOk result (λ t. t ≡ option_map spec.decayed ty.now) }
{
    match ty {
        None => Ok(None),
        Some(ty) => Ok(Some(decayed(alloc, ty)?)),
    }
}

fn inner_array(
    alloc: Global,
    env: &Environment,
    at: Place,
    bounds: &[Option<Bound>],
    inner: &Option<Ty>,
) -> Result<Option<Ty>, NoMemory>
    ensures { IfOk result (λ t. t ≡ spec.inner_array env.now at bounds.now inner.now) }
{
    let ty = copied(alloc, inner)?;
    match bounds.split_first() {
        None => Ok(ty),
        Some((_, rest)) => parameter_arrays(alloc, env, at, rest, ty),
    }
}

fn parameter_of(
    alloc: Global,
    bounds: &[Option<Bound>],
    array: &Option<Ty>,
) -> Result<Option<Ty>, NoMemory>
    ensures { IfOk result (λ t. t ≡ spec.parameter_of bounds.now array.now) }
{
    match bounds.split_first() {
        None => decayed_if(alloc, array),
        Some(_) => pointer_to(alloc, array),
    }
}

#[tactic(auto, unfolding(crate::specs::Types::plain_types))]
fn plain_types(
    alloc: Global,
    env: &Environment,
    at: Place,
    bounds: &[Option<Bound>],
    inner: Option<Ty>,
) -> Result<ParameterTypes, NoMemory>
    ensures { IfOk result (λ ts. ts ≡ spec.plain_types env.now at bounds.now inner) }
{
    let array = inner_array(alloc, env, at, bounds, &inner)?;
    let whole = parameter_of(alloc, bounds, &array)?;
    Ok(ParameterTypes {
        inner,
        array,
        whole,
    })
}

fn own_value(alloc: Global, ty: Option<Ty>) -> Result<ParameterTypes, NoMemory>
    ensures { IfOk result (λ ts. ts ≡ spec.own_value ty) }
{
    let inner = copied(alloc, &ty)?;
    let array = copied(alloc, &ty)?;
    Ok(ParameterTypes {
        inner,
        array,
        whole: ty,
    })
}

fn own_pointer(alloc: Global, ty: Option<Ty>) -> Result<ParameterTypes, NoMemory>
    ensures { IfOk result (λ ts. ts ≡ spec.own_pointer ty) }
{
    let to = pointer_to(alloc, &ty)?;
    own_value(alloc, to)
}

/// A written type with so many stars.
fn result_type(
    alloc: Global,
    env: &Environment,
    here: &Here,
    base: &TypeTree,
    stars: u32,
) -> Result<Option<Ty>, NoMemory>
    ensures { IfOk result (λ t. t ≡ spec.result_type env.now here.now base.now stars) }
{
    let ty = written_type(alloc, env, here, base)?;
    starred(alloc, stars, &ty)
}

#[tactic(auto, unfolding(crate::specs::Types::parameter_types))]
fn parameter_types(
    alloc: Global,
    env: &Environment,
    here: &Here,
    p: &Parameter,
) -> Result<ParameterTypes, NoMemory>
    ensures { IfOk result (λ ts. ts ≡ spec.parameter_types env.now here.now p.now) }
{
    match p {
        Parameter::Plain {
            at,
            base,
            stars,
            name: _,
            bounds,
        } => {
            let inner = result_type(alloc, env, here, base, *stars)?;
            plain_types(alloc, env, *at, bounds.as_slice(), inner)
        }
        Parameter::OwnPointer { name, .. } => {
            let own = plain_type(alloc, env, here, *name)?;
            own_pointer(alloc, own)
        }
        Parameter::OwnValue { name, .. } => {
            let own = plain_type(alloc, env, here, *name)?;
            own_value(alloc, own)
        }
    }
}

#[tactic(auto, unfolding(crate::specs::Types::inner_faults))]
fn inner_faults(
    alloc: Global,
    env: &Environment,
    here: &Here,
    p: &Parameter,
    faults: &mut Items<TypeFault>,
) -> Result<(), NoMemory>
    requires { IsLaidOut env.now.aggregates }
    ensures { OnOk result (faults.new ≡ faults.old ++ spec.inner_faults env.now here.now p.now) }
{
    match p {
        Parameter::Plain { base, .. } => faults_in(alloc, env, here, base, faults),
        Parameter::OwnPointer { .. } | Parameter::OwnValue { .. } => Ok(()),
    }
}

#[tactic(auto, unfolding(crate::specs::Types::place_of))]
fn place_of(p: &Parameter) -> Place
    ensures { result ≡ spec.place_of p.now }
{
    match p {
        Parameter::Plain { at, .. }
        | Parameter::OwnPointer { at, .. }
        | Parameter::OwnValue { at, .. } => *at,
    }
}

fn ask_parameter(
    rows: &[Aggregate],
    at: Place,
    ts: &ParameterTypes,
    faults: &mut Items<TypeFault>,
) -> Result<(), NoMemory>
    requires { IsLaidOut rows.now }
    ensures { OnOk result (faults.new ≡ faults.old ++ spec.asked_parameter rows.now at ts.now) }
{
    ask(faults, 16, at, rule_16_value(&ts.inner))?;
    ask(faults, 7, at, rule_7_array(rows, &ts.array))?;
    ask(faults, 18, at, rule_18_size(rows, &ts.array))?;
    ask(faults, 7, at, rule_7_value(rows, &ts.whole))
}

/// The type of a parameter, with its faults.
fn parameter_type(
    alloc: Global,
    env: &Environment,
    here: &Here,
    p: &Parameter,
    faults: &mut Items<TypeFault>,
) -> Result<Ty, NoMemory>
    requires { IsLaidOut env.now.aggregates }
    ensures ty { IfOk result (λ t. t ≡ spec.parameter_type env.now here.now p.now) }
    ensures faults { OnOk result (faults.new ≡ faults.old ++ spec.parameter_faults env.now here.now p.now) }
{
    inner_faults(alloc, env, here, p, faults)?;
    let types = parameter_types(alloc, env, here, p)?;
    ask_parameter(env.aggregates.as_slice(), place_of(p), &types, faults)?;
    let ParameterTypes { whole, .. } = types;
    Ok(known(whole))
}

#[tactic(auto, using(crate::proofs::FaultsAre::lists))]
fn parameters(
    alloc: Global,
    env: &Environment,
    here: &Here,
    list: &[Parameter],
    faults: &mut Items<TypeFault>,
) -> Result<Items<Ty>, NoMemory>
    requires { IsLaidOut env.now.aggregates }
    ensures types { IfOk result (λ ts. ts ≡ map (spec.parameter_type env.now here.now) list.now) }
    ensures faults { OnOk result (faults.new ≡ faults.old ++ flat_map (spec.parameter_faults env.now here.now) list.now) }
{
    let mut types = Items::with_capacity(alloc, list.len())?;
    for p in list {
        let ty = parameter_type(alloc, env, here, p, faults)?;
        types.push(ty)?;
    }
    Ok(types)
}

fn ask_result(
    rows: &[Aggregate],
    at: Place,
    ty: &Option<Ty>,
    faults: &mut Items<TypeFault>,
) -> Result<(), NoMemory>
    requires { IsLaidOut rows.now }
    ensures { OnOk result (faults.new ≡ faults.old ++ spec.asked_result rows.now at ty.now) }
{
    ask(faults, 20, at, rule_20_result(ty))?;
    ask(faults, 7, at, rule_7_value(rows, ty))?;
    ask(faults, 18, at, rule_18_size(rows, ty))
}

/// The types of a function whose result is the base type with so many stars, with the breaks of rules 7, 16, 18 and 20 behind
/// the faults; those of the result stand at that place. A type without a meaning is a fault and counts as void.
///
/// The faults in the base type are not among them.
#[tactic(auto, unfolding(crate::specs::Types::signature, crate::specs::Types::signature_faults))]
pub fn signature(
    alloc: Global,
    env: &Environment,
    here: &Here,
    at: Place,
    base: &TypeTree,
    stars: u32,
    list: &[Parameter],
    faults: &mut Items<TypeFault>,
) -> Result<Signature, NoMemory>
    requires { IsLaidOut env.now.aggregates }
    ensures types { IfOk result (λ s. s ≡ spec.signature env.now here.now base.now stars list.now) }
    ensures faults { OnOk result (faults.new ≡ faults.old ++ spec.signature_faults env.now here.now at base.now stars list.now) }
{
    let returns = result_type(alloc, env, here, base, stars)?;
    ask_result(env.aggregates.as_slice(), at, &returns, faults)?;
    let parameters = parameters(alloc, env, here, list, faults)?;
    Ok(Signature {
        number: None,
        returns: known(returns),
        parameters,
    })
}
