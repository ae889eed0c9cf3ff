//! What declarations give variables, members and names of types.
ghost use Rattle.std.specs.Prelude.{◌≡◌, ◌++◌, IfOk, OnOk};
ghost use Rattle.al_environment.specs.Written as written;
ghost use Rattle.al_typed.specs.Layout.{IsLaidOut};
ghost use Rattle.al_type_rules.specs.Types as spec;

use crate::rules::{rule_7_array, rule_7_value, rule_16_value, rule_18_size};
use al_base::{NoMemory, Place};
use al_environment::Environment;
use al_items::{Boxed, Items};
use al_rules::{TypeFault, ask};
use al_tree::{Bound, Dcl, bound_value};
use al_typed::{Aggregate, Ty};
use std::alloc::Global;

/// So many pointers to a type.
#[tactic(auto, using(crate::proofs::ArraysAre::pointers_are))]
fn pointers_to(alloc: Global, stars: u32, ty: Ty) -> Result<Ty, NoMemory>
    ensures { IfOk result (λ t. t ≡ spec.pointers stars ty) }
{
    let mut found = ty;
    for _made in 0..stars {
        found = Ty::Pointer(Boxed::new(alloc, found)?);
    }
    Ok(found)
}

/// A base type with so many stars.
pub(crate) fn starred(alloc: Global, stars: u32, base: &Option<Ty>) -> Result<Option<Ty>, NoMemory>
    ensures { IfOk result (λ t. t ≡ spec.starred stars base.now) }
{
    match base {
        None => Ok(None),
        Some(ty) => {
            let ty = ty.copy(alloc)?;
            Ok(Some(pointers_to(alloc, stars, ty)?))
        }
    }
}

pub(crate) fn array_type(
    alloc: Global,
    element: Option<Ty>,
    count: Option<u32>,
) -> Result<Option<Ty>, NoMemory>
    ensures { IfOk result (λ t. t ≡ written.array_type element count) }
{
    match element {
        None => Ok(None),
        Some(element) => match count {
            None => Ok(None),
            Some(count) => {
                let element = Boxed::new(alloc, element)?;
                Ok(Some(Ty::Array { element, count }))
            }
        },
    }
}

/// Arrays of a type, the first bound outermost.
#[tactic(auto, using(crate::proofs::ArraysAre::arrays_are))]
fn arrays(
    alloc: Global,
    env: &Environment,
    at: Place,
    bounds: &[Bound],
    ty: Option<Ty>,
) -> Result<Option<Ty>, NoMemory>
    ensures { IfOk result (λ t. t ≡ spec.arrays env.now at bounds.now ty) }
{
    let mut found = ty;
    let mut rest = bounds;
    while let Some((b, front)) = rest.split_last() {
        found = array_type(alloc, found, bound_value(&env.scopes.constants, b, at))?;
        rest = front;
    }
    Ok(found)
}

pub(crate) fn known(ty: Option<Ty>) -> Ty
    ensures { result ≡ spec.known ty }
{
    match ty {
        None => Ty::Void,
        Some(ty) => ty,
    }
}

/// The type of a variable or a member, where its base type is that.
#[tactic(auto, unfolding(crate::specs::Types::declared))]
fn declared(
    alloc: Global,
    env: &Environment,
    base: &Option<Ty>,
    dcl: &Dcl,
) -> Result<Option<Ty>, NoMemory>
    ensures { IfOk result (λ t. t ≡ spec.declared env.now base.now dcl.now) }
{
    let inner = starred(alloc, dcl.stars, base)?;
    arrays(alloc, env, dcl.at, dcl.bounds.as_slice(), inner)
}

fn ask_value(
    rows: &[Aggregate],
    at: Place,
    inner: &Option<Ty>,
    whole: &Option<Ty>,
    faults: &mut Items<TypeFault>,
) -> Result<(), NoMemory>
    requires { IsLaidOut rows.now }
    ensures { OnOk result (faults.new ≡ faults.old ++ spec.asked_value rows.now at inner.now whole.now) }
{
    ask(faults, 16, at, rule_16_value(inner))?;
    ask(faults, 7, at, rule_7_value(rows, whole))?;
    ask(faults, 18, at, rule_18_size(rows, whole))
}

fn ask_name(
    rows: &[Aggregate],
    at: Place,
    inner: &Option<Ty>,
    whole: &Option<Ty>,
    faults: &mut Items<TypeFault>,
) -> Result<(), NoMemory>
    requires { IsLaidOut rows.now }
    ensures { OnOk result (faults.new ≡ faults.old ++ spec.asked_name rows.now at inner.now whole.now) }
{
    ask(faults, 16, at, rule_16_value(inner))?;
    ask(faults, 7, at, rule_7_array(rows, whole))?;
    ask(faults, 18, at, rule_18_size(rows, whole))
}

/// The type of a variable or a member whose base type is that, with the breaks of rules 7, 16 and 18 behind the faults. A type
/// without a meaning is a fault and counts as void.
#[tactic(auto, unfolding(crate::specs::Types::variable_faults))]
pub fn variable_type(
    alloc: Global,
    env: &Environment,
    base: &Option<Ty>,
    dcl: &Dcl,
    faults: &mut Items<TypeFault>,
) -> Result<Ty, NoMemory>
    requires { IsLaidOut env.now.aggregates }
    ensures ty { IfOk result (λ t. t ≡ spec.known (spec.declared env.now base.now dcl.now)) }
    ensures faults { OnOk result (faults.new ≡ faults.old ++ spec.variable_faults env.now base.now dcl.now) }
{
    let inner = starred(alloc, dcl.stars, base)?;
    let whole = declared(alloc, env, base, dcl)?;
    ask_value(env.aggregates.as_slice(), dcl.at, &inner, &whole, faults)?;
    Ok(known(whole))
}

/// Adds the breaks of rules 7, 16 and 18 of a name that is given to a type.
#[tactic(auto, unfolding(crate::specs::Types::typedef_faults))]
pub fn typedef_faults(
    alloc: Global,
    env: &Environment,
    base: &Option<Ty>,
    dcl: &Dcl,
    faults: &mut Items<TypeFault>,
) -> Result<(), NoMemory>
    requires { IsLaidOut env.now.aggregates }
    ensures { OnOk result (faults.new ≡ faults.old ++ spec.typedef_faults env.now base.now dcl.now) }
{
    let inner = starred(alloc, dcl.stars, base)?;
    let whole = declared(alloc, env, base, dcl)?;
    ask_name(env.aggregates.as_slice(), dcl.at, &inner, &whole, faults)
}
