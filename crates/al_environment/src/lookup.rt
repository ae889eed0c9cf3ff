//! What names stand for in an environment.
ghost use Rattle.std.specs.Prelude.{◌≡◌, slice_get, IfOk, IsTrue};
ghost use Rattle.std.specs.Option.{option_copied};
ghost use Rattle.al_environment.specs.Lookups as spec;

use crate::environment::{
    Environment, Here, InstanceType, MemberNames, NamedFunction, NamedMember, OwnAdt, Round,
    Signature, Variable,
};
use al_base::NoMemory;
use al_convert::same_list;
use al_typed::Ty;
use std::alloc::Global;

/// The global of that number.
pub fn global(env: &Environment, number: usize) -> Option<&Variable>
    ensures { option_copied result ≡ spec.global env.now number }
{
    env.globals.get(number)
}

/// The parameter or local of that number of the function at hand.
pub fn local(here: &Here, number: usize) -> Option<&Variable>
    ensures { option_copied result ≡ spec.local here.now number }
{
    here.locals.get(number)
}

/// The function of that number round the par branch at hand.
pub fn round(here: &Here, number: usize) -> Option<&Round>
    ensures { option_copied result ≡ spec.round here.now number }
{
    here.around.get(number)
}

/// The function outside of adts of that number.
pub fn function(env: &Environment, number: usize) -> Option<&Signature>
    ensures { option_copied result ≡ spec.function env.now number }
{
    env.functions.get(number)
}

/// The names of the members of the aggregate of that number.
fn names(env: &Environment, aggregate: u32) -> Option<&MemberNames>
    ensures { option_copied result ≡ slice_get env.now.names aggregate }
{
    env.names.get(aggregate as usize)
}

fn members(names: Option<&MemberNames>) -> &[NamedMember]
    ensures { result.now ≡ spec.members_in (option_copied names.entry) }
{
    match names {
        None => &[],
        Some(names) => names.members.as_slice(),
    }
}

fn functions(names: Option<&MemberNames>) -> &[NamedFunction]
    ensures { result.now ≡ spec.functions_in (option_copied names.entry) }
{
    match names {
        None => &[],
        Some(names) => names.functions.as_slice(),
    }
}

/// The data member of that name of the aggregate of that number.
#[tactic(auto, unfolding(crate::specs::Lookups::member_named))]
pub fn member_named(env: &Environment, aggregate: u32, name: u32) -> Option<&NamedMember>
    ensures { option_copied result ≡ spec.member_named env.now aggregate name }
{
    members(names(env, aggregate))
        .iter()
        .find(|m| m.name == name)
}

/// The function of that name of the aggregate of that number.
#[tactic(auto, unfolding(crate::specs::Lookups::function_named))]
pub fn function_named(env: &Environment, aggregate: u32, name: u32) -> Option<&NamedFunction>
    ensures { option_copied result ≡ spec.function_named env.now aggregate name }
{
    functions(names(env, aggregate))
        .iter()
        .find(|f| f.name == name)
}

fn is_own(own: &Option<OwnAdt>, adt: u32) -> bool
    ensures { result ≡ spec.is_own own.now adt }
{
    match own {
        None => false,
        Some(own) => own.aggregate == adt,
    }
}

/// Whether the function at hand is one of each of these adts.
pub fn is_inside(here: &Here, adts: &[u32]) -> bool
    ensures { result ≡ spec.is_inside here.now adts.now }
{
    adts.iter().all(|adt| is_own(&here.own, *adt))
}

/// Which parameter of the own adt has that name.
fn parameter_named(own: &OwnAdt, name: u32) -> Option<usize>
    ensures { result ≡ spec.parameter_named own.now name }
{
    own.parameters.as_slice().iter().position(|p| *p == name)
}

/// The argument of a parameter of the own adt.
#[tactic(auto, unfolding(crate::specs::Lookups::argument))]
fn argument(own: &OwnAdt, name: u32) -> Option<&Ty>
    ensures { option_copied result ≡ spec.argument own.now name }
{
    match parameter_named(own, name) {
        None => None,
        Some(k) => own.arguments.get(k),
    }
}

fn copied(alloc: Global, ty: Option<&Ty>) -> Result<Option<Ty>, NoMemory>
    ensures { IfOk result (λ t. t ≡ option_copied ty.entry) }
{
    match ty {
        None => Ok(None),
        Some(ty) => Ok(Some(ty.copy(alloc)?)),
    }
}

fn own_type(own: &OwnAdt, name: u32) -> Option<Ty>
    ensures { result ≡ spec.own_type own.now name }
{
    if own.name == name {
        Some(Ty::Aggregate(own.aggregate))
    } else {
        None
    }
}

fn inner_type(alloc: Global, own: &Option<OwnAdt>, name: u32) -> Result<Option<Ty>, NoMemory>
    ensures { IfOk result (λ t. t ≡ spec.inner_type own.now name) }
{
    let own = match own {
        None => return Ok(None),
        Some(own) => own,
    };
    match argument(own, name) {
        None => Ok(own_type(own, name)),
        Some(ty) => Ok(Some(ty.copy(alloc)?)),
    }
}

fn outer_type(env: &Environment, name: u32) -> Option<&Ty>
    ensures { option_copied result ≡ spec.outer_type env.now name }
{
    match env.types.get(name as usize) {
        None => None,
        Some(ty) => ty.as_ref(),
    }
}

/// What a type's name without type arguments stands for.
#[tactic(auto, unfolding(crate::specs::Lookups::plain_type))]
pub fn plain_type(
    alloc: Global,
    env: &Environment,
    here: &Here,
    name: u32,
) -> Result<Option<Ty>, NoMemory>
    ensures { IfOk result (λ t. t ≡ spec.plain_type env.now here.now name) }
{
    match inner_type(alloc, &here.own, name)? {
        None => copied(alloc, outer_type(env, name)),
        Some(ty) => Ok(Some(ty)),
    }
}

/// Whether that is that instance of that adt.
fn is_instance(adt: u32, arguments: &[Ty], i: &InstanceType) -> bool
    ensures { result ≡ spec.is_instance adt arguments.now i.now }
{
    i.adt == adt && same_list(true, i.arguments.as_slice(), arguments)
}

/// The type that an adt's name with these type arguments stands for.
#[tactic(auto, unfolding(crate::specs::Lookups::instance_type))]
pub fn instance_type(env: &Environment, adt: u32, arguments: &[Ty]) -> Option<Ty>
    ensures { result ≡ spec.instance_type env.now adt arguments.now }
{
    let found = env
        .instances
        .as_slice()
        .iter()
        .find(|i| is_instance(adt, arguments, i));
    match found {
        None => None,
        Some(i) => Some(Ty::Aggregate(i.aggregate)),
    }
}
