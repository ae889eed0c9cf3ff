//! The environment of a whole text.
ghost use Rattle.std.specs.Prelude.{◌≡◌, IfOk};
ghost use Rattle.al_rules.specs.Outcome.{Answers};
ghost use Rattle.al_typed.specs.Layout.{IsLaidOut};
ghost use Rattle.al_build_environment.specs.Whole as spec;

use al_adt_functions::functions as own_functions;
use al_base::Place;
use al_build_types::{instances as instance_types, types};
use al_declare::{Defined, functions};
use al_environment::{Environment, InstanceType, MemberNames};
use al_form::{Forms, forms};
use al_globals::{Found, globals, numbers};
use al_items::Items;
use al_layout::{LaidOut, laid_out};
use al_member_names::member_names;
use al_poly::Instances;
use al_rules::{TypeStop, ask, judged};
use al_scope::Scopes;
use al_sound_types::environment_holds;
use al_tree::Tree;
use al_typed::{Aggregate, Ty};
use std::alloc::Global;

/// The environment in which types are found.
fn of_types(
    alloc: Global,
    aggregates: Items<Aggregate>,
    types: Items<Option<Ty>>,
    instances: Items<InstanceType>,
    scopes: Scopes,
) -> Environment
    ensures { result ≡ spec.of_types aggregates types instances scopes }
{
    Environment {
        aggregates,
        names: Items::new(alloc),
        globals: Items::new(alloc),
        functions: Items::new(alloc),
        types,
        instances,
        scopes,
    }
}

/// With the names of members, the globals and the functions.
fn with_names(env: Environment, names: Items<MemberNames>, found: Found) -> Environment
    ensures { result ≡ spec.with_names env names found }
{
    let Environment {
        aggregates,
        names: _,
        globals: _,
        functions: _,
        types,
        instances,
        scopes,
    } = env;
    let Found {
        globals,
        functions,
        ..
    } = found;
    Environment {
        aggregates,
        names,
        globals,
        functions,
        types,
        instances,
        scopes,
    }
}

/// The names of members.
#[tactic(auto, using(al_rules::proofs::Permits::permitted))]
fn names_of(
    alloc: Global,
    env: &Environment,
    tree: &Tree,
    defined: &[Defined],
    forms: &Forms,
    order: &[usize],
    numbers: &[usize],
) -> Result<Items<MemberNames>, TypeStop>
    requires { IsLaidOut env.now.aggregates }
    ensures { Answers result (spec.names_of env.now tree.now defined.now forms.now order.now numbers.now) }
{
    let items = tree.items.as_slice();
    let own = own_functions(alloc, env, items, defined, forms, numbers)?;
    member_names(alloc, forms, numbers, order, own.as_slice())
}

fn globals_of(
    alloc: Global,
    env: &Environment,
    tree: &Tree,
    defined: &[Defined],
) -> Result<Found, TypeStop>
    requires { IsLaidOut env.now.aggregates }
    ensures { Answers result (spec.globals_of env.now tree.now defined.now) }
{
    let bodies = numbers(alloc, tree.names.as_slice(), tree.items.as_slice(), defined)?;
    globals(alloc, env, tree, bodies.as_slice())
}

/// An environment whose types, as wholes, are ones that the rules leave.
#[tactic(auto, unfolding(crate::specs::Whole::checked), using(al_rules::proofs::Permits::permitted))]
fn checked(alloc: Global, env: Environment) -> Result<Environment, TypeStop>
    requires { IsLaidOut env.aggregates }
    ensures answer { Answers result (spec.checked env) }
    ensures same { IfOk result (λ e. e ≡ env) }
{
    let mut faults = Items::new(alloc);
    let holds = environment_holds(&env);
    ask(&mut faults, 18, Place { line: 1, col: 1 }, holds)?;
    judged(faults.as_slice(), env)
}

#[tactic(auto, using(al_rules::proofs::Permits::permitted), unfolding(crate::specs::Whole::whole))]
fn whole(
    alloc: Global,
    env: Environment,
    tree: &Tree,
    defined: &[Defined],
    forms: &Forms,
    order: &[usize],
    numbers: &[usize],
) -> Result<Environment, TypeStop>
    requires { IsLaidOut env.aggregates }
    ensures answer { Answers result (spec.whole env tree.now defined.now forms.now order.now numbers.now) }
    ensures laid { IfOk result (λ e. IsLaidOut e.aggregates) }
{
    let names = names_of(alloc, &env, tree, defined, forms, order, numbers)?;
    let found = globals_of(alloc, &env, tree, defined)?;
    checked(alloc, with_names(env, names, found))
}

/// The environment of a text whose types with members are laid out so.
fn laid_whole(
    alloc: Global,
    tree: &Tree,
    scopes: Scopes,
    defined: &[Defined],
    forms: &Forms,
    laid: LaidOut,
) -> Result<Environment, TypeStop>
    requires { IsLaidOut laid.aggregates }
    ensures answer { Answers result (spec.laid_whole tree.now scopes defined.now forms.now laid) }
    ensures laid { IfOk result (λ e. IsLaidOut e.aggregates) }
{
    let LaidOut {
        aggregates,
        forms: order,
        numbers,
    } = laid;
    let named = types(alloc, tree, forms, numbers.as_slice())?;
    let instances = instance_types(alloc, forms, numbers.as_slice())?;
    let env = of_types(alloc, aggregates, named, instances, scopes);
    whole(
        alloc,
        env,
        tree,
        defined,
        forms,
        order.as_slice(),
        numbers.as_slice(),
    )
}

#[tactic(auto, using(al_rules::proofs::Permits::permitted))]
fn formed(
    alloc: Global,
    tree: &Tree,
    scopes: Scopes,
    defined: &[Defined],
    forms: &Forms,
) -> Result<Environment, TypeStop>
    ensures answer { Answers result (spec.formed tree.now scopes defined.now forms.now) }
    ensures laid { IfOk result (λ e. IsLaidOut e.aggregates) }
{
    let laid = laid_out(alloc, forms)?;
    laid_whole(alloc, tree, scopes, defined, forms, laid)
}

/// What the items of a text declare, where it has these instances and its names stand for that.
///
/// A fault is an item, a member or a type outside of the bodies of functions that breaks rule 2, 4, 6, 7, 8, 11, 16, 18, 19 or
/// 20; of rule 2 it is asked what types decide. It is found exactly where there is one.
#[tactic(auto, unfolding(crate::specs::Whole::environment))]
pub fn environment(
    alloc: Global,
    tree: &Tree,
    instances: &Instances,
    scopes: Scopes,
) -> Result<Environment, TypeStop>
    ensures answer { Answers result (spec.environment tree.now instances.now.list scopes) }
    ensures laid { IfOk result (λ env. IsLaidOut env.aggregates) }
{
    let defined = functions(alloc, tree, instances)?;
    let forms = forms(alloc, tree, instances)?;
    formed(alloc, tree, scopes, defined.as_slice(), &forms)
}
