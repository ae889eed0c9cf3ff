//! The check of a text, part by part.
ghost use Rattle.std.specs.Prelude.{◌≡◌, IfOk};
ghost use Rattle.al_rules.specs.Outcome.{Answers};
ghost use Rattle.al_typed.specs.Layout.{IsLaidOut};
ghost use Rattle.al_check.specs.Checked as spec;

use crate::flow::all_targets;
use crate::program::whole;
use al_bodies::{Bodies, bodies};
use al_build_environment::environment;
use al_called::names_are_called;
use al_declare::{ask_names, functions};
use al_environment::Environment;
use al_initial::{Initial, initial};
use al_poly::Instances;
use al_rules::TypeStop;
use al_scope::{Scopes, resolve};
use al_tree::Tree;
use al_typed::Program;
use std::alloc::Global;

/// The functions of a text.
fn bodies_of(
    alloc: Global,
    tree: &Tree,
    instances: &Instances,
    env: &Environment,
    texts: usize,
) -> Result<Bodies, TypeStop>
    requires { IsLaidOut env.now.aggregates }
    ensures { Answers result (spec.bodies_of tree.now instances.now.list env.now texts) }
{
    let defined = functions(alloc, tree, instances)?;
    bodies(alloc, env, tree, defined.as_slice(), texts)
}

#[tactic(auto, unfolding(crate::specs::Checked::with_bodies), using(al_rules::proofs::Permits::permitted))]
fn with_bodies(
    alloc: Global,
    tree: &Tree,
    instances: &Instances,
    env: Environment,
    i: Initial,
) -> Result<Program, TypeStop>
    requires { IsLaidOut env.aggregates }
    ensures answer { Answers result (spec.with_bodies tree.now instances.now.list env i) }
    ensures laid { IfOk result (λ p. IsLaidOut p.aggregates) }
{
    let b = bodies_of(alloc, tree, instances, &env, i.texts.len())?;
    whole(alloc, tree, env, i, b)
}

#[tactic(auto, unfolding(crate::specs::Checked::with_globals), using(al_rules::proofs::Permits::permitted))]
fn with_globals(
    alloc: Global,
    tree: &Tree,
    instances: &Instances,
    env: Environment,
) -> Result<Program, TypeStop>
    requires { IsLaidOut env.aggregates }
    ensures answer { Answers result (spec.with_globals tree.now instances.now.list env) }
    ensures laid { IfOk result (λ p. IsLaidOut p.aggregates) }
{
    let i = initial(alloc, &env, tree)?;
    with_bodies(alloc, tree, instances, env, i)
}

#[tactic(auto, unfolding(crate::specs::Checked::with_names), using(al_rules::proofs::Permits::permitted))]
fn with_names(
    alloc: Global,
    tree: &Tree,
    instances: &Instances,
    scopes: Scopes,
) -> Result<Program, TypeStop>
    ensures answer { Answers result (spec.with_names tree.now instances.now.list scopes) }
    ensures laid { IfOk result (λ p. IsLaidOut p.aggregates) }
{
    let env = environment(alloc, tree, instances, scopes)?;
    with_globals(alloc, tree, instances, env)
}

#[tactic(auto, unfolding(crate::specs::Checked::with_flows), using(al_rules::proofs::Permits::permitted))]
fn with_flows(alloc: Global, tree: &Tree, instances: &Instances) -> Result<Program, TypeStop>
    ensures answer { Answers result (spec.with_flows tree.now instances.now.list) }
    ensures laid { IfOk result (λ p. IsLaidOut p.aggregates) }
{
    let scopes = resolve(alloc, tree)?;
    with_names(alloc, tree, instances, scopes)
}

/// The typed program of a text that has these instances, by all 58 typing rules but 13 and 14, which its instances are asked.
///
/// A fault is a rule that the node at its place breaks. It is found exactly where there is one.
#[tactic(auto, unfolding(crate::specs::Checked::check), using(al_rules::proofs::Permits::permitted))]
pub fn check(alloc: Global, tree: &Tree, instances: &Instances) -> Result<Program, TypeStop>
    ensures answer { Answers result (spec.check tree.now instances.now.list) }
    ensures laid { IfOk result (λ p. IsLaidOut p.aggregates) }
{
    ask_names(alloc, tree)?;
    names_are_called(alloc, tree)?;
    all_targets(alloc, tree.items.as_slice())?;
    with_flows(alloc, tree, instances)
}
