//! What stands in a list behind the first word of a statement.
ghost use Rattle.std.specs.Prelude.{◌≡◌, map};
ghost use Rattle.std.specs.Option.{option_copied};
ghost use Rattle.al_rules.specs.Outcome.{Answers, preceded};
ghost use Rattle.al_typed.specs.Layout.{IsLaidOut};
ghost use Rattle.al_type_expr.specs.Lists.{each};
ghost use Rattle.al_type_stmt.specs.Statements as spec;
ghost use Rattle.al_type_stmt.specs.Statements.{part, places};

use crate::part::place;
use crate::within::Within;
use al_base::Place;
use al_environment::{Environment, Here, Variable as Known};
use al_items::Items;
use al_operands::beside;
use al_rules::{TypeStop, broken};
use al_scope::Declaration;
use al_statements::{allocated, given_back, initialized, started};
use al_tree::{Expr, Stmt, Variable};
use al_type_expr::{dropped_value, expr_place, more, place_in, value_of};
use al_typed::{TExpr, TInitializer, TPlace, TStmt};
use std::alloc::Global;

/// The local that the name at a place declares.
#[tactic(auto, unfolding(crate::specs::Statements::local_named))]
fn local_named<'h>(env: &Environment, here: &'h Here, at: Place) -> Option<&'h Known>
    ensures { option_copied result ≡ spec.local_named env.now here.now at }
{
    match env.scopes.declaration(at) {
        Some(Declaration::Local(n)) => here.locals.as_slice().get(n),
        _ => None,
    }
}

/// That local with the value that it starts with.
#[tactic(auto, unfolding(crate::specs::Statements::known_initializer), using(al_rules::proofs::Permits::permitted))]
fn known_initializer(
    alloc: Global,
    env: &Environment,
    here: &Here,
    at: Place,
    e: &Expr,
    v: &Known,
) -> Result<TInitializer, TypeStop>
    requires { IsLaidOut env.now.aggregates }
    ensures { Answers result (spec.known_initializer env.now here.now at e.now v.now) }
{
    let x = value_of(alloc, env, here, e)?;
    let value = initialized(alloc, at, &v.ty, x)?;
    Ok(TInitializer {
        local: v.number,
        value,
    })
}

/// The value that the local starts with that the name at a place declares.
#[tactic(auto, unfolding(crate::specs::Statements::initializer_of))]
fn initializer_of(
    alloc: Global,
    env: &Environment,
    here: &Here,
    at: Place,
    e: &Expr,
) -> Result<TInitializer, TypeStop>
    requires { IsLaidOut env.now.aggregates }
    ensures { Answers result (spec.initializer_of env.now here.now at e.now) }
{
    match local_named(env, here, at) {
        None => Err(broken(1, at)),
        Some(v) => known_initializer(alloc, env, here, at, e, v),
    }
}

/// These, and the value that one local more starts with, where it is given one.
#[tactic(auto, using(crate::proofs::EachOf::started))]
fn with_initializer(
    alloc: Global,
    env: &Environment,
    here: &Here,
    v: &Variable,
    done: Items<TInitializer>,
) -> Result<Items<TInitializer>, TypeStop>
    requires { IsLaidOut env.now.aggregates }
    ensures { Answers result (preceded done (each (spec.initializers env.now here.now v.now))) }
{
    match &v.value {
        None => Ok(done),
        Some(e) => {
            let next = initializer_of(alloc, env, here, v.dcl.name.at, e);
            let (done, next) = beside(done, next)?;
            Ok(more(done, next)?)
        }
    }
}

/// A list of locals.
#[tactic(auto, unfolding(crate::specs::Statements::declared), using(crate::proofs::EachOf::starts_so_far, al_rules::proofs::Permits::permitted))]
pub(crate) fn declared(
    alloc: Global,
    env: &Environment,
    here: &Here,
    line: u32,
    variables: &[Variable],
) -> Result<TStmt, TypeStop>
    requires { IsLaidOut env.now.aggregates }
    ensures { Answers result (spec.declared env.now here.now line variables.now) }
{
    let mut done = Items::new(alloc);
    for v in variables {
        done = with_initializer(alloc, env, here, v, done)?;
    }
    Ok(TStmt::Declare {
        line,
        initializers: done,
    })
}

/// A place behind alloc.
#[tactic(auto, unfolding(crate::specs::Statements::alloc_place), using(al_rules::proofs::Permits::permitted))]
fn alloc_place(alloc: Global, env: &Environment, here: &Here, e: &Expr) -> Result<TPlace, TypeStop>
    requires { IsLaidOut env.now.aggregates }
    ensures { Answers result (spec.alloc_place env.now here.now e.now) }
{
    let at = expr_place(e);
    let p = place_in(alloc, env, here, at, e)?;
    allocated(env.aggregates.as_slice(), at, p)
}

/// The places behind alloc.
#[tactic(auto, unfolding(al_type_expr::specs::Lists::each), using(al_rules::proofs::Permits::permitted, al_rules::proofs::Permits::fronts))]
fn alloc_places(
    alloc: Global,
    env: &Environment,
    here: &Here,
    es: &[Expr],
) -> Result<Items<TPlace>, TypeStop>
    requires { IsLaidOut env.now.aggregates }
    ensures { Answers result (spec.of_each (spec.alloc_place env.now here.now) es.now) }
{
    let mut done = Items::new(alloc);
    for e in es {
        let next = alloc_place(alloc, env, here, e);
        let (list, next) = beside(done, next)?;
        done = more(list, next)?;
    }
    Ok(done)
}

/// `alloc`
#[tactic(auto, unfolding(crate::specs::Statements::alloc_at), using(al_rules::proofs::Permits::permitted))]
pub(crate) fn alloc_at(
    alloc: Global,
    env: &Environment,
    here: &Here,
    at: Place,
    es: &[Expr],
) -> Result<TStmt, TypeStop>
    requires { IsLaidOut env.now.aggregates }
    ensures { Answers result (spec.alloc_at env.now here.now at es.now) }
{
    let places = alloc_places(alloc, env, here, es)?;
    Ok(TStmt::Alloc {
        line: at.line,
        places,
    })
}

/// A value behind unalloc.
#[tactic(auto, unfolding(crate::specs::Statements::unalloc_value), using(al_rules::proofs::Permits::permitted))]
fn unalloc_value(alloc: Global, env: &Environment, here: &Here, e: &Expr) -> Result<TExpr, TypeStop>
    requires { IsLaidOut env.now.aggregates }
    ensures { Answers result (spec.unalloc_value env.now here.now e.now) }
{
    let x = value_of(alloc, env, here, e)?;
    given_back(expr_place(e), x)
}

/// The values behind unalloc.
#[tactic(auto, unfolding(al_type_expr::specs::Lists::each), using(al_rules::proofs::Permits::permitted, al_rules::proofs::Permits::fronts))]
fn unalloc_values(
    alloc: Global,
    env: &Environment,
    here: &Here,
    es: &[Expr],
) -> Result<Items<TExpr>, TypeStop>
    requires { IsLaidOut env.now.aggregates }
    ensures { Answers result (spec.of_each (spec.unalloc_value env.now here.now) es.now) }
{
    let mut done = Items::new(alloc);
    for e in es {
        let next = unalloc_value(alloc, env, here, e);
        let (list, next) = beside(done, next)?;
        done = more(list, next)?;
    }
    Ok(done)
}

/// `unalloc`
#[tactic(auto, unfolding(crate::specs::Statements::unalloc_at), using(al_rules::proofs::Permits::permitted))]
pub(crate) fn unalloc_at(
    alloc: Global,
    env: &Environment,
    here: &Here,
    at: Place,
    es: &[Expr],
) -> Result<TStmt, TypeStop>
    requires { IsLaidOut env.now.aggregates }
    ensures { Answers result (spec.unalloc_at env.now here.now at es.now) }
{
    let values = unalloc_values(alloc, env, here, es)?;
    Ok(TStmt::Unalloc {
        line: at.line,
        values,
    })
}

/// A call behind proc or task.
#[tactic(auto, unfolding(crate::specs::Statements::start_of), using(al_rules::proofs::Permits::permitted))]
fn start_of(alloc: Global, env: &Environment, here: &Here, e: &Expr) -> Result<TExpr, TypeStop>
    requires { IsLaidOut env.now.aggregates }
    ensures { Answers result (spec.start_of env.now here.now e.now) }
{
    let call = dropped_value(alloc, env, here, e)?;
    started(expr_place(e), call)
}

/// The calls behind proc or task.
#[tactic(auto, unfolding(al_type_expr::specs::Lists::each), using(al_rules::proofs::Permits::permitted, al_rules::proofs::Permits::fronts))]
fn starts(
    alloc: Global,
    env: &Environment,
    here: &Here,
    es: &[Expr],
) -> Result<Items<TExpr>, TypeStop>
    requires { IsLaidOut env.now.aggregates }
    ensures { Answers result (spec.of_each (spec.start_of env.now here.now) es.now) }
{
    let mut done = Items::new(alloc);
    for e in es {
        let next = start_of(alloc, env, here, e);
        let (list, next) = beside(done, next)?;
        done = more(list, next)?;
    }
    Ok(done)
}

/// `proc`
#[tactic(auto, unfolding(crate::specs::Statements::proc_at), using(al_rules::proofs::Permits::permitted))]
pub(crate) fn proc_at(
    alloc: Global,
    env: &Environment,
    here: &Here,
    at: Place,
    es: &[Expr],
) -> Result<TStmt, TypeStop>
    requires { IsLaidOut env.now.aggregates }
    ensures { Answers result (spec.proc_at env.now here.now at es.now) }
{
    let calls = starts(alloc, env, here, es)?;
    Ok(TStmt::Proc {
        line: at.line,
        calls,
    })
}

/// `task`
#[tactic(auto, unfolding(crate::specs::Statements::task_at), using(al_rules::proofs::Permits::permitted))]
pub(crate) fn task_at(
    alloc: Global,
    env: &Environment,
    here: &Here,
    at: Place,
    es: &[Expr],
) -> Result<TStmt, TypeStop>
    requires { IsLaidOut env.now.aggregates }
    ensures { Answers result (spec.task_at env.now here.now at es.now) }
{
    let calls = starts(alloc, env, here, es)?;
    Ok(TStmt::Task {
        line: at.line,
        calls,
    })
}

/// The function that the branch at a place is.
#[tactic(auto, unfolding(crate::specs::Statements::branch_at))]
fn branch_at(w: &Within, at: Place) -> Result<u32, TypeStop>
    ensures { Answers result (spec.branch_at w.now at) }
{
    match w.branches.number(at) {
        None => Err(broken(54, at)),
        Some(n) => Ok(n),
    }
}

/// The functions that the branches of a par are.
#[tactic(auto, unfolding(al_type_expr::specs::Lists::each), using(al_rules::proofs::Permits::permitted, al_rules::proofs::Permits::fronts))]
fn branch_numbers(
    alloc: Global,
    env: &Environment,
    here: &Here,
    w: &Within,
    branches: &[Stmt],
) -> Result<Items<u32>, TypeStop>
    ensures { Answers result (spec.of_each (spec.branch_at w.now) (places (map (part w.now env.now here.now) branches.now))) }
{
    let mut done = Items::new(alloc);
    for s in branches {
        done.push(branch_at(w, place(s))?)?;
    }
    Ok(done)
}

/// `par`
#[tactic(auto, unfolding(crate::specs::Statements::par_at), using(al_rules::proofs::Permits::permitted))]
pub(crate) fn par_at(
    alloc: Global,
    env: &Environment,
    here: &Here,
    w: &Within,
    at: Place,
    branches: &[Stmt],
) -> Result<TStmt, TypeStop>
    ensures { Answers result (spec.par_at w.now at (places (map (part w.now env.now here.now) branches.now))) }
{
    let branches = branch_numbers(alloc, env, here, w, branches)?;
    Ok(TStmt::Par {
        line: at.line,
        branches,
    })
}
