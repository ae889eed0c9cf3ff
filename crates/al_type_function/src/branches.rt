//! The walk over the branches of pars in a statement.
ghost use Rattle.std.specs.Prelude.{◌≡◌, [], OnOk};
ghost use Rattle.al_rules.specs.Outcome.{Answers};
ghost use Rattle.al_typed.specs.Layout.{IsLaidOut};
ghost use Rattle.al_type_function.specs.Branches as spec;

use crate::branch::{NumberedBranch, typed_branch};
use crate::site::{Site, leave};
use al_environment::Environment;
use al_items::{Boxed, Items};
use al_operands::beside;
use al_rules::TypeStop;
use al_tree::Stmt;
use al_type_expr::more;
use al_type_stmt::Within;
use std::alloc::Global;

/// A branch, and those in it.
#[cycle(branches)]
#[tactic(auto, unfolding(crate::specs::Branches::branch), using(al_rules::proofs::Permits::permitted))]
fn branch(
    alloc: Global,
    env: &Environment,
    names: &[Items<u8>],
    w: &Within,
    site: &mut Site,
    s: &Stmt,
    done: Items<NumberedBranch>,
) -> Result<Items<NumberedBranch>, TypeStop>
    requires laid { IsLaidOut env.now.aggregates }
    requires none { site.old.here.iterators ≡ [] }
    ensures answer { Answers result (spec.in_par env.now names.now w.now s.now site.old done) }
    ensures same { OnOk result (site.new ≡ site.old) }
{
    let next = typed_branch(alloc, env, names, w, site, s);
    let (done, next) = beside(done, next)?;
    let done = more(done, next)?;
    let done = branches_in(alloc, env, names, w, site, s, done)?;
    leave(site);
    Ok(done)
}

/// The branches of a par, each with those in it.
#[cycle(branches)]
#[tactic(auto, using(crate::proofs::BranchesAre::each_is, al_rules::proofs::Permits::permitted))]
fn branches(
    alloc: Global,
    env: &Environment,
    names: &[Items<u8>],
    w: &Within,
    site: &mut Site,
    list: &[Stmt],
    done: Items<NumberedBranch>,
) -> Result<Items<NumberedBranch>, TypeStop>
    requires laid { IsLaidOut env.now.aggregates }
    requires none { site.old.here.iterators ≡ [] }
    ensures answer { Answers result (spec.each (spec.in_par env.now names.now w.now) list.now site.old done) }
    ensures same { OnOk result (site.new ≡ site.old) }
{
    let mut done = done;
    for s in list {
        done = branch(alloc, env, names, w, site, s, done)?;
    }
    Ok(done)
}

/// Those in statements one after the other.
#[cycle(branches)]
#[tactic(auto, using(crate::proofs::BranchesAre::each_is, al_rules::proofs::Permits::permitted))]
fn statements(
    alloc: Global,
    env: &Environment,
    names: &[Items<u8>],
    w: &Within,
    site: &mut Site,
    list: &[Stmt],
    done: Items<NumberedBranch>,
) -> Result<Items<NumberedBranch>, TypeStop>
    requires laid { IsLaidOut env.now.aggregates }
    requires none { site.old.here.iterators ≡ [] }
    ensures answer { Answers result (spec.each (spec.branches env.now names.now w.now) list.now site.old done) }
    ensures same { OnOk result (site.new ≡ site.old) }
{
    let mut done = done;
    for s in list {
        done = branches_in(alloc, env, names, w, site, s, done)?;
    }
    Ok(done)
}

/// Those in a statement that may be missing.
#[cycle(branches)]
fn other(
    alloc: Global,
    env: &Environment,
    names: &[Items<u8>],
    w: &Within,
    site: &mut Site,
    s: &Option<Boxed<Stmt>>,
    done: Items<NumberedBranch>,
) -> Result<Items<NumberedBranch>, TypeStop>
    requires laid { IsLaidOut env.now.aggregates }
    requires none { site.old.here.iterators ≡ [] }
    ensures answer { Answers result (spec.optional (spec.branches env.now names.now w.now) s.now site.old done) }
    ensures same { OnOk result (site.new ≡ site.old) }
{
    match s {
        None => Ok(done),
        Some(s) => branches_in(alloc, env, names, w, site, s.get(), done),
    }
}

/// The branches in a statement that stands there, nested ones too, behind those before it. Each is before those in it.
#[cycle(branches)]
#[tactic(auto, using(crate::proofs::BranchesAre::branches_are, al_rules::proofs::Permits::permitted))]
pub(crate) fn branches_in(
    alloc: Global,
    env: &Environment,
    names: &[Items<u8>],
    w: &Within,
    site: &mut Site,
    s: &Stmt,
    done: Items<NumberedBranch>,
) -> Result<Items<NumberedBranch>, TypeStop>
    requires laid { IsLaidOut env.now.aggregates }
    requires none { site.old.here.iterators ≡ [] }
    ensures answer { Answers result (spec.branches env.now names.now w.now s.now site.old done) }
    ensures same { OnOk result (site.new ≡ site.old) }
{
    match s {
        Stmt::Block { body, .. } | Stmt::Switch { body, .. } | Stmt::Alt { body, .. } => {
            statements(alloc, env, names, w, site, body.as_slice(), done)
        }
        Stmt::Label { body, .. }
        | Stmt::While { body, .. }
        | Stmt::Do { body, .. }
        | Stmt::For { body, .. }
        | Stmt::Rescue { body, .. } => branches_in(alloc, env, names, w, site, body.get(), done),
        Stmt::If {
            then,
            other: otherwise,
            ..
        } => {
            let done = branches_in(alloc, env, names, w, site, then.get(), done)?;
            other(alloc, env, names, w, site, otherwise, done)
        }
        Stmt::Par { branches: list, .. } => {
            branches(alloc, env, names, w, site, list.as_slice(), done)
        }
        Stmt::Empty { .. }
        | Stmt::Declare { .. }
        | Stmt::Value { .. }
        | Stmt::Case { .. }
        | Stmt::Default { .. }
        | Stmt::Raise { .. }
        | Stmt::Return { .. }
        | Stmt::Become { .. }
        | Stmt::Break { .. }
        | Stmt::Continue { .. }
        | Stmt::Goto { .. }
        | Stmt::Alloc { .. }
        | Stmt::Unalloc { .. }
        | Stmt::Check { .. }
        | Stmt::Proc { .. }
        | Stmt::Task { .. } => Ok(done),
    }
}
