//! The branches of all pars in a statement.
ghost use Rattle.std.specs.Prelude.{◌≡◌, ◌++◌, OnOk};
ghost use Rattle.std.specs.List.{flat_map};
ghost use Rattle.al_branches.specs.Statements as spec;

use al_base::{NoMemory, Place};
use al_items::{Boxed, Items};
use al_tree::Stmt;

/// The place of a statement's first token.
#[tactic(auto, using(crate::proofs::StatementsAre::place_is))]
fn place(s: &Stmt) -> Place
    ensures { result ≡ spec.place s.now }
{
    match s {
        Stmt::Empty { at }
        | Stmt::Block { at, .. }
        | Stmt::Declare { at, .. }
        | Stmt::Value { at, .. }
        | Stmt::Label { at, .. }
        | Stmt::If { at, .. }
        | Stmt::While { at, .. }
        | Stmt::Do { at, .. }
        | Stmt::For { at, .. }
        | Stmt::Switch { at, .. }
        | Stmt::Alt { at, .. }
        | Stmt::Case { at, .. }
        | Stmt::Default { at }
        | Stmt::Par { at, .. }
        | Stmt::Rescue { at, .. }
        | Stmt::Raise { at, .. }
        | Stmt::Return { at, .. }
        | Stmt::Become { at, .. }
        | Stmt::Break { at, .. }
        | Stmt::Continue { at, .. }
        | Stmt::Goto { at, .. }
        | Stmt::Alloc { at, .. }
        | Stmt::Unalloc { at, .. }
        | Stmt::Check { at, .. }
        | Stmt::Proc { at, .. }
        | Stmt::Task { at, .. } => *at,
    }
}

/// Adds those of the branches of a par, and of what is in them.
#[cycle(statement)]
#[tactic(auto, using(crate::proofs::StatementsAre::one_more))]
fn branches(list: &[Stmt], places: &mut Items<Place>) -> Result<(), NoMemory>
    ensures { OnOk result (places.new ≡ places.old ++ flat_map spec.in_par list.now) }
{
    for s in list {
        places.push(place(s))?;
        stmt(s, places)?;
    }
    Ok(())
}

/// Adds those of statements.
#[cycle(statement)]
#[tactic(auto, using(crate::proofs::StatementsAre::one_more))]
fn stmts(list: &[Stmt], places: &mut Items<Place>) -> Result<(), NoMemory>
    ensures { OnOk result (places.new ≡ places.old ++ flat_map spec.branch_places list.now) }
{
    for s in list {
        stmt(s, places)?;
    }
    Ok(())
}

/// Adds those of a statement that may be missing.
#[cycle(statement)]
#[tactic(auto, using(crate::proofs::StatementsAre::one_more))]
fn other(s: &Option<Boxed<Stmt>>, places: &mut Items<Place>) -> Result<(), NoMemory>
    ensures { OnOk result (places.new ≡ places.old ++ spec.optional spec.branch_places s.now) }
{
    match s {
        None => Ok(()),
        Some(s) => stmt(s.get(), places),
    }
}

/// Adds the places of the branches of all pars in a statement, in text order.
#[cycle(statement)]
#[tactic(auto, using(crate::proofs::StatementsAre::branches_are))]
pub(crate) fn stmt(s: &Stmt, places: &mut Items<Place>) -> Result<(), NoMemory>
    ensures { OnOk result (places.new ≡ places.old ++ spec.branch_places s.now) }
{
    match s {
        Stmt::Block { body, .. } | Stmt::Switch { body, .. } | Stmt::Alt { body, .. } => {
            stmts(body.as_slice(), places)
        }
        Stmt::Label { body, .. }
        | Stmt::While { body, .. }
        | Stmt::Do { body, .. }
        | Stmt::For { body, .. }
        | Stmt::Rescue { body, .. } => stmt(body.get(), places),
        Stmt::If {
            then,
            other: otherwise,
            ..
        } => {
            stmt(then.get(), places)?;
            other(otherwise, places)
        }
        Stmt::Par { branches: list, .. } => branches(list.as_slice(), places),
        Stmt::Empty { .. }
        | Stmt::Declare { .. }
        | Stmt::Value { .. }
        | Stmt::Case { .. }
        | Stmt::Default { .. }
        | Stmt::Raise { .. }
        | Stmt::Return { .. }
        | Stmt::Become { .. }
        | Stmt::Break { .. }
        | Stmt::Continue { .. }
        | Stmt::Goto { .. }
        | Stmt::Alloc { .. }
        | Stmt::Unalloc { .. }
        | Stmt::Check { .. }
        | Stmt::Proc { .. }
        | Stmt::Task { .. } => Ok(()),
    }
}
