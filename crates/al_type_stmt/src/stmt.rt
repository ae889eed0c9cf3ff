//! The typed statement of a tree.
ghost use Rattle.std.specs.Prelude.{◌≡◌, [], map, Option, option_map};
ghost use Rattle.std.specs.Option.{option_copied};
ghost use Rattle.al_rules.specs.Outcome.{Outcome, Answers};
ghost use Rattle.al_typed.specs.declared.expression.TExpr.{TExpr};
ghost use Rattle.al_typed.specs.declared.statement.TStmt.{TStmt};
ghost use Rattle.al_typed.specs.Layout.{IsLaidOut};
ghost use Rattle.al_type_stmt.specs.Statements as spec;
ghost use Rattle.al_type_stmt.specs.Statements.{part, inner, in_choice, optional, of_each};

use crate::iterators::value_statement;
use crate::labels::{alt_of, labelled};
use crate::leaf::{become_at, case_at, check_at, condition_of, default_at, for_head, return_at};
use crate::lists::{alloc_at, declared, par_at, proc_at, task_at, unalloc_at};
use crate::numbers::{break_at, continue_at, goto_at, raise_at, target};
use crate::within::{Choice, Within};
use al_base::{Kind, Place};
use al_convert::kind_of;
use al_environment::{Environment, Here};
use al_items::{Boxed, Items};
use al_operands::{beside, parts};
use al_rules::TypeStop;
use al_statements::switched;
use al_tree::{Expr, Stmt};
use al_type_expr::{more, value_of};
use al_type_nodes::lacking;
use al_typed::{TExpr, TStmt};
use std::alloc::Global;

/// `if`, with what was found of its condition and of what it chooses.
#[tactic(auto, unfolding(crate::specs::Statements::if_made), using(al_rules::proofs::Permits::permitted))]
fn if_made(
    at: Place,
    condition: Result<TExpr, TypeStop>,
    met: Result<Boxed<TStmt>, TypeStop>,
    other: Result<Option<Boxed<TStmt>>, TypeStop>,
) -> Result<TStmt, TypeStop>
    ensures { (c : Outcome TExpr) (m : Outcome TStmt) (o : Outcome (Option TStmt)) → Answers condition c → Answers met m → Answers other o → Answers result (spec.if_made at c m o) }
{
    let branches = parts(met, other);
    let (condition, branches) = parts(condition, branches)?;
    let (then, other) = branches;
    Ok(TStmt::If {
        line: at.line,
        condition,
        then,
        other,
    })
}

/// Statements one after the other, in such a body.
#[cycle(statements)]
#[tactic(auto, unfolding(al_type_expr::specs::Lists::each), using(al_rules::proofs::Permits::permitted, al_rules::proofs::Permits::fronts))]
fn statements(
    alloc: Global,
    env: &Environment,
    here: &mut Here,
    w: &Within,
    choice: Choice,
    body: &[Stmt],
) -> Result<Items<TStmt>, TypeStop>
    requires laid { IsLaidOut env.now.aggregates }
    requires none { here.old.iterators ≡ [] }
    ensures answer { Answers result (of_each (in_choice choice) (map (part w.now env.now here.old) body.now)) }
    ensures same { here.new ≡ here.old }
{
    let mut done = Items::new(alloc);
    for s in body {
        let next = statement(alloc, env, here, w, choice, s);
        let (list, next) = beside(done, next)?;
        done = more(list, next)?;
    }
    Ok(done)
}

/// A statement in another, in a box of its own.
#[cycle(statements)]
#[tactic(auto)]
fn boxed(
    alloc: Global,
    env: &Environment,
    here: &mut Here,
    w: &Within,
    s: &Stmt,
) -> Result<Boxed<TStmt>, TypeStop>
    requires laid { IsLaidOut env.now.aggregates }
    requires none { here.old.iterators ≡ [] }
    ensures answer { Answers result (inner (part w.now env.now here.old s.now)) }
    ensures same { here.new ≡ here.old }
{
    let s = statement(alloc, env, here, w, Choice::Neither, s)?;
    Ok(Boxed::new(alloc, s)?)
}

/// A statement that may be missing.
#[cycle(statements)]
#[tactic(auto, using(al_rules::proofs::Permits::permitted))]
fn optional_statement(
    alloc: Global,
    env: &Environment,
    here: &mut Here,
    w: &Within,
    s: &Option<Boxed<Stmt>>,
) -> Result<Option<Boxed<TStmt>>, TypeStop>
    requires laid { IsLaidOut env.now.aggregates }
    requires none { here.old.iterators ≡ [] }
    ensures answer { Answers result (optional inner (option_map (part w.now env.now here.old) s.now)) }
    ensures same { here.new ≡ here.old }
{
    match s {
        None => Ok(None),
        Some(s) => {
            let s = boxed(alloc, env, here, w, s.get())?;
            Ok(Some(s))
        }
    }
}

/// A block.
#[cycle(statements)]
#[tactic(auto, unfolding(crate::specs::Statements::block_at), using(al_rules::proofs::Permits::permitted))]
fn block_at(
    alloc: Global,
    env: &Environment,
    here: &mut Here,
    w: &Within,
    at: Place,
    body: &[Stmt],
) -> Result<TStmt, TypeStop>
    requires laid { IsLaidOut env.now.aggregates }
    requires none { here.old.iterators ≡ [] }
    ensures answer { Answers result (spec.block_at at (map (part w.now env.now here.old) body.now)) }
    ensures same { here.new ≡ here.old }
{
    let body = statements(alloc, env, here, w, Choice::Neither, body)?;
    Ok(TStmt::Block {
        line: at.line,
        body,
    })
}

/// A label and its statement.
#[cycle(statements)]
#[tactic(auto, unfolding(crate::specs::Statements::label_at), using(al_rules::proofs::Permits::permitted))]
fn label_at(
    alloc: Global,
    env: &Environment,
    here: &mut Here,
    w: &Within,
    at: Place,
    body: &Stmt,
) -> Result<TStmt, TypeStop>
    requires laid { IsLaidOut env.now.aggregates }
    requires none { here.old.iterators ≡ [] }
    ensures answer { Answers result (spec.label_at w.now at (inner (part w.now env.now here.old body.now))) }
    ensures same { here.new ≡ here.old }
{
    let body = boxed(alloc, env, here, w, body);
    let number = target(w, 50, at);
    let (body, number) = parts(body, number)?;
    Ok(TStmt::Label {
        line: at.line,
        number,
        body,
    })
}

/// A rescue and its body.
#[cycle(statements)]
#[tactic(auto, unfolding(crate::specs::Statements::rescue_at), using(al_rules::proofs::Permits::permitted))]
fn rescue_at(
    alloc: Global,
    env: &Environment,
    here: &mut Here,
    w: &Within,
    at: Place,
    body: &Stmt,
) -> Result<TStmt, TypeStop>
    requires laid { IsLaidOut env.now.aggregates }
    requires none { here.old.iterators ≡ [] }
    ensures answer { Answers result (spec.rescue_at w.now at (inner (part w.now env.now here.old body.now))) }
    ensures same { here.new ≡ here.old }
{
    let body = boxed(alloc, env, here, w, body);
    let number = target(w, 51, at);
    let (body, number) = parts(body, number)?;
    Ok(TStmt::Rescue {
        line: at.line,
        number,
        body,
    })
}

/// `while`
#[cycle(statements)]
#[tactic(auto, unfolding(crate::specs::Statements::while_at), using(al_rules::proofs::Permits::permitted))]
fn while_at(
    alloc: Global,
    env: &Environment,
    here: &mut Here,
    w: &Within,
    at: Place,
    condition: &Expr,
    body: &Stmt,
) -> Result<TStmt, TypeStop>
    requires laid { IsLaidOut env.now.aggregates }
    requires none { here.old.iterators ≡ [] }
    ensures answer { Answers result (spec.while_at env.now here.old at condition.now (inner (part w.now env.now here.old body.now))) }
    ensures same { here.new ≡ here.old }
{
    let condition = condition_of(alloc, env, here, condition);
    let body = boxed(alloc, env, here, w, body);
    let (condition, body) = parts(condition, body)?;
    Ok(TStmt::While {
        line: at.line,
        condition,
        body,
    })
}

/// `do`
#[cycle(statements)]
#[tactic(auto, unfolding(crate::specs::Statements::do_at), using(al_rules::proofs::Permits::permitted))]
fn do_at(
    alloc: Global,
    env: &Environment,
    here: &mut Here,
    w: &Within,
    at: Place,
    body: &Stmt,
    condition: &Expr,
) -> Result<TStmt, TypeStop>
    requires laid { IsLaidOut env.now.aggregates }
    requires none { here.old.iterators ≡ [] }
    ensures answer { Answers result (spec.do_at env.now here.old at (inner (part w.now env.now here.old body.now)) condition.now) }
    ensures same { here.new ≡ here.old }
{
    let body = boxed(alloc, env, here, w, body);
    let condition = condition_of(alloc, env, here, condition);
    let (body, condition) = parts(body, condition)?;
    Ok(TStmt::Do {
        line: at.line,
        body,
        condition,
    })
}

/// `for`
#[cycle(statements)]
#[tactic(auto, unfolding(crate::specs::Statements::for_at), using(al_rules::proofs::Permits::permitted))]
fn for_at(
    alloc: Global,
    env: &Environment,
    here: &mut Here,
    w: &Within,
    at: Place,
    start: Option<&Expr>,
    condition: Option<&Expr>,
    step: Option<&Expr>,
    body: &Stmt,
) -> Result<TStmt, TypeStop>
    requires laid { IsLaidOut env.now.aggregates }
    requires none { here.old.iterators ≡ [] }
    ensures answer { Answers result (spec.for_at env.now here.old at (option_copied start.entry) (option_copied condition.entry) (option_copied step.entry) (inner (part w.now env.now here.old body.now))) }
    ensures same { here.new ≡ here.old }
{
    let head = for_head(alloc, env, here, start, condition, step);
    let body = boxed(alloc, env, here, w, body);
    let (head, body) = parts(head, body)?;
    let (start, rest) = head;
    let (condition, step) = rest;
    Ok(TStmt::For {
        line: at.line,
        start,
        condition,
        step,
        body,
    })
}

/// A switch on values of that kind.
#[cycle(statements)]
#[tactic(auto, unfolding(crate::specs::Statements::switch_in), using(al_rules::proofs::Permits::permitted))]
fn switch_in(
    alloc: Global,
    env: &Environment,
    here: &mut Here,
    w: &Within,
    at: Place,
    body: &[Stmt],
    value: TExpr,
    kind: Kind,
) -> Result<TStmt, TypeStop>
    requires laid { IsLaidOut env.now.aggregates }
    requires none { here.old.iterators ≡ [] }
    ensures answer { Answers result (spec.switch_in at.line (map (part w.now env.now here.old) body.now) value kind) }
    ensures same { here.new ≡ here.old }
{
    let typed = statements(alloc, env, here, w, Choice::Switch(kind), body);
    let (value, typed) = beside(value, typed)?;
    labelled(alloc, env, here, w, at.line, body, value, typed)
}

/// A switch on that value.
#[cycle(statements)]
#[tactic(auto, unfolding(crate::specs::Statements::switch_on), using(al_operands::proofs::Asking::asking))]
fn switch_on(
    alloc: Global,
    env: &Environment,
    here: &mut Here,
    w: &Within,
    at: Place,
    body: &[Stmt],
    value: TExpr,
) -> Result<TStmt, TypeStop>
    requires laid { IsLaidOut env.now.aggregates }
    requires none { here.old.iterators ≡ [] }
    ensures answer { Answers result (spec.switch_on at (map (part w.now env.now here.old) body.now) value) }
    ensures same { here.new ≡ here.old }
{
    match kind_of(value.ty()) {
        None => lacking(56, at, value),
        Some(kind) => switch_in(alloc, env, here, w, at, body, value, kind),
    }
}

/// `switch`
#[cycle(statements)]
#[tactic(auto, unfolding(crate::specs::Statements::switch_at), using(al_rules::proofs::Permits::permitted))]
fn switch_at(
    alloc: Global,
    env: &Environment,
    here: &mut Here,
    w: &Within,
    at: Place,
    body: &[Stmt],
    e: &Expr,
) -> Result<TStmt, TypeStop>
    requires laid { IsLaidOut env.now.aggregates }
    requires none { here.old.iterators ≡ [] }
    ensures answer { Answers result (spec.switch_at env.now here.old at e.now (map (part w.now env.now here.old) body.now)) }
    ensures same { here.new ≡ here.old }
{
    let x = value_of(alloc, env, here, e)?;
    let value = switched(alloc, at, x)?;
    switch_on(alloc, env, here, w, at, body, value)
}

/// `alt`
#[cycle(statements)]
#[tactic(auto, unfolding(crate::specs::Statements::alt_at), using(al_rules::proofs::Permits::permitted))]
fn alt_at(
    alloc: Global,
    env: &Environment,
    here: &mut Here,
    w: &Within,
    at: Place,
    body: &[Stmt],
) -> Result<TStmt, TypeStop>
    requires laid { IsLaidOut env.now.aggregates }
    requires none { here.old.iterators ≡ [] }
    ensures answer { Answers result (spec.alt_at at (map (part w.now env.now here.old) body.now)) }
    ensures same { here.new ≡ here.old }
{
    let body = statements(alloc, env, here, w, Choice::Alt, body)?;
    alt_of(alloc, at, body)
}

/// The typed statement of a tree, where it stands in such a body.
///
/// A fault is one that is in it: a rule that a node breaks, with its place.
#[cycle(statements)]
#[tactic(auto, using(crate::proofs::StatementsAre::way_is))]
pub fn statement(
    alloc: Global,
    env: &Environment,
    here: &mut Here,
    w: &Within,
    choice: Choice,
    s: &Stmt,
) -> Result<TStmt, TypeStop>
    requires laid { IsLaidOut env.now.aggregates }
    requires none { here.old.iterators ≡ [] }
    ensures answer { Answers result ((part w.now env.now here.old s.now).way choice) }
    ensures same { here.new ≡ here.old }
{
    match s {
        Stmt::Empty { at } => Ok(TStmt::Empty { line: at.line }),
        Stmt::Block { at, body } => block_at(alloc, env, here, w, *at, body.as_slice()),
        Stmt::Declare { at, variables, .. } => {
            declared(alloc, env, here, at.line, variables.as_slice())
        }
        Stmt::Value { at, value } => value_statement(alloc, env, here, at.line, value),
        Stmt::Label { at, body, .. } => label_at(alloc, env, here, w, *at, body.get()),
        Stmt::If {
            at,
            condition,
            then,
            other,
        } => {
            let condition = condition_of(alloc, env, here, condition);
            let met = boxed(alloc, env, here, w, then.get());
            let other = optional_statement(alloc, env, here, w, other);
            if_made(*at, condition, met, other)
        }
        Stmt::While {
            at,
            condition,
            body,
        } => while_at(alloc, env, here, w, *at, condition, body.get()),
        Stmt::Do {
            at,
            body,
            condition,
        } => do_at(alloc, env, here, w, *at, body.get(), condition),
        Stmt::For {
            at,
            start,
            condition,
            step,
            body,
        } => {
            let (start, condition, step) = (start.as_ref(), condition.as_ref(), step.as_ref());
            for_at(alloc, env, here, w, *at, start, condition, step, body.get())
        }
        Stmt::Switch { at, value, body } => {
            switch_at(alloc, env, here, w, *at, body.as_slice(), value)
        }
        Stmt::Alt { at, body } => alt_at(alloc, env, here, w, *at, body.as_slice()),
        Stmt::Case { at, value } => case_at(alloc, env, here, choice, *at, value),
        Stmt::Default { at } => default_at(choice, *at),
        Stmt::Par { at, branches } => par_at(alloc, env, here, w, *at, branches.as_slice()),
        Stmt::Rescue { at, body, .. } => rescue_at(alloc, env, here, w, *at, body.get()),
        Stmt::Raise { at, .. } => raise_at(w, *at),
        Stmt::Return { at, value } => return_at(alloc, env, here, w, *at, value.as_ref()),
        Stmt::Become { at, value } => become_at(alloc, env, here, w, *at, value),
        Stmt::Break { at, .. } => break_at(w, *at),
        Stmt::Continue { at, .. } => continue_at(w, *at),
        Stmt::Goto { at, .. } => goto_at(w, *at),
        Stmt::Alloc { at, places } => alloc_at(alloc, env, here, *at, places.as_slice()),
        Stmt::Unalloc { at, values } => unalloc_at(alloc, env, here, *at, values.as_slice()),
        Stmt::Check { at, value, .. } => check_at(alloc, env, here, *at, value),
        Stmt::Proc { at, calls } => proc_at(alloc, env, here, *at, calls.as_slice()),
        Stmt::Task { at, calls } => task_at(alloc, env, here, *at, calls.as_slice()),
    }
}
