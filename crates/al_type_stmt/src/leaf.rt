//! Conditions and values of statements, and statements without statements in them.
ghost use Rattle.std.specs.Prelude.{◌≡◌};
ghost use Rattle.std.specs.Option.{option_copied};
ghost use Rattle.al_rules.specs.Outcome.{Answers};
ghost use Rattle.al_typed.specs.Layout.{IsLaidOut};
ghost use Rattle.al_type_expr.specs.Nodes.{dropped_value as dropped, value_of as valued};
ghost use Rattle.al_type_stmt.specs.Statements as spec;
ghost use Rattle.al_type_stmt.specs.Statements.{optional};

use crate::within::{Choice, Within};
use al_base::{Kind, Place};
use al_environment::{Environment, Here};
use al_operands::{Operand, parts};
use al_operators::condition;
use al_rules::{TypeStop, broken};
use al_statements::{alt_case, became, case_label, returned};
use al_tree::Expr;
use al_type_expr::{dropped_value, expr_place, found, value_of};
use al_typed::{TExpr, TStmt};
use std::alloc::Global;

/// A condition.
#[tactic(auto, unfolding(crate::specs::Statements::condition_of), using(al_rules::proofs::Permits::permitted))]
pub(crate) fn condition_of(
    alloc: Global,
    env: &Environment,
    here: &Here,
    e: &Expr,
) -> Result<TExpr, TypeStop>
    requires { IsLaidOut env.now.aggregates }
    ensures { Answers result (spec.condition_of env.now here.now e.now) }
{
    let x = value_of(alloc, env, here, e)?;
    condition(expr_place(e), x)
}

/// A condition that may be missing.
#[tactic(auto, using(al_rules::proofs::Permits::permitted))]
fn optional_condition(
    alloc: Global,
    env: &Environment,
    here: &Here,
    e: Option<&Expr>,
) -> Result<Option<TExpr>, TypeStop>
    requires { IsLaidOut env.now.aggregates }
    ensures { Answers result (optional (spec.condition_of env.now here.now) (option_copied e.entry)) }
{
    match e {
        None => Ok(None),
        Some(e) => {
            let condition = condition_of(alloc, env, here, e)?;
            Ok(Some(condition))
        }
    }
}

/// A value that is dropped and may be missing.
#[tactic(auto, using(al_rules::proofs::Permits::permitted))]
fn optional_value(
    alloc: Global,
    env: &Environment,
    here: &Here,
    e: Option<&Expr>,
) -> Result<Option<TExpr>, TypeStop>
    requires { IsLaidOut env.now.aggregates }
    ensures { Answers result (optional (dropped env.now here.now) (option_copied e.entry)) }
{
    match e {
        None => Ok(None),
        Some(e) => {
            let value = dropped_value(alloc, env, here, e)?;
            Ok(Some(value))
        }
    }
}

/// What stands behind the first `;` of a for, and behind the second.
#[tactic(auto, using(al_rules::proofs::Permits::permitted))]
fn for_rest(
    alloc: Global,
    env: &Environment,
    here: &Here,
    condition: Option<&Expr>,
    step: Option<&Expr>,
) -> Result<(Option<TExpr>, Option<TExpr>), TypeStop>
    requires { IsLaidOut env.now.aggregates }
    ensures { Answers result (spec.for_rest env.now here.now (option_copied condition.entry) (option_copied step.entry)) }
{
    let condition = optional_condition(alloc, env, here, condition);
    let step = optional_value(alloc, env, here, step);
    parts(condition, step)
}

/// What stands between the parentheses of a for.
#[tactic(auto, using(al_rules::proofs::Permits::permitted))]
pub(crate) fn for_head(
    alloc: Global,
    env: &Environment,
    here: &Here,
    start: Option<&Expr>,
    condition: Option<&Expr>,
    step: Option<&Expr>,
) -> Result<(Option<TExpr>, (Option<TExpr>, Option<TExpr>)), TypeStop>
    requires { IsLaidOut env.now.aggregates }
    ensures { Answers result (spec.for_head env.now here.now (option_copied start.entry) (option_copied condition.entry) (option_copied step.entry)) }
{
    let start = optional_value(alloc, env, here, start);
    let rest = for_rest(alloc, env, here, condition, step);
    parts(start, rest)
}

/// `check`
#[tactic(auto, unfolding(crate::specs::Statements::check_at), using(al_rules::proofs::Permits::permitted))]
pub(crate) fn check_at(
    alloc: Global,
    env: &Environment,
    here: &Here,
    at: Place,
    e: &Expr,
) -> Result<TStmt, TypeStop>
    requires { IsLaidOut env.now.aggregates }
    ensures { Answers result (spec.check_at env.now here.now at e.now) }
{
    let value = condition_of(alloc, env, here, e)?;
    Ok(TStmt::Check {
        line: at.line,
        value,
    })
}

/// The value behind `return`, which may be missing.
#[tactic(auto, using(al_rules::proofs::Permits::permitted))]
fn optional_operand(
    alloc: Global,
    env: &Environment,
    here: &Here,
    e: Option<&Expr>,
) -> Result<Option<Operand>, TypeStop>
    requires { IsLaidOut env.now.aggregates }
    ensures { Answers result (optional (valued env.now here.now) (option_copied e.entry)) }
{
    match e {
        None => Ok(None),
        Some(e) => {
            let x = value_of(alloc, env, here, e)?;
            Ok(Some(x))
        }
    }
}

/// `return` of what was found.
#[tactic(auto, using(al_rules::proofs::Permits::permitted))]
fn returns(alloc: Global, w: &Within, at: Place, x: Option<Operand>) -> Result<TStmt, TypeStop>
    ensures { Answers result (spec.returns w.now at x) }
{
    let value = returned(alloc, at, &w.returns, x)?;
    Ok(TStmt::Return {
        line: at.line,
        value,
    })
}

/// `return`
#[tactic(auto, unfolding(crate::specs::Statements::return_at), using(al_rules::proofs::Permits::permitted))]
pub(crate) fn return_at(
    alloc: Global,
    env: &Environment,
    here: &Here,
    w: &Within,
    at: Place,
    e: Option<&Expr>,
) -> Result<TStmt, TypeStop>
    requires { IsLaidOut env.now.aggregates }
    ensures { Answers result (spec.return_at w.now env.now here.now at (option_copied e.entry)) }
{
    let x = optional_operand(alloc, env, here, e)?;
    returns(alloc, w, at, x)
}

/// `become`
#[tactic(auto, unfolding(crate::specs::Statements::become_at), using(al_rules::proofs::Permits::permitted))]
pub(crate) fn become_at(
    alloc: Global,
    env: &Environment,
    here: &Here,
    w: &Within,
    at: Place,
    e: &Expr,
) -> Result<TStmt, TypeStop>
    requires { IsLaidOut env.now.aggregates }
    ensures { Answers result (spec.become_at w.now env.now here.now at e.now) }
{
    let f = found(alloc, env, here, e)?;
    let aggregates = env.aggregates.as_slice();
    became(alloc, aggregates, at.line, at, &w.returns, expr_place(e), f)
}

/// `case` in an alt.
#[tactic(auto, using(al_rules::proofs::Permits::permitted))]
fn alt_case_at(
    alloc: Global,
    env: &Environment,
    here: &Here,
    at: Place,
    e: &Expr,
) -> Result<TStmt, TypeStop>
    requires { IsLaidOut env.now.aggregates }
    ensures { Answers result (spec.alt_case_at env.now here.now at e.now) }
{
    let e = dropped_value(alloc, env, here, e)?;
    alt_case(at, e)
}

/// `case` in a switch on values of that kind.
#[tactic(auto, using(al_rules::proofs::Permits::permitted))]
fn switch_case_at(
    alloc: Global,
    env: &Environment,
    here: &Here,
    kind: Kind,
    at: Place,
    e: &Expr,
) -> Result<TStmt, TypeStop>
    requires { IsLaidOut env.now.aggregates }
    ensures { Answers result (spec.switch_case_at env.now here.now kind at e.now) }
{
    let x = value_of(alloc, env, here, e)?;
    case_label(env.aggregates.as_slice(), kind, at, x)
}

/// `case`
#[tactic(auto, unfolding(crate::specs::Statements::case_at))]
pub(crate) fn case_at(
    alloc: Global,
    env: &Environment,
    here: &Here,
    choice: Choice,
    at: Place,
    e: &Expr,
) -> Result<TStmt, TypeStop>
    requires { IsLaidOut env.now.aggregates }
    ensures { Answers result (spec.case_at env.now here.now at e.now choice) }
{
    match choice {
        Choice::Neither => Err(broken(52, at)),
        Choice::Switch(kind) => switch_case_at(alloc, env, here, kind, at, e),
        Choice::Alt => alt_case_at(alloc, env, here, at, e),
    }
}

/// `default`
#[tactic(auto, unfolding(crate::specs::Statements::default_at))]
pub(crate) fn default_at(choice: Choice, at: Place) -> Result<TStmt, TypeStop>
    ensures { Answers result (spec.default_at at choice) }
{
    match choice {
        Choice::Neither => Err(broken(52, at)),
        Choice::Switch(_) => Ok(TStmt::Default),
        Choice::Alt => Err(broken(53, at)),
    }
}
