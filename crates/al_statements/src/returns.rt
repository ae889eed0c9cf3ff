//! `return` and `become`.
ghost use Rattle.std.specs.Prelude.{◌≡◌};
ghost use Rattle.al_rules.specs.Outcome.{Answers};
ghost use Rattle.al_statements.specs.Parts as spec;

use crate::rules::{rule_47_is_void, rule_48_goes_on};
use al_base::Place;
use al_operands::{Operand, asked, taken};
use al_rules::TypeStop;
use al_type_nodes::{Found, operand};
use al_typed::{Aggregate, TExpr, TStmt, Ty};
use std::alloc::Global;

#[tactic(auto, unfolding(crate::specs::Parts::returned_nothing))]
fn returned_nothing(at: Place, returns: &Ty) -> Result<Option<TExpr>, TypeStop>
    ensures { Answers result (spec.returned_nothing at returns.now) }
{
    let holds = rule_47_is_void(returns);
    asked(47, at, holds, None)
}

#[tactic(auto, unfolding(crate::specs::Parts::returned_value), using(al_rules::proofs::Permits::permitted))]
fn returned_value(
    alloc: Global,
    at: Place,
    returns: &Ty,
    x: Operand,
) -> Result<Option<TExpr>, TypeStop>
    ensures { Answers result (spec.returned_value at returns.now x) }
{
    let e = taken(alloc, 47, at, returns, x)?;
    Ok(Some(e))
}

/// The value of a return in a function of that result type.
#[tactic(auto, unfolding(crate::specs::Parts::returned))]
pub fn returned(
    alloc: Global,
    at: Place,
    returns: &Ty,
    x: Option<Operand>,
) -> Result<Option<TExpr>, TypeStop>
    ensures { Answers result (spec.returned at returns.now x) }
{
    match x {
        None => returned_nothing(at, returns),
        Some(x) => returned_value(alloc, at, returns, x),
    }
}

#[tactic(auto, unfolding(crate::specs::Parts::became_value), using(al_rules::proofs::Permits::permitted))]
fn became_value(
    alloc: Global,
    line: u32,
    at: Place,
    returns: &Ty,
    x: Operand,
) -> Result<TStmt, TypeStop>
    ensures { Answers result (spec.became_value line at returns.now x) }
{
    let e = taken(alloc, 48, at, returns, x)?;
    let value = Some(e);
    Ok(TStmt::Return { line, value })
}

#[tactic(auto, unfolding(crate::specs::Parts::became_call), using(al_operands::proofs::Asking::asking))]
fn became_call(line: u32, at: Place, returns: &Ty, call: TExpr) -> Result<TStmt, TypeStop>
    ensures { Answers result (spec.became_call line at returns.now call) }
{
    let holds = rule_48_goes_on(returns, &call);
    let call = asked(48, at, holds, call)?;
    Ok(TStmt::Become { line, call })
}

fn is_any_call(e: &TExpr) -> bool
    ensures { result ≡ spec.is_any_call e.now }
{
    matches!(
        e,
        TExpr::Call { .. }
            | TExpr::CallPointer { .. }
            | TExpr::Print { .. }
            | TExpr::Terminate { .. }
    )
}

/// What is found is used as a value.
#[tactic(auto, using(al_rules::proofs::Permits::permitted))]
fn became_found(
    alloc: Global,
    aggregates: &[Aggregate],
    line: u32,
    at: Place,
    returns: &Ty,
    value_at: Place,
    found: Found,
) -> Result<TStmt, TypeStop>
    ensures { Answers result (spec.became_found aggregates.now line at returns.now value_at found) }
{
    let x = operand(alloc, aggregates, value_at, found)?;
    became_value(alloc, line, at, returns, x)
}

#[tactic(auto, unfolding(crate::specs::Parts::became_operand))]
fn became_operand(
    alloc: Global,
    aggregates: &[Aggregate],
    line: u32,
    at: Place,
    returns: &Ty,
    value_at: Place,
    x: Operand,
) -> Result<TStmt, TypeStop>
    ensures { Answers result (spec.became_operand aggregates.now line at returns.now value_at x) }
{
    if is_any_call(&x.value) {
        return became_call(line, at, returns, x.value);
    }
    let found = Found::Value(x);
    became_found(alloc, aggregates, line, at, returns, value_at, found)
}

/// `become value;` in a function of that result type, where the value stands at `value_at`. A become of another value than a
/// call is a return.
#[tactic(auto, unfolding(crate::specs::Parts::became))]
pub fn became(
    alloc: Global,
    aggregates: &[Aggregate],
    line: u32,
    at: Place,
    returns: &Ty,
    value_at: Place,
    found: Found,
) -> Result<TStmt, TypeStop>
    ensures { Answers result (spec.became aggregates.now line at returns.now value_at found) }
{
    match found {
        Found::Place { place, is_private } => {
            let found = Found::Place { place, is_private };
            became_found(alloc, aggregates, line, at, returns, value_at, found)
        }
        Found::Value(x) => became_operand(alloc, aggregates, line, at, returns, value_at, x),
    }
}
