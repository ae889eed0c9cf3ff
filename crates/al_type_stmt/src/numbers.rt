//! Statements that have numbers by their places.
ghost use Rattle.std.specs.Prelude.{◌≡◌};
ghost use Rattle.al_rules.specs.Outcome.{Answers};
ghost use Rattle.al_type_stmt.specs.Numbers as numbers;
ghost use Rattle.al_type_stmt.specs.Statements as spec;

use crate::within::Within;
use al_base::Place;
use al_rules::{TypeStop, broken};
use al_typed::TStmt;

/// The number that a statement has by its place. Where there is none the statement breaks that rule.
fn number_of(rule: u16, at: Place, number: Option<u64>) -> Result<u32, TypeStop>
    ensures { Answers result (numbers.number_of rule at number) }
{
    match number {
        None => Err(broken(rule, at)),
        Some(number) => {
            if number > 0xffff_ffff {
                return Err(broken(rule, at));
            }
            Ok(number as u32)
        }
    }
}

/// The number that belongs to the statement at a place, by the rule that asks for it.
pub(crate) fn target(w: &Within, rule: u16, at: Place) -> Result<u32, TypeStop>
    ensures { Answers result (spec.target w.now rule at) }
{
    number_of(rule, at, w.targets.number(at))
}

/// `raise`
#[tactic(auto, unfolding(crate::specs::Statements::raise_at), using(al_rules::proofs::Permits::permitted))]
pub(crate) fn raise_at(w: &Within, at: Place) -> Result<TStmt, TypeStop>
    ensures { Answers result (spec.raise_at w.now at) }
{
    let rescue = target(w, 51, at)?;
    Ok(TStmt::Raise {
        line: at.line,
        rescue,
    })
}

/// `break`
#[tactic(auto, unfolding(crate::specs::Statements::break_at), using(al_rules::proofs::Permits::permitted))]
pub(crate) fn break_at(w: &Within, at: Place) -> Result<TStmt, TypeStop>
    ensures { Answers result (spec.break_at w.now at) }
{
    let levels = target(w, 49, at)?;
    Ok(TStmt::Break {
        line: at.line,
        levels,
    })
}

/// `continue`
#[tactic(auto, unfolding(crate::specs::Statements::continue_at), using(al_rules::proofs::Permits::permitted))]
pub(crate) fn continue_at(w: &Within, at: Place) -> Result<TStmt, TypeStop>
    ensures { Answers result (spec.continue_at w.now at) }
{
    let levels = target(w, 49, at)?;
    Ok(TStmt::Continue {
        line: at.line,
        levels,
    })
}

/// `goto`
#[tactic(auto, unfolding(crate::specs::Statements::goto_at), using(al_rules::proofs::Permits::permitted))]
pub(crate) fn goto_at(w: &Within, at: Place) -> Result<TStmt, TypeStop>
    ensures { Answers result (spec.goto_at w.now at) }
{
    let label = target(w, 50, at)?;
    Ok(TStmt::Goto {
        line: at.line,
        label,
    })
}
