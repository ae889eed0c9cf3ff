//! Expressions of statements that are dropped, and those that decide.
ghost use Rattle.std.specs.Prelude.{◌≡◌, ◌++◌, OnOk};
ghost use Rattle.al_typed.specs.Layout.{IsLaidOut};
ghost use Rattle.al_lower_code.specs.Heads as spec;
ghost use Rattle.al_lower_base.specs.Spots.{spot_of};

use al_base::NoMemory;
use al_lower_base::{Code, Spot};
use al_lower_expr::{effect, unless};
use al_typed::TExpr;

/// An expression whose value is dropped.
pub fn effect_at(code: &mut Code, s: Spot<'_>, e: &TExpr) -> Result<(), NoMemory>
    requires { IsLaidOut s.program.now.aggregates }
    ensures { OnOk result (code.new ≡ code.old ++ spec.effect_code (spot_of s.entry) e.now) }
{
    effect(code, s, e, s.turns)
}

/// The same of one that may be missing.
pub fn optional_effect(code: &mut Code, s: Spot<'_>, e: &Option<TExpr>) -> Result<(), NoMemory>
    requires { IsLaidOut s.program.now.aggregates }
    ensures { OnOk result (code.new ≡ code.old ++ spec.optional_code (spot_of s.entry) e.now) }
{
    match e {
        Some(e) => effect_at(code, s, e),
        None => Ok(()),
    }
}

/// A condition: where it does not hold, so many operations behind these are left out.
pub fn test(code: &mut Code, s: Spot<'_>, e: &TExpr, count: u32) -> Result<(), NoMemory>
    requires { IsLaidOut s.program.now.aggregates }
    ensures { OnOk result (code.new ≡ code.old ++ spec.test_code (spot_of s.entry) e.now count) }
{
    unless(code, s, e, s.turns, count)
}

/// A condition that holds where it is missing.
pub fn optional_test(
    code: &mut Code,
    s: Spot<'_>,
    e: &Option<TExpr>,
    count: u32,
) -> Result<(), NoMemory>
    requires { IsLaidOut s.program.now.aggregates }
    ensures { OnOk result (code.new ≡ code.old ++ spec.optional_test (spot_of s.entry) e.now count) }
{
    match e {
        Some(e) => test(code, s, e, count),
        None => Ok(()),
    }
}
