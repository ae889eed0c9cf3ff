//! Rules that are asked of what was found.
ghost use Rattle.std.specs.Prelude.{◌≡◌, ◌++◌, true, false, IfOk, IfErr, Some, None};
ghost use Rattle.al_rules.specs.Outcome.{Answers, ask, judge, fault};
ghost use Rattle.al_rules.specs.declared.fault.TypeStop.TheVariants as stop;
ghost use Rattle.al_operands.specs.Operands as spec;

use al_base::Place;
use al_rules::{TypeStop, broken};

/// What was found, where a rule holds of the node at a place.
#[tactic(auto, using(crate::proofs::Asking::asking))]
pub fn asked<T: Drop>(rule: u16, at: Place, holds: bool, found: T) -> Result<T, TypeStop>
    ensures answer { Answers result (judge (ask rule at holds) found) }
    ensures kept { IfOk result (λ kept. (kept ≡ found) × (holds ≡ true)) }
    ensures broken { IfErr result (λ s. (holds ≡ false) × (s ≡ stop.Fault (fault rule at))) }
{
    if holds {
        Ok(found)
    } else {
        Err(broken(rule, at))
    }
}

/// What was found, where two rules hold of the node at a place.
#[tactic(auto, using(crate::proofs::Asking::asking))]
pub fn asked_twice<T: Drop>(
    rules: (u16, u16),
    at: Place,
    hold: (bool, bool),
    found: T,
) -> Result<T, TypeStop>
    ensures answer { Answers result (judge (ask rules.0 at hold.0 ++ ask rules.1 at hold.1) found) }
    ensures kept { IfOk result (λ kept. (kept ≡ found) × ((hold.0 ≡ true) × (hold.1 ≡ true))) }
{
    if !hold.0 {
        return Err(broken(rules.0, at));
    }
    if !hold.1 {
        return Err(broken(rules.1, at));
    }
    Ok(found)
}

/// What must be there, and a value that is kept meanwhile: without it the node at the place breaks a rule.
pub fn present<T: Drop, U: Drop>(
    rule: u16,
    at: Place,
    found: Option<U>,
    kept: T,
) -> Result<(U, T), TypeStop>
    ensures both { IfOk result (λ p. (found ≡ Some p.0) × (kept ≡ p.1)) }
    ensures broken { IfErr result (λ s. (found ≡ None) × (s ≡ stop.Fault (fault rule at))) }
{
    match found {
        Some(found) => Ok((found, kept)),
        None => Err(broken(rule, at)),
    }
}

/// What was found, where no part of it is nil (rule 41).
#[tactic(auto, using(crate::proofs::Asking::asking))]
pub(crate) fn unless_nil<T: Drop>(nil: Option<Place>, found: T) -> Result<T, TypeStop>
    ensures { Answers result (judge (spec.nil_faults nil) found) }
{
    match nil {
        None => Ok(found),
        Some(at) => Err(broken(41, at)),
    }
}
