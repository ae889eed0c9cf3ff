//! Rules that are broken where trees are held.
ghost use Rattle.std.specs.Prelude.{List, ◌++◌, false};
ghost use Rattle.al_rules.specs.Outcome.{Answers, Bad, ask, judge};
ghost use Rattle.al_rules.specs.declared.fault.TypeFault.{TypeFault};

use al_base::Place;
use al_rules::{TypeStop, broken};

/// What is not there, since the node at a place breaks a rule. What was kept is let go.
#[tactic(auto, using(al_operands::proofs::Asking::asking))]
pub fn lacking<T: Drop, U>(rule: u16, at: Place, _kept: T) -> Result<U, TypeStop>
    ensures { Answers result (Bad (ask rule at false)) }
{
    Err(broken(rule, at))
}

/// What was found, where a rule holds of the node at a place besides those that were asked of it behind it.
#[tactic(auto, using(crate::proofs::Before::before))]
pub(crate) fn asked_before<T: Drop>(
    rule: u16,
    at: Place,
    holds: bool,
    found: Result<T, TypeStop>,
) -> Result<T, TypeStop>
    ensures { (fs : List TypeFault) (a : T) → Answers found (judge fs a) → Answers result (judge (ask rule at holds ++ fs) a) }
{
    if holds { found } else { Err(broken(rule, at)) }
}
