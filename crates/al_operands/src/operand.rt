//! Operands, and what takes them.
ghost use Rattle.std.specs.Prelude.{◌≡◌};
ghost use Rattle.al_rules.specs.Outcome.{Answers};
ghost use Rattle.al_operands.specs.Operands as spec;

use crate::conversion::converted;
use crate::held::parts;
use crate::judging::{asked, unless_nil};
use crate::rule::rule_33_converts;
use al_base::Place;
use al_convert::{Literal, nil_in};
use al_rules::TypeStop;
use al_typed::{TExpr, Ty};
use std::alloc::Global;

/// A value, and what it is written as.
#[derive(Drop)]
pub struct Operand {
    pub value: TExpr,
    pub written: Literal,
}

/// What takes a value of a type, by the rule of that number.
#[tactic(auto, unfolding(crate::specs::Operands::taken), using(crate::proofs::Asking::asking))]
pub fn taken(alloc: Global, number: u16, at: Place, to: &Ty, x: Operand) -> Result<TExpr, TypeStop>
    ensures { Answers result (spec.taken number at to.now x) }
{
    let holds = rule_33_converts(&x, to);
    let e = asked(number, at, holds, x.value)?;
    Ok(converted(alloc, to, e)?)
}

/// An operand that is not nil and no tuple with nil (rule 41).
#[tactic(auto, unfolding(crate::specs::Operands::plain))]
pub fn plain(x: Operand) -> Result<TExpr, TypeStop>
    ensures { Answers result (spec.plain x) }
{
    let nil = nil_in(&x.written);
    unless_nil(nil, x.value)
}

/// Two such operands.
#[tactic(auto, unfolding(crate::specs::Operands::plains))]
pub fn plains(x: Operand, y: Operand) -> Result<(TExpr, TExpr), TypeStop>
    ensures { Answers result (spec.plains x y) }
{
    let a = plain(x);
    let b = plain(y);
    parts(a, b)
}
