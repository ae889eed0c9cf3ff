//! Bounds, each of which is constant by rule 22.
ghost use Rattle.std.specs.Prelude.{◌≡◌};
ghost use Rattle.std.specs.Option.{option_copied};
ghost use Rattle.al_tree.specs.Constants as tree;
ghost use Rattle.al_scope.specs.Rules as rule;

use al_base::Place;
use al_tree::{Bound, EnumConstant};

#[tactic(auto, unfolding(al_tree::specs::Constants::is_before))]
fn is_before(p: Place, q: Place) -> bool
    ensures { result ≡ tree.is_before p q }
{
    p.line < q.line || (p.line == q.line && p.col < q.col)
}

#[tactic(auto, unfolding(al_tree::specs::Constants::latest_before))]
fn latest_before(constants: &[EnumConstant], name: u32, at: Place) -> Option<&EnumConstant>
    ensures { option_copied result ≡ tree.latest_before constants.now name at }
{
    constants
        .iter()
        .rev()
        .find(|c| c.name.name == name && is_before(c.name.at, at))
}

fn has_value(constants: &[EnumConstant], name: u32, at: Place) -> bool
    ensures { result ≡ rule.has_value (tree.latest_before constants.now name at) }
{
    match latest_before(constants, name, at) {
        None => false,
        Some(c) => c.value.is_some(),
    }
}

/// Whether a bound at that place is constant.
#[tactic(auto, using(crate::proofs::BoundsAre::bound_is))]
pub(crate) fn is_constant(b: &Bound, constants: &[EnumConstant], at: Place) -> bool
    ensures { result ≡ rule.is_constant_bound b.now constants.now at }
{
    match b {
        Bound::Number { .. } => true,
        Bound::Name { name, .. } => has_value(constants, *name, at),
        Bound::Binary { left, right, .. } => {
            is_constant(left.get(), constants, at) && is_constant(right.get(), constants, at)
        }
    }
}

/// Where a bound begins.
#[tactic(auto, unfolding(crate::specs::Rules::bound_place))]
pub(crate) fn bound_place(b: &Bound) -> Place
    ensures { result ≡ rule.bound_place b.now }
{
    match b {
        Bound::Number { at, .. } => *at,
        Bound::Name { at, .. } => *at,
        Bound::Binary { at, .. } => *at,
    }
}
