//! The typing rules that names and their declarations decide, by their numbers.
ghost use Rattle.std.specs.Prelude.{◌≡◌};
ghost use Rattle.al_type_nodes.specs.Rules as rule;

use al_convert::is_array;
use al_environment::{Here, Signature, is_inside};
use al_typed::{Passed, TExpr, Ty};

/// Rule 5, of a function that is called, started or used as a value.
#[tactic(auto, unfolding(crate::specs::Rules::rule_5_is_defined))]
pub fn rule_5_is_defined(f: &Signature) -> bool
    ensures { result ≡ rule.rule_5_is_defined f.now }
{
    f.number.is_some()
}

#[tactic(auto, unfolding(crate::specs::Rules::rule_10_is_open))]
pub(crate) fn rule_10_is_open(here: &Here, interns: &[u32]) -> bool
    ensures { result ≡ rule.rule_10_is_open here.now interns.now }
{
    is_inside(here, interns)
}

#[tactic(auto, unfolding(crate::specs::Rules::rule_19_is_shared))]
pub(crate) fn rule_19_is_shared(is_private: bool) -> bool
    ensures { result ≡ rule.rule_19_is_shared is_private }
{
    !is_private
}

/// Whether a call or a receive gives a value.
fn is_given(value: &TExpr) -> bool
    ensures { result ≡ rule.is_given value.now }
{
    matches!(
        value,
        TExpr::Call { .. } | TExpr::CallPointer { .. } | TExpr::Receive { .. }
    )
}

#[tactic(auto, unfolding(crate::specs::Rules::rule_58_is_read))]
pub(crate) fn rule_58_is_read(value: &TExpr, member: &Ty) -> bool
    ensures { result ≡ rule.rule_58_is_read value.now member.now }
{
    is_given(value) && !is_array(member)
}

fn by_address(how: Passed) -> bool
    ensures { result ≡ rule.by_address how }
{
    matches!(how, Passed::Address)
}

#[tactic(auto, unfolding(crate::specs::Rules::rule_57_has_place))]
pub(crate) fn rule_57_has_place(how: Passed) -> bool
    ensures { result ≡ rule.rule_57_has_place how }
{
    !by_address(how)
}

#[tactic(auto, unfolding(crate::specs::Rules::rule_58_is_object))]
pub(crate) fn rule_58_is_object(value: &TExpr) -> bool
    ensures { result ≡ rule.rule_58_is_object value.now }
{
    is_given(value)
}
