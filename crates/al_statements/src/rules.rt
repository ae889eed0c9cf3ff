//! The rules, one function each.
ghost use Rattle.std.specs.Prelude.{◌≡◌};
ghost use Rattle.al_statements.specs.Rules as rule;

use al_convert::{is_array, is_channel, is_integer, is_void, points_to_complete, same};
use al_operands::{Operand, is_pointer, rule_33_converts};
use al_typed::{Aggregate, TExpr, Ty};

/// 23. A local's initialiser converts to its type, and the local is no array.
#[tactic(auto, unfolding(crate::specs::Rules::rule_23_initializes))]
pub(crate) fn rule_23_initializes(x: &Operand, t: &Ty) -> bool
    ensures { result ≡ rule.rule_23_initializes x.now t.now }
{
    !is_array(t) && rule_33_converts(x, t)
}

/// 42. The bounds of an iterator are integers.
#[tactic(auto, unfolding(crate::specs::Rules::rule_42_has_integers))]
pub(crate) fn rule_42_has_integers(a: &Ty, b: &Ty) -> bool
    ensures { result ≡ rule.rule_42_has_integers a.now b.now }
{
    is_integer(a) && is_integer(b)
}

/// 45. alloc has a pointer to a complete type that is not void, or a channel.
#[tactic(auto, unfolding(crate::specs::Rules::rule_45_allocates))]
pub(crate) fn rule_45_allocates(aggregates: &[Aggregate], t: &Ty) -> bool
    ensures { result ≡ rule.rule_45_allocates aggregates.now t.now }
{
    points_to_complete(aggregates, t) || is_channel(t)
}

/// 46. unalloc has a pointer or channel.
#[tactic(auto, unfolding(crate::specs::Rules::rule_46_gives_back))]
pub(crate) fn rule_46_gives_back(t: &Ty) -> bool
    ensures { result ≡ rule.rule_46_gives_back t.now }
{
    is_pointer(t) || is_channel(t)
}

/// 47. return has no value in a void function alone.
#[tactic(auto, unfolding(crate::specs::Rules::rule_47_is_void))]
pub(crate) fn rule_47_is_void(returns: &Ty) -> bool
    ensures { result ≡ rule.rule_47_is_void returns.now }
{
    is_void(returns)
}

/// 48. become of a call has a function by its name, other than print and terminate, with the same result type.
#[tactic(auto, unfolding(crate::specs::Rules::rule_48_goes_on))]
pub(crate) fn rule_48_goes_on(returns: &Ty, call: &TExpr) -> bool
    ensures { result ≡ rule.rule_48_goes_on returns.now call.now }
{
    call.callee().is_some() && same(false, call.ty(), returns)
}

/// 53. An alt has 1 to 64 cases.
#[tactic(auto, unfolding(crate::specs::Rules::rule_53_has_cases))]
pub(crate) fn rule_53_has_cases(n: usize) -> bool
    ensures { result ≡ rule.rule_53_has_cases n }
{
    1 <= n && n <= 64
}

/// 55. proc and task have calls of functions by their names, other than print and terminate.
#[tactic(auto, unfolding(crate::specs::Rules::rule_55_starts))]
pub(crate) fn rule_55_starts(call: &TExpr) -> bool
    ensures { result ≡ rule.rule_55_starts call.now }
{
    call.callee().is_some()
}

/// 56. A switch has an integer.
#[tactic(auto, unfolding(crate::specs::Rules::rule_56_is_integer))]
pub(crate) fn rule_56_is_integer(t: &Ty) -> bool
    ensures { result ≡ rule.rule_56_is_integer t.now }
{
    is_integer(t)
}
