//! Marks of parameters and locals.
ghost use Rattle.std.specs.Prelude.{◌≡◌, ◌==◌};
ghost use Rattle.al_shared.specs.Expressions as spec;

use al_items::Items;
use al_scope::Declaration;

/// It is shared, where there is such a local.
#[tactic(auto, using(crate::proofs::Marking::past_end))]
fn mark(n: usize, marks: &mut Items<bool>)
    ensures { marks.new ≡ spec.marked n marks.old }
{
    if n < marks.len() {
        marks.set(n, true);
    }
}

/// A name that a branch uses.
pub(crate) fn named(
    round: usize,
    inside: bool,
    declaration: Option<Declaration>,
    marks: &mut Items<bool>,
)
    ensures { marks.new ≡ spec.named round declaration inside marks.old }
{
    if let Some(Declaration::Outer { around, number }) = declaration {
        if inside && around == round {
            mark(number, marks);
        }
    }
}

/// A name whose address is taken.
pub(crate) fn addressed(inside: bool, declaration: Option<Declaration>, marks: &mut Items<bool>)
    ensures { marks.new ≡ spec.addressed declaration inside marks.old }
{
    if let Some(Declaration::Local(number)) = declaration {
        if !inside {
            mark(number, marks);
        }
    }
}
