//! The jumps of all functions.
ghost use Rattle.std.specs.Prelude.{◌≡◌};
ghost use Rattle.al_rules.specs.Outcome.{Answers};
ghost use Rattle.al_check.specs.Flow as spec;

use al_flow::{Targets, find_targets};
use al_items::Items;
use al_operands::beside;
use al_rules::TypeStop;
use al_tree::{Item, Stmt};
use al_type_expr::more;
use std::alloc::Global;

#[tactic(auto, using(al_rules::proofs::Permits::permitted))]
fn body_targets(alloc: Global, body: &Stmt) -> Result<Option<Targets>, TypeStop>
    ensures { Answers result (spec.body_targets body.now) }
{
    let targets = find_targets(alloc, body)?;
    Ok(Some(targets))
}

/// The targets in an item, where it is a function with a body.
#[tactic(auto, unfolding(crate::specs::Flow::item_targets))]
fn item_targets(alloc: Global, item: &Item) -> Result<Option<Targets>, TypeStop>
    ensures { Answers result (spec.item_targets item.now) }
{
    match item {
        Item::Function { body, .. } => body_targets(alloc, body),
        Item::Typedef { .. }
        | Item::FunctionType { .. }
        | Item::Forward { .. }
        | Item::Aggregate { .. }
        | Item::Adt { .. }
        | Item::Enum { .. }
        | Item::Declare { .. } => Ok(None),
    }
}

/// The targets in all functions of a text, also those of adts with parameters that have no instance: typing rules 49 to 51 and 54
/// are asked of the text once.
#[tactic(auto, unfolding(al_type_expr::specs::Lists::each), using(al_rules::proofs::Permits::permitted, al_rules::proofs::Permits::fronts))]
pub(crate) fn all_targets(alloc: Global, items: &[Item]) -> Result<Items<Option<Targets>>, TypeStop>
    ensures { Answers result (spec.all_targets items.now) }
{
    let mut done = Items::new(alloc);
    for item in items {
        let next = item_targets(alloc, item);
        let (list, next) = beside(done, next)?;
        done = more(list, next)?;
    }
    Ok(done)
}
