//! The functions of a whole text.
ghost use Rattle.std.specs.Prelude.{◌≡◌, ◌++◌, length, IfOk};
ghost use Rattle.al_rules.specs.Outcome.{Answers};
ghost use Rattle.al_typed.specs.Layout.{IsLaidOut};
ghost use Rattle.al_bodies.specs.Placing as placing;
ghost use Rattle.al_bodies.specs.Bodies as spec;

use crate::found::{Bodies, Gathered};
use crate::gather::gathered;
use crate::list::joined;
use crate::place::in_order;
use al_base::NoMemory;
use al_branches::branch_numbers;
use al_declare::Defined;
use al_environment::Environment;
use al_items::Items;
use al_operands::beside;
use al_rules::TypeStop;
use al_tree::Tree;
use al_type_function::NumberedBranch;
use al_typed::Function;
use std::alloc::Global;

/// Functions, and behind them the branches in them by their numbers.
fn behind(
    alloc: Global,
    functions: Items<Function>,
    branches: Items<NumberedBranch>,
) -> Result<Items<Function>, NoMemory>
    ensures { IfOk result (λ list. list ≡ functions ++ placing.in_order (length functions) branches) }
{
    let from = functions.len();
    let branches = in_order(alloc, from, branches);
    let (functions, branches) = beside(functions, branches)?;
    joined(functions, branches)
}

fn completed(alloc: Global, found: Gathered) -> Result<Bodies, NoMemory>
    ensures { IfOk result (λ bodies. bodies ≡ spec.completed found) }
{
    let Gathered {
        functions,
        branches,
        texts,
        types,
    } = found;
    let functions = behind(alloc, functions, branches);
    let ((texts, types), functions) = beside((texts, types), functions)?;
    Ok(Bodies {
        functions,
        texts,
        types,
    })
}

/// The functions of a text that has bodies of these, typed, and behind them the branches of all pars in them by their numbers.
///
/// So many string constants stand before those in them, which are those of initializers. A fault is one of the first function
/// that has some.
#[tactic(auto, unfolding(crate::specs::Bodies::bodies), using(al_rules::proofs::Permits::permitted))]
pub fn bodies(
    alloc: Global,
    env: &Environment,
    tree: &Tree,
    defined: &[Defined],
    texts: usize,
) -> Result<Bodies, TypeStop>
    requires { IsLaidOut env.now.aggregates }
    ensures { Answers result (spec.bodies env.now tree.now defined.now texts) }
{
    let numbers = branch_numbers(alloc, tree.items.as_slice(), defined)?;
    let found = gathered(alloc, env, tree, defined, texts, numbers)?;
    Ok(completed(alloc, found)?)
}
