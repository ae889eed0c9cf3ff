//! The stages of the front end.
ghost use Rattle.std.specs.Prelude.{◌≡◌, ◌≢◌, ◌≤◌, ◌^◌, length, Ok, Err, IfOk, IfErr, OnOk};
ghost use Rattle.al_tree.specs.declared.item.Tree.{Tree as SpecTree};
ghost use Rattle.al_typed.specs.Layout.{IsLaidOut};
ghost use Rattle.al_typed.specs.Measures.{IsWithin};
ghost use Rattle.al_front.specs.declared.refused.Refused.{Refused as Reason};
ghost use Rattle.al_front.specs.Accepted.{IsRead, IsRefused, Passes, AnswersTree};

use crate::refused::{FrontStop, Refused};
use al_check::check;
use al_lex::lex;
use al_operands::beside;
use al_parse_stmt::parse;
use al_poly::concrete;
use al_tree::Tree;
use al_type_limits::types_within;
use al_typed::{Program, weigh};
use std::alloc::Global;

/// The tree of a text.
pub(crate) fn tree_of(alloc: Global, text: &[u8]) -> Result<Tree, FrontStop>
    requires { length text.now ≤ 2 ^ 20 }
    ensures tree { IfOk result (IsRead text.now) }
    ensures refused { (r : Reason) → result ≡ Err (FrontStop.Refused r) → IsRefused text.now r }
    ensures whole { (tree : SpecTree) → IsRead text.now tree → result ≢ Err FrontStop.NoMemory → result ≡ Ok tree }
{
    let tokens = lex(alloc, text)?;
    let tree = parse(alloc, &tokens)?;
    Ok(tree)
}

/// Whether a program is within the limits.
fn within(program: &Program) -> Result<(), FrontStop>
    requires { IsLaidOut program.now.aggregates }
    ensures ok { OnOk result (IsWithin program.now) }
    ensures passed { IfErr result (Passes program.now) }
{
    match weigh(program) {
        Ok(()) => Ok(()),
        Err(limit) => Err(FrontStop::Refused(Refused::Limit(limit))),
    }
}

/// The program of a tree, within the limits.
pub(crate) fn program_of(alloc: Global, tree: &Tree) -> Result<Program, FrontStop>
    ensures answer { AnswersTree tree.now result }
    ensures laid { IfOk result (λ p. IsLaidOut p.aggregates) }
{
    types_within(alloc, tree)?;
    let instances = concrete(alloc, tree)?;
    let program = check(alloc, tree, &instances)?;
    let passed = within(&program);
    let (program, _) = beside(program, passed)?;
    Ok(program)
}
