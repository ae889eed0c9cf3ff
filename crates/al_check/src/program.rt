//! The program of a text, put together from what was found of its parts.
ghost use Rattle.std.specs.Prelude.{◌≡◌, ◌++◌, IfOk};
ghost use Rattle.std.specs.Option.{option_copied};
ghost use Rattle.al_rules.specs.Outcome.{Answers};
ghost use Rattle.al_typed.specs.Layout.{IsLaidOut};
ghost use Rattle.al_check.specs.Checked as spec;

use al_base::{NoMemory, Place};
use al_bodies::Bodies;
use al_elements::elements;
use al_environment::{Environment, Signature};
use al_globals::main_of;
use al_initial::Initial;
use al_items::Items;
use al_operands::{beside, present};
use al_rules::TypeStop;
use al_tree::Tree;
use al_typed::Program;
use std::alloc::Global;

fn function_at(functions: &[Signature], n: Option<usize>) -> Option<&Signature>
    ensures { option_copied result ≡ spec.function_at functions.now n }
{
    match n {
        None => None,
        Some(n) => functions.get(n),
    }
}

fn number_in(s: Option<&Signature>) -> Option<u32>
    ensures { result ≡ spec.number_in (option_copied s.entry) }
{
    match s {
        None => None,
        Some(s) => s.number,
    }
}

/// The number of main.
fn main_number(tree: &Tree, env: &Environment) -> Option<u32>
    ensures { result ≡ spec.main_number tree.now env.now }
{
    let functions = env.scopes.functions.as_slice();
    let n = main_of(tree.names.as_slice(), functions);
    number_in(function_at(env.functions.as_slice(), n))
}

/// Two lists, one behind the other.
fn joined<T: Drop>(first: Items<T>, second: Items<T>) -> Result<Items<T>, NoMemory>
    ensures { IfOk result (λ list. list ≡ first ++ second) }
{
    let mut list = first;
    list.append(second)?;
    Ok(list)
}

/// The program of a text that declares that, whose globals start so, whose functions are these and whose main has that number.
fn program(
    alloc: Global,
    env: Environment,
    i: Initial,
    b: Bodies,
    main: u32,
) -> Result<Program, NoMemory>
    ensures { IfOk result (λ p. p ≡ spec.program env i b main) }
{
    let named = elements(
        alloc,
        &env,
        b.functions.as_slice(),
        i.types.as_slice(),
        b.types.as_slice(),
    );
    let Initial { globals, texts, .. } = i;
    let Bodies {
        functions,
        texts: more,
        ..
    } = b;
    let strings = joined(texts, more);
    let (functions, elements) = beside(functions, named)?;
    let (functions, strings) = beside(functions, strings)?;
    let Environment { aggregates, .. } = env;
    Ok(Program {
        aggregates,
        globals,
        strings,
        elements,
        functions,
        main,
    })
}

/// The same, where there is a main.
#[tactic(auto, unfolding(crate::specs::Checked::whole), using(al_operands::proofs::Asking::asking))]
pub(crate) fn whole(
    alloc: Global,
    tree: &Tree,
    env: Environment,
    i: Initial,
    b: Bodies,
) -> Result<Program, TypeStop>
    requires { IsLaidOut env.aggregates }
    ensures answer { Answers result (spec.whole tree.now env i b) }
    ensures laid { IfOk result (λ p. IsLaidOut p.aggregates) }
{
    let main = main_number(tree, &env);
    let (main, b) = present(4, Place { line: 1, col: 1 }, main, b)?;
    let program = program(alloc, env, i, b, main)?;
    Ok(program)
}
