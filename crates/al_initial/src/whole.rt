//! The globals of a whole text.
ghost use Rattle.std.specs.Prelude.{◌≡◌, IfOk};
ghost use Rattle.al_rules.specs.Outcome.{Answers};
ghost use Rattle.al_typed.specs.Layout.{IsLaidOut};
ghost use Rattle.al_initial.specs.Whole as spec;

use crate::adts::adts;
use crate::gather::{Written, gather_items, nothing};
use crate::globals::{Initial, globals};
use crate::starts::{no_starts, started_in_all};
use crate::texts::{all_bytes, numbered, outside};
use al_base::{NoMemory, Place};
use al_body_parts::Parts;
use al_environment::{Environment, Numbers};
use al_items::Items;
use al_rules::{TypeStop, ask, judged};
use al_sound_types::are_sound;
use al_tree::Tree;
use al_typed::{Aggregate, StartValue};
use std::alloc::Global;

/// What the initializers of a text write.
fn gathered(alloc: Global, env: &Environment, tree: &Tree) -> Result<Parts, NoMemory>
    requires { IsLaidOut env.now.aggregates }
    ensures { IfOk result (λ q. q ≡ spec.gathered env.now tree.now) }
{
    let here = outside(alloc, Numbers::new(alloc));
    let mut parts = nothing(alloc);
    gather_items(alloc, env, &here, tree.items.as_slice(), &mut parts)?;
    Ok(parts)
}

/// What is written, where its types, also as wholes, are ones that the rules leave.
#[tactic(auto, using(al_rules::proofs::Permits::permitted))]
fn written(rows: &[Aggregate], parts: Parts) -> Result<Written, TypeStop>
    requires { IsLaidOut rows.now }
    ensures { Answers result (spec.judged rows.now parts) }
{
    let Parts {
        locals: _,
        texts,
        types,
        labels: _,
        faults,
    } = parts;
    let mut faults = faults;
    let holds = are_sound(rows, types.as_slice());
    ask(&mut faults, 18, Place { line: 1, col: 1 }, holds)?;
    judged(faults.as_slice(), Written { texts, types })
}

/// What the globals of a text start with, where string constants have these numbers.
fn starts(
    alloc: Global,
    env: &Environment,
    tree: &Tree,
    texts: Numbers,
) -> Result<Items<Items<StartValue>>, TypeStop>
    requires { IsLaidOut env.now.aggregates }
    ensures { Answers result (spec.starts env.now tree.now texts) }
{
    let items = tree.items.as_slice();
    let here = outside(alloc, texts);
    let adts = adts(alloc, env, items)?;
    let none = no_starts(alloc, env.globals.as_slice())?;
    started_in_all(alloc, env, &here, adts.as_slice(), none, items)
}

fn whole(
    alloc: Global,
    env: &Environment,
    tree: &Tree,
    w: Written,
    starts: &[Items<StartValue>],
) -> Result<Initial, NoMemory>
    ensures { IfOk result (λ i. i ≡ spec.whole env.now tree.now w starts.now) }
{
    let Written { texts, types } = w;
    Ok(Initial {
        globals: globals(alloc, env, tree, starts)?,
        texts: all_bytes(alloc, texts.as_slice())?,
        types,
    })
}

#[tactic(auto, using(al_rules::proofs::Permits::permitted))]
fn of_written(
    alloc: Global,
    env: &Environment,
    tree: &Tree,
    w: Written,
) -> Result<Initial, TypeStop>
    requires { IsLaidOut env.now.aggregates }
    ensures { Answers result (spec.of_written env.now tree.now w) }
{
    let numbers = numbered(alloc, w.texts.as_slice())?;
    let starts = starts(alloc, env, tree, numbers)?;
    Ok(whole(alloc, env, tree, w, starts.as_slice())?)
}

/// The globals of a text with what they start with, and what their initializers write.
///
/// A fault is an initializer that breaks rule 21, a value in it that does not convert to what it starts (33) or breaks a rule
/// of expressions, or a type that is written in one and breaks rule 7, 16, 18 or 20. It is found exactly where there is one.
#[tactic(auto, unfolding(crate::specs::Whole::initial), using(al_rules::proofs::Permits::permitted))]
pub fn initial(alloc: Global, env: &Environment, tree: &Tree) -> Result<Initial, TypeStop>
    requires { IsLaidOut env.now.aggregates }
    ensures { Answers result (spec.initial env.now tree.now) }
{
    let parts = gathered(alloc, env, tree)?;
    let w = written(env.aggregates.as_slice(), parts)?;
    of_written(alloc, env, tree, w)
}
