//! The iterators of an expression statement.
ghost use Rattle.std.specs.Prelude.{◌≡◌, ◌++◌, ◌∷◌, [], true, OnOk, IfOk, IfErr};
ghost use Rattle.std.specs.List.{flat_map};
ghost use Rattle.al_rules.specs.Outcome.{Answers, permits};
ghost use Rattle.al_typed.specs.Layout.{IsLaidOut};
ghost use Rattle.al_type_stmt.specs.Iterators as spec;
ghost use Rattle.al_type_stmt.specs.Iterators.{iterators};

use al_base::{NoMemory, Place};
use al_environment::{Environment, Here, Numbered, Numbers};
use al_items::Items;
use al_operands::{beside, parts};
use al_rules::TypeStop;
use al_statements::bounds;
use al_tree::Expr;
use al_type_expr::{dropped_value, value_of};
use al_typed::{TBounds, TStmt};
use std::alloc::Global;
use std::mem;

/// The iterators that were met, from left to right.
#[derive(Drop)]
pub(crate) struct Gathered {
    pub(crate) bounds: Items<TBounds>,
    pub(crate) numbers: Numbers,
}

/// The bounds of an iterator.
#[tactic(auto, using(al_rules::proofs::Permits::permitted))]
fn bounds_at(
    alloc: Global,
    env: &Environment,
    here: &Here,
    at: Place,
    a: &Expr,
    b: &Expr,
) -> Result<TBounds, TypeStop>
    requires { IsLaidOut env.now.aggregates }
    ensures { Answers result (spec.bounds_at env.now here.now at a.now b.now) }
{
    let x = value_of(alloc, env, here, a);
    let y = value_of(alloc, env, here, b);
    let (x, y) = parts(x, y)?;
    bounds(alloc, at, x, y)
}

/// The place of an iterator has that number.
fn note(numbers: &mut Numbers, at: Place, number: usize) -> Result<(), NoMemory>
    ensures { OnOk result (numbers.new ≡ numbers.old ++ spec.numbered_at number at) }
{
    if number > 0xffff_ffff {
        return Ok(());
    }
    numbers.push(Numbered {
        at,
        number: number as u32,
    })
}

fn push_one(met: &mut Gathered, at: Place, bounds: TBounds) -> Result<(), NoMemory>
    ensures { OnOk result (met.new ≡ spec.with_one met.old at bounds) }
{
    let count = met.bounds.len();
    met.bounds.push(bounds)?;
    note(&mut met.numbers, at, count)
}

/// These, and one iterator more.
fn with_one(met: Gathered, at: Place, bounds: TBounds) -> Result<Gathered, NoMemory>
    ensures { IfOk result (λ g. g ≡ spec.with_one met at bounds) }
{
    let mut met = met;
    let pushed = push_one(&mut met, at, bounds);
    let (met, _) = beside(met, pushed)?;
    Ok(met)
}

/// These, and the iterator at a place with those bounds.
#[tactic(auto, unfolding(crate::specs::Iterators::gathering), using(al_rules::proofs::Permits::permitted))]
fn gather_one(
    alloc: Global,
    env: &Environment,
    here: &Here,
    at: Place,
    a: &Expr,
    b: &Expr,
    met: Gathered,
) -> Result<Gathered, TypeStop>
    requires { IsLaidOut env.now.aggregates }
    ensures { Answers result (spec.gathering met (spec.spread env.now here.now at a.now b.now ∷ [])) }
{
    let bounds = bounds_at(alloc, env, here, at, a, b);
    let (met, bounds) = beside(met, bounds)?;
    Ok(with_one(met, at, bounds)?)
}

/// These, and those of two parts.
#[cycle(gather)]
#[tactic(auto, using(crate::proofs::Gathering::joined, al_rules::proofs::Permits::permitted))]
fn gather_two(
    alloc: Global,
    env: &Environment,
    here: &Here,
    a: &Expr,
    b: &Expr,
    met: Gathered,
) -> Result<Gathered, TypeStop>
    requires { IsLaidOut env.now.aggregates }
    ensures { Answers result (spec.gathering met (iterators env.now here.now a.now ++ iterators env.now here.now b.now)) }
{
    let met = gather(alloc, env, here, a, met)?;
    gather(alloc, env, here, b, met)
}

/// These, and those of parts in a list.
#[cycle(gather)]
#[tactic(auto, using(crate::proofs::Gathering::lists, al_rules::proofs::Permits::permitted))]
fn gather_all(
    alloc: Global,
    env: &Environment,
    here: &Here,
    parts: &[Expr],
    met: Gathered,
) -> Result<Gathered, TypeStop>
    requires { IsLaidOut env.now.aggregates }
    ensures { Answers result (spec.gathering met (flat_map (iterators env.now here.now) parts.now)) }
{
    let mut met = met;
    for part in parts {
        met = gather(alloc, env, here, part, met)?;
    }
    Ok(met)
}

/// These, and those of what is called and of its arguments.
#[cycle(gather)]
#[tactic(auto, using(crate::proofs::Gathering::joined, al_rules::proofs::Permits::permitted))]
fn gather_call(
    alloc: Global,
    env: &Environment,
    here: &Here,
    arguments: &[Expr],
    callee: &Expr,
    met: Gathered,
) -> Result<Gathered, TypeStop>
    requires { IsLaidOut env.now.aggregates }
    ensures { Answers result (spec.gathering met (iterators env.now here.now callee.now ++ flat_map (iterators env.now here.now) arguments.now)) }
{
    let met = gather(alloc, env, here, callee, met)?;
    gather_all(alloc, env, here, arguments, met)
}

/// These, and the iterators of an expression. What stands in the bounds of an iterator is not gone through.
#[cycle(gather)]
#[tactic(auto, unfolding(crate::specs::Iterators::gathering), using(crate::proofs::IteratorsAre::iterators_are))]
fn gather(
    alloc: Global,
    env: &Environment,
    here: &Here,
    e: &Expr,
    met: Gathered,
) -> Result<Gathered, TypeStop>
    requires { IsLaidOut env.now.aggregates }
    ensures { Answers result (spec.gathering met (iterators env.now here.now e.now)) }
{
    match e {
        Expr::Number { .. }
        | Expr::Char { .. }
        | Expr::Text { .. }
        | Expr::Nil { .. }
        | Expr::Name { .. }
        | Expr::SizeofType { .. } => Ok(met),
        Expr::Tuple { parts, .. } => gather_all(alloc, env, here, parts.as_slice(), met),
        Expr::Sequence { parts, .. } => gather_all(alloc, env, here, parts.as_slice(), met),
        Expr::Unary { operand, .. } => gather(alloc, env, here, operand.get(), met),
        Expr::Cast { operand, .. } => gather(alloc, env, here, operand.get(), met),
        Expr::Postfix { operand, .. } => gather(alloc, env, here, operand.get(), met),
        Expr::SizeofValue { of, .. } => gather(alloc, env, here, of.get(), met),
        Expr::Member { of, .. } => gather(alloc, env, here, of.get(), met),
        Expr::Index { of, index, .. } => gather_two(alloc, env, here, of.get(), index.get(), met),
        Expr::Call {
            callee,
            arguments,
            ..
        } => gather_call(alloc, env, here, arguments.as_slice(), callee.get(), met),
        Expr::Iterator { at, from, to } => {
            gather_one(alloc, env, here, *at, from.get(), to.get(), met)
        }
        Expr::Binary { left, right, .. } => {
            gather_two(alloc, env, here, left.get(), right.get(), met)
        }
        Expr::Assign { left, right, .. } => {
            gather_two(alloc, env, here, left.get(), right.get(), met)
        }
    }
}

/// The iterators of an expression.
#[tactic(auto, using(crate::proofs::Gathering::from_none))]
fn all_iterators(
    alloc: Global,
    env: &Environment,
    here: &Here,
    e: &Expr,
) -> Result<Gathered, TypeStop>
    requires { IsLaidOut env.now.aggregates }
    ensures ok { IfOk result (λ g. spec.IsGathered g (iterators env.now here.now e.now)) }
    ensures stop { IfErr result (λ s. permits (spec.all_bounds (iterators env.now here.now e.now)) s ≡ true) }
{
    let met = Gathered {
        bounds: Items::new(alloc),
        numbers: Numbers::new(alloc),
    };
    gather(alloc, env, here, e, met)
}

/// An expression statement, by the line of its first token.
#[tactic(auto, unfolding(crate::specs::Iterators::value_statement), using(al_rules::proofs::Permits::permitted))]
pub(crate) fn value_statement(
    alloc: Global,
    env: &Environment,
    here: &mut Here,
    line: u32,
    e: &Expr,
) -> Result<TStmt, TypeStop>
    requires laid { IsLaidOut env.now.aggregates }
    requires none { here.old.iterators ≡ [] }
    ensures answer { Answers result (spec.value_statement env.now here.old line e.now) }
    ensures same { here.new ≡ here.old }
{
    let met = all_iterators(alloc, env, here, e)?;
    let Gathered { bounds, numbers } = met;
    let none = mem::replace(&mut here.iterators, numbers);
    let value = dropped_value(alloc, env, here, e);
    here.iterators = none;
    let (iterators, value) = beside(bounds, value)?;
    Ok(TStmt::Value {
        line,
        iterators,
        value,
    })
}
