//! What statements do.
ghost use Rattle.std.specs.Prelude.{◌≡◌, ◌∷◌, [], ◌++◌, length, map, IfOk};
ghost use Rattle.std.specs.List.{flat_map};
ghost use Rattle.al_event.specs.declared.act.Act.TheVariants as act;
ghost use Rattle.al_meaning.specs.Calls as calls;
ghost use Rattle.al_meaning.specs.Evaluate as evaluate;
ghost use Rattle.al_meaning.specs.Execute as spec;
ghost use Rattle.al_meaning.specs.Here as here;
ghost use Rattle.al_meaning.specs.Items as item;
ghost use Rattle.al_meaning.specs.Parts as parts;
ghost use Rattle.al_control.specs.Models.{here_of, next_of, stage_of};
ghost use Rattle.al_walk_loops.specs.BodyParts as bodies;
ghost use Rattle.al_walk_cases.specs.CaseLists as case_lists;
ghost use Rattle.al_walk_statements.specs.Forms as forms;

use crate::works::{with_allocations, with_bounds, with_initializers, with_unallocations};
use al_base::NoMemory;
use al_control::{
    Calling, Here, Next, Stage, ValueStage, Work, asks, does, does_two, moves, staged, with_work,
};
use al_event::{Act, Start};
use al_items::Items;
use al_typed::{TBounds, TExpr, TInitializer, TPlace, TStmt};
use al_walk_cases::with_cases;
use al_walk_jumps::{behind_bodies, next_of_loop};
use al_walk_loops::{evaluation, optional_then, starts_then, with_body, with_dropped};
use std::alloc::Global;

/// The bounds of the iterators of an expression statement are to be evaluated, and then it goes through their turns.
fn do_iterated<'p>(
    iterators: &'p [TBounds],
    value: &'p TExpr,
    h: Here<'p>,
) -> Result<Next<'p>, NoMemory>
    ensures { IfOk result (λ n. next_of n ≡ here.does (here_of h.entry) (calls.evaluated (spec.bounds_exprs iterators.now) ++ item.Bound (length iterators.now) value.now ∷ [])) }
{
    let count = iterators.len();
    let h = with_work(h, Work::Value(ValueStage::Bound { count }, value))?;
    moves(with_bounds(iterators, h)?)
}

/// An expression statement without iterators.
fn do_once<'p>(value: &'p TExpr, h: Here<'p>) -> Result<Next<'p>, NoMemory>
    ensures { IfOk result (λ n. next_of n ≡ here.does (here_of h.entry) (evaluate.and_dropped value.now)) }
{
    moves(with_dropped(value, h)?)
}

/// An expression statement, once, or for each turn of its iterators.
pub fn do_value<'p>(
    iterators: &'p [TBounds],
    value: &'p TExpr,
    h: Here<'p>,
) -> Result<Next<'p>, NoMemory>
    ensures { IfOk result (λ n. next_of n ≡ here.does (here_of h.entry) (forms.value_work iterators.now value.now)) }
{
    if iterators.is_empty() {
        do_once(value, h)
    } else {
        do_iterated(iterators, value, h)
    }
}

/// The starts of the branches of a par, each with the addresses of the blocks round it.
fn branch_starts(
    alloc: Global,
    branches: &[u32],
    around: &[u32],
    block: u32,
) -> Result<Items<Start>, NoMemory>
    ensures { IfOk result (λ starts. starts ≡ map (forms.start_at around.now block) branches.now) }
{
    let mut starts = Items::with_capacity(alloc, branches.len())?;
    for code in branches {
        let mut words = Items::from_slice(alloc, around)?;
        words.push(block)?;
        starts.push(Start { code: *code, words })?;
    }
    Ok(starts)
}

/// The branches of a par start.
pub fn do_par<'p>(alloc: Global, branches: &[u32], h: Here<'p>) -> Result<Next<'p>, NoMemory>
    ensures { IfOk result (λ n. next_of n ≡ here.asks (here_of h.entry) (act.Par (map (spec.branch_start (here_of h.entry)) branches.now)) (item.Answered ∷ [])) }
{
    let starts = branch_starts(alloc, branches, h.frame.around.as_slice(), h.frame.block)?;
    asks(h, Act::Par { starts }, Work::Answered)
}

/// A return, with its value where it has one.
pub fn do_return<'p>(value: &'p Option<TExpr>, h: Here<'p>) -> Result<Next<'p>, NoMemory>
    ensures { IfOk result (λ n. next_of n ≡ here.does (here_of h.entry) (forms.return_work value.now)) }
{
    match value {
        None => does(h, Work::Calling(Calling::Returns { is_valued: false })),
        Some(value) => {
            let returns = Work::Calling(Calling::Returns { is_valued: true });
            does_two(h, evaluation(value), returns)
        }
    }
}

/// An expression of a statement is to be evaluated, and then comes a stage of the statement `s`.
pub fn evaluates_then<'p>(
    alloc: Global,
    e: &'p TExpr,
    stage: Stage,
    s: &'p TStmt,
    h: Here<'p>,
) -> Result<Next<'p>, NoMemory>
    ensures { IfOk result (λ n. next_of n ≡ here.does (here_of h.entry) (item.Eval e.now ∷ stage_of stage s.now ∷ [])) }
{
    let then = staged(alloc, stage, s)?;
    does_two(h, evaluation(e), then)
}

/// A list of statements.
pub fn do_block<'p>(alloc: Global, body: &'p [TStmt], h: Here<'p>) -> Result<Next<'p>, NoMemory>
    ensures { IfOk result (λ n. next_of n ≡ here.moves (here.with_items (bodies.statements_in body.now) (here_of h.entry))) }
{
    moves(with_body(alloc, body, h)?)
}

/// Locals that are given values.
pub fn do_declare<'p>(initializers: &'p [TInitializer], h: Here<'p>) -> Result<Next<'p>, NoMemory>
    ensures { IfOk result (λ n. next_of n ≡ here.does (here_of h.entry) (flat_map spec.initializer_work initializers.now)) }
{
    moves(with_initializers(initializers, h)?)
}

/// Places that are allocated.
pub fn do_alloc<'p>(places: &'p [TPlace], h: Here<'p>) -> Result<Next<'p>, NoMemory>
    ensures { IfOk result (λ n. next_of n ≡ here.does (here_of h.entry) (flat_map spec.allocation_work places.now)) }
{
    moves(with_allocations(places, h)?)
}

/// Values that are given back.
pub fn do_unalloc<'p>(values: &'p [TExpr], h: Here<'p>) -> Result<Next<'p>, NoMemory>
    ensures { IfOk result (λ n. next_of n ≡ here.does (here_of h.entry) (flat_map spec.unallocation_work values.now)) }
{
    moves(with_unallocations(values, h)?)
}

/// The body of the do `s`, and then its condition.
pub fn do_do<'p>(
    alloc: Global,
    body: &'p TStmt,
    s: &'p TStmt,
    h: Here<'p>,
) -> Result<Next<'p>, NoMemory>
    ensures { IfOk result (λ n. next_of n ≡ spec.starts_then (here_of h.entry) body.now (item.DoCondition s.now ∷ [])) }
{
    let condition = staged(alloc, Stage::DoCondition, s)?;
    starts_then(alloc, body, condition, h)
}

/// A check.
pub fn do_check<'p>(value: &'p TExpr, h: Here<'p>) -> Result<Next<'p>, NoMemory>
    ensures { IfOk result (λ n. next_of n ≡ here.does (here_of h.entry) (item.Eval value.now ∷ item.Test ∷ [])) }
{
    does_two(h, evaluation(value), Work::Test)
}

/// The first expression of the for `s`, and then its condition.
pub fn do_for<'p>(
    alloc: Global,
    start: &'p Option<TExpr>,
    s: &'p TStmt,
    h: Here<'p>,
) -> Result<Next<'p>, NoMemory>
    ensures { IfOk result (λ n. next_of n ≡ here.does (here_of h.entry) (spec.optionally start.now ++ item.ForCondition s.now ∷ [])) }
{
    let condition = staged(alloc, Stage::ForCondition, s)?;
    optional_then(start, condition, h)
}

/// The channels and values of the cases of the alt `s`, and then its talk.
pub fn do_alt<'p>(
    alloc: Global,
    body: &'p [TStmt],
    s: &'p TStmt,
    h: Here<'p>,
) -> Result<Next<'p>, NoMemory>
    ensures { IfOk result (λ n. next_of n ≡ here.does (here_of h.entry) (calls.evaluated (evaluate.alt_exprs (case_lists.communications_in body.now)) ++ item.AltTalk s.now ∷ [])) }
{
    let talk = staged(alloc, Stage::AltTalk, s)?;
    let h = with_work(h, talk)?;
    moves(with_cases(body, h)?)
}

/// A break.
pub fn do_break<'p>(levels: u32, h: Here<'p>) -> Result<Next<'p>, NoMemory>
    ensures { IfOk result (λ n. next_of n ≡ here.moves (forms.with_rest (parts.behind_bodies levels (here_of h.entry).frame.items) (here_of h.entry))) }
{
    let mut h = h;
    behind_bodies(levels, &mut h.frame.items);
    moves(h)
}

/// A continue.
pub fn do_continue<'p>(levels: u32, h: Here<'p>) -> Result<Next<'p>, NoMemory>
    ensures { IfOk result (λ n. next_of n ≡ here.moves (forms.with_rest (parts.next_of_loop levels (here_of h.entry).frame.items) (here_of h.entry))) }
{
    let mut h = h;
    next_of_loop(levels, &mut h.frame.items)?;
    moves(h)
}
