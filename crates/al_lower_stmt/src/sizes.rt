//! How many operations statements have.
ghost use Rattle.std.specs.Prelude.{◌≡◌, ◌+◌, length, IfOk};
ghost use Rattle.al_typed.specs.Layout.{IsLaidOut};
ghost use Rattle.al_lower_code.specs.Heads as heads;
ghost use Rattle.al_lower_code.specs.Homes.{at_line};
ghost use Rattle.al_lower_code.specs.Simple.{simple_code};
ghost use Rattle.al_lower_code.specs.Statements as spec;
ghost use Rattle.al_lower_base.specs.Spots.{spot_of};
ghost use Rattle.al_lower_heads.specs.Cases as cases;
ghost use Rattle.al_lower_stmt.specs.Bodies as bodies;

use al_base::NoMemory;
use al_items::{Boxed, Items};
use al_lower_base::{Code, Spot, slot_behind, some};
use al_lower_heads::{
    alt_size, iterated_size, optional_effect_size, optional_size, switch_size, test_size,
};
use al_lower_simple::simple;
use al_typed::{TBounds, TExpr, TStmt};
use al_variables::word_of;

/// How many operations a statement has that has no statement in it.
fn simple_size(s: Spot<'_>, a: &TStmt) -> Result<u32, NoMemory>
    requires { IsLaidOut s.program.now.aggregates }
    ensures { IfOk result (λ n. n ≡ length (simple_code (spot_of s.entry) a.now)) }
{
    let mut code = Code::new(s.alloc);
    simple(&mut code, s, a)?;
    some(word_of(code.len() as u64))
}

/// How many an expression has that is repeated for each turn of iterators.
fn value_size(
    s: Spot<'_>,
    line: u32,
    iterators: &Items<TBounds>,
    e: &TExpr,
) -> Result<u32, NoMemory>
    requires { IsLaidOut s.program.now.aggregates }
    ensures { IfOk result (λ n. n ≡ length (heads.value_code (at_line line (spot_of s.entry)) iterators.now e.now 0)) }
{
    iterated_size(Spot { line, ..s }, iterators.as_slice(), e)
}

/// How many a statement has that is part of another.
#[cycle(sizes)]
pub fn part_size(s: Spot<'_>, a: &Boxed<TStmt>) -> Result<u32, NoMemory>
    requires { IsLaidOut s.program.now.aggregates }
    ensures { IfOk result (λ n. n ≡ spec.stmt_size (spot_of s.entry) a.now) }
{
    stmt_size(s, a.get())
}

/// A statement and the jump over it.
#[cycle(sizes)]
fn skipped_size(s: Spot<'_>, a: &Boxed<TStmt>) -> Result<u32, NoMemory>
    requires { IsLaidOut s.program.now.aggregates }
    ensures { IfOk result (λ n. n ≡ 1 + spec.stmt_size (spot_of s.entry) a.now) }
{
    slot_behind(1, part_size(s, a)?)
}

/// How many a statement behind `else` has, with the jump over it.
#[cycle(sizes)]
fn other_size(s: Spot<'_>, other: &Option<Boxed<TStmt>>) -> Result<u32, NoMemory>
    requires { IsLaidOut s.program.now.aggregates }
    ensures { IfOk result (λ n. n ≡ bodies.size_of_other (spot_of s.entry) other.now) }
{
    match other {
        None => Ok(0),
        Some(a) => skipped_size(s, a),
    }
}

/// How many statements have together.
#[cycle(sizes)]
pub fn all_size(s: Spot<'_>, body: &[TStmt]) -> Result<u32, NoMemory>
    requires { IsLaidOut s.program.now.aggregates }
    ensures { IfOk result (λ n. n ≡ bodies.sizes (spot_of s.entry) body.now) }
{
    let mut size: u32 = 0;
    for a in body {
        size = slot_behind(size, stmt_size(s, a)?)?;
    }
    Ok(size)
}

#[cycle(sizes)]
pub fn items_size(s: Spot<'_>, body: &Items<TStmt>) -> Result<u32, NoMemory>
    requires { IsLaidOut s.program.now.aggregates }
    ensures { IfOk result (λ n. n ≡ bodies.sizes (spot_of s.entry) body.now) }
{
    all_size(s, body.as_slice())
}

#[cycle(sizes)]
fn if_size(
    s: Spot<'_>,
    line: u32,
    other: &Option<Boxed<TStmt>>,
    test: &TExpr,
    chosen: &Boxed<TStmt>,
) -> Result<u32, NoMemory>
    requires { IsLaidOut s.program.now.aggregates }
    ensures { IfOk result (λ n. n ≡ heads.test_size (at_line line (spot_of s.entry)) test.now + (spec.stmt_size (spot_of s.entry) chosen.now + bodies.size_of_other (spot_of s.entry) other.now)) }
{
    let head = test_size(Spot { line, ..s }, test)?;
    let chosen = part_size(s, chosen)?;
    slot_behind(head, slot_behind(chosen, other_size(s, other)?)?)
}

/// A body with a condition before or behind it, and a turn.
#[cycle(sizes)]
fn loop_size(s: Spot<'_>, line: u32, test: &TExpr, body: &Boxed<TStmt>) -> Result<u32, NoMemory>
    requires { IsLaidOut s.program.now.aggregates }
    ensures { IfOk result (λ n. n ≡ heads.test_size (at_line line (spot_of s.entry)) test.now + (spec.stmt_size (spot_of s.entry) body.now + 1)) }
{
    let head = test_size(Spot { line, ..s }, test)?;
    let body = part_size(s, body)?;
    slot_behind(head, slot_behind(body, 1)?)
}

#[cycle(sizes)]
fn for_size(
    s: Spot<'_>,
    line: u32,
    start: &Option<TExpr>,
    test: &Option<TExpr>,
    step: &Option<TExpr>,
    body: &Boxed<TStmt>,
) -> Result<u32, NoMemory>
    requires { IsLaidOut s.program.now.aggregates }
    ensures { IfOk result (λ n. n ≡ length (heads.optional_code (at_line line (spot_of s.entry)) start.now) + (heads.optional_size (at_line line (spot_of s.entry)) test.now + (spec.stmt_size (spot_of s.entry) body.now + (length (heads.optional_code (at_line line (spot_of s.entry)) step.now) + 1)))) }
{
    let at = Spot { line, ..s };
    let begin = optional_effect_size(at, start)?;
    let head = optional_size(at, test)?;
    let body = part_size(s, body)?;
    let next = optional_effect_size(at, step)?;
    slot_behind(
        begin,
        slot_behind(head, slot_behind(body, slot_behind(next, 1)?)?)?,
    )
}

#[cycle(sizes)]
fn cases_size(s: Spot<'_>, line: u32, body: &Items<TStmt>, e: &TExpr) -> Result<u32, NoMemory>
    requires { IsLaidOut s.program.now.aggregates }
    ensures { IfOk result (λ n. n ≡ heads.switch_size (at_line line (spot_of s.entry)) e.now (cases.zero_cases_of body.now) + bodies.sizes (spot_of s.entry) body.now) }
{
    let head = switch_size(Spot { line, ..s }, e, body.as_slice())?;
    slot_behind(head, items_size(s, body)?)
}

#[cycle(sizes)]
fn talks_size(s: Spot<'_>, line: u32, body: &Items<TStmt>) -> Result<u32, NoMemory>
    requires { IsLaidOut s.program.now.aggregates }
    ensures { IfOk result (λ n. n ≡ heads.alt_size (at_line line (spot_of s.entry)) (cases.communications body.now) + bodies.sizes (spot_of s.entry) body.now) }
{
    let head = alt_size(Spot { line, ..s }, body.as_slice())?;
    slot_behind(head, items_size(s, body)?)
}

/// How many operations a statement has.
#[cycle(sizes)]
pub fn stmt_size(s: Spot<'_>, a: &TStmt) -> Result<u32, NoMemory>
    requires { IsLaidOut s.program.now.aggregates }
    ensures { IfOk result (λ n. n ≡ spec.stmt_size (spot_of s.entry) a.now) }
{
    match a {
        TStmt::Block { body, .. } => items_size(s, body),
        TStmt::Value {
            line,
            iterators,
            value,
        } => value_size(s, *line, iterators, value),
        TStmt::Label { body, .. } => part_size(s, body),
        TStmt::If {
            line,
            condition,
            then,
            other,
        } => if_size(s, *line, other, condition, then),
        TStmt::While {
            line,
            condition,
            body,
        } => loop_size(s, *line, condition, body),
        TStmt::Do {
            line,
            body,
            condition,
        } => loop_size(s, *line, condition, body),
        TStmt::For {
            line,
            start,
            condition,
            step,
            body,
        } => for_size(s, *line, start, condition, step, body),
        TStmt::Switch { line, value, body } => cases_size(s, *line, body, value),
        TStmt::Alt { line, body } => talks_size(s, *line, body),
        TStmt::Rescue { body, .. } => skipped_size(s, body),
        TStmt::Raise { .. } | TStmt::Goto { .. } | TStmt::Break { .. } | TStmt::Continue { .. } => {
            Ok(1)
        }
        _ => simple_size(s, a),
    }
}
