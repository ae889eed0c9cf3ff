//! The operations of every statement.
ghost use Rattle.std.specs.Prelude.{◌≡◌, ◌+◌, ◌++◌, length, unwrap_or, OnOk, IfOk};
ghost use Rattle.al_typed.specs.Layout.{IsLaidOut};
ghost use Rattle.al_ir.specs.declared.op.Op.TheVariants as op;
ghost use Rattle.al_lower_code.specs.Heads as heads;
ghost use Rattle.al_lower_code.specs.Homes.{at_line, here};
ghost use Rattle.al_lower_code.specs.Statements as spec;
ghost use Rattle.al_lower_base.specs.Spots.{spot_of};
ghost use Rattle.al_lower_heads.specs.Cases as cases;
ghost use Rattle.al_lower_stmt.specs.Bodies as bodies;
ghost use Rattle.al_lower_stmt.specs.Leading.{again_of, body_targets, targets_in};

use crate::cases::{body_places, case_places, default_place};
use crate::jumps::{Again, Leading, again_at, behind_levels, label_place, with_again, with_behind};
use crate::labels::places;
use crate::sizes::{items_size, part_size, stmt_size};
use al_base::NoMemory;
use al_ir::Op;
use al_items::{Boxed, Items};
use al_lower_base::{Code, Spot, push, slot_behind};
use al_lower_heads::{
    alt_head, alt_size, iterated, optional_effect, optional_effect_size, optional_size,
    optional_test, switch_head, switch_size, test, test_size,
};
use al_lower_simple::simple;
use al_typed::{TBounds, TExpr, TStmt};

/// An expression that is repeated for each turn of iterators.
fn value_code(
    code: &mut Code,
    s: Spot<'_>,
    line: u32,
    iterators: &Items<TBounds>,
    e: &TExpr,
    pc: u32,
) -> Result<(), NoMemory>
    requires { IsLaidOut s.program.now.aggregates }
    ensures { OnOk result (code.new ≡ code.old ++ heads.value_code (at_line line (spot_of s.entry)) iterators.now e.now pc) }
{
    iterated(code, Spot { line, ..s }, iterators.as_slice(), e, pc)
}

/// The jump over what stands behind `else`, if there is anything.
fn jumps_over(other: &Option<Boxed<TStmt>>) -> u32
    ensures { result ≡ bodies.jumps_over other.now }
{
    match other {
        None => 0,
        Some(_) => 1,
    }
}

/// A jump back to the start of a loop's round.
fn turn(code: &mut Code, s: Spot<'_>, line: u32, to: u32) -> Result<(), NoMemory>
    ensures { OnOk result (code.new ≡ code.old ++ here (at_line line (spot_of s.entry)) (op.Turn to)) }
{
    push(code, line, Op::Turn { to })
}

/// A jump forward.
fn go_to(code: &mut Code, s: Spot<'_>, line: u32, to: u32) -> Result<(), NoMemory>
    ensures { OnOk result (code.new ≡ code.old ++ here (at_line line (spot_of s.entry)) (op.GoTo to)) }
{
    push(code, line, Op::GoTo { to })
}

/// The next round of a loop.
fn next_round(code: &mut Code, line: u32, again: Again) -> Result<(), NoMemory>
    ensures { OnOk result (code.new ≡ code.old ++ spec.again_code line (again_of again)) }
{
    match again {
        Again::Turned { line, place } => push(code, line, Op::Turn { to: place }),
        Again::Onward { place } => push(code, line, Op::GoTo { to: place }),
    }
}

/// Where the default of a switch begins, or else what stands behind the switch.
fn otherwise(s: Spot<'_>, body: &[TStmt], begin: u32, end: u32) -> Result<u32, NoMemory>
    requires { IsLaidOut s.program.now.aggregates }
    ensures { IfOk result (λ at. at ≡ unwrap_or (bodies.default_from (spot_of s.entry) body.now begin) end) }
{
    match default_place(s, body, begin)? {
        Some(place) => Ok(place),
        None => Ok(end),
    }
}

/// A test for each case of a switch, whose body begins at the operation of number `begin` and ends before that of number `end`.
fn cases_head(
    code: &mut Code,
    s: Spot<'_>,
    line: u32,
    e: &TExpr,
    body: &[TStmt],
    begin: u32,
    end: u32,
) -> Result<(), NoMemory>
    requires { IsLaidOut s.program.now.aggregates }
    ensures { OnOk result (code.new ≡ code.old ++ heads.switch_head (at_line line (spot_of s.entry)) e.now (bodies.cases_from (spot_of s.entry) body.now begin) (unwrap_or (bodies.default_from (spot_of s.entry) body.now begin) end)) }
{
    let places = case_places(s, body, begin)?;
    let other = otherwise(s, body, begin, end)?;
    switch_head(code, Spot { line, ..s }, e, places.as_slice(), other)
}

/// The communications of an alt, whose body begins at the operation of number `begin`.
fn talks_head(
    code: &mut Code,
    s: Spot<'_>,
    line: u32,
    body: &[TStmt],
    begin: u32,
) -> Result<(), NoMemory>
    requires { IsLaidOut s.program.now.aggregates }
    ensures { OnOk result (code.new ≡ code.old ++ heads.alt_head (at_line line (spot_of s.entry)) (cases.communications body.now) (bodies.bodies_from (spot_of s.entry) body.now begin)) }
{
    let places = body_places(s, body, begin)?;
    alt_head(code, Spot { line, ..s }, body, places.as_slice())
}

/// A statement that is part of another.
#[cycle(statements)]
fn part(
    code: &mut Code,
    s: Spot<'_>,
    c: Leading<'_>,
    a: &Boxed<TStmt>,
    pc: u32,
) -> Result<(), NoMemory>
    requires { IsLaidOut s.program.now.aggregates }
    ensures { OnOk result (code.new ≡ code.old ++ spec.stmt_code (spot_of s.entry) (targets_in c.entry) a.now pc) }
{
    statement(code, s, c, a.get(), pc)
}

/// Statements, one behind the other.
#[cycle(statements)]
pub fn all_statements(
    code: &mut Code,
    s: Spot<'_>,
    c: Leading<'_>,
    body: &[TStmt],
    pc: u32,
) -> Result<(), NoMemory>
    requires { IsLaidOut s.program.now.aggregates }
    ensures { OnOk result (code.new ≡ code.old ++ bodies.codes_from (spot_of s.entry) (targets_in c.entry) body.now pc) }
{
    let mut at = pc;
    for a in body {
        statement(code, s, c, a, at)?;
        at = slot_behind(at, stmt_size(s, a)?)?;
    }
    Ok(())
}

#[cycle(statements)]
fn items(
    code: &mut Code,
    s: Spot<'_>,
    c: Leading<'_>,
    body: &Items<TStmt>,
    pc: u32,
) -> Result<(), NoMemory>
    requires { IsLaidOut s.program.now.aggregates }
    ensures { OnOk result (code.new ≡ code.old ++ bodies.codes_from (spot_of s.entry) (targets_in c.entry) body.now pc) }
{
    all_statements(code, s, c, body.as_slice(), pc)
}

/// The body of a loop.
#[cycle(statements)]
fn in_loop(
    code: &mut Code,
    s: Spot<'_>,
    c: Leading<'_>,
    behind: u32,
    again: Again,
    body: &Boxed<TStmt>,
    pc: u32,
) -> Result<(), NoMemory>
    requires { IsLaidOut s.program.now.aggregates }
    ensures { OnOk result (code.new ≡ code.old ++ spec.stmt_code (spot_of s.entry) (spec.in_loop behind (again_of again) (targets_in c.entry)) body.now pc) }
{
    let behinds = with_behind(s.alloc, behind, c.behind)?;
    let agains = with_again(s.alloc, again, c.again)?;
    let behind = behinds.as_slice();
    let again = agains.as_slice();
    let inner = Leading {
        labels: c.labels,
        behind,
        again,
    };
    part(code, s, inner, body, pc)
}

/// The body of a switch or alt.
#[cycle(statements)]
fn in_cases(
    code: &mut Code,
    s: Spot<'_>,
    c: Leading<'_>,
    behind: u32,
    body: &Items<TStmt>,
    pc: u32,
) -> Result<(), NoMemory>
    requires { IsLaidOut s.program.now.aggregates }
    ensures { OnOk result (code.new ≡ code.old ++ bodies.codes_from (spot_of s.entry) (spec.in_cases behind (targets_in c.entry)) body.now pc) }
{
    let behinds = with_behind(s.alloc, behind, c.behind)?;
    let behind = behinds.as_slice();
    let inner = Leading {
        labels: c.labels,
        behind,
        again: c.again,
    };
    items(code, s, inner, body, pc)
}

/// A statement and the jump over it.
#[cycle(statements)]
fn skipped(
    code: &mut Code,
    s: Spot<'_>,
    line: u32,
    c: Leading<'_>,
    a: &Boxed<TStmt>,
    pc: u32,
) -> Result<(), NoMemory>
    requires { IsLaidOut s.program.now.aggregates }
    ensures { OnOk result (code.new ≡ code.old ++ (here (at_line line (spot_of s.entry)) (op.Skip (spec.stmt_size (spot_of s.entry) a.now)) ++ spec.stmt_code (spot_of s.entry) (targets_in c.entry) a.now (pc + 1))) }
{
    let count = part_size(s, a)?;
    push(code, line, Op::Skip { count })?;
    part(code, s, c, a, slot_behind(pc, 1)?)
}

/// What stands behind `else`, if there is anything.
#[cycle(statements)]
fn other(
    code: &mut Code,
    s: Spot<'_>,
    line: u32,
    c: Leading<'_>,
    other: &Option<Boxed<TStmt>>,
    pc: u32,
) -> Result<(), NoMemory>
    requires { IsLaidOut s.program.now.aggregates }
    ensures { OnOk result (code.new ≡ code.old ++ bodies.code_of_other (spot_of s.entry) line (targets_in c.entry) other.now pc) }
{
    match other {
        None => Ok(()),
        Some(a) => skipped(code, s, line, c, a, pc),
    }
}

#[cycle(statements)]
fn if_code(
    code: &mut Code,
    s: Spot<'_>,
    line: u32,
    c: Leading<'_>,
    otherwise: &Option<Boxed<TStmt>>,
    condition: &TExpr,
    chosen: &Boxed<TStmt>,
    pc: u32,
) -> Result<(), NoMemory>
    requires { IsLaidOut s.program.now.aggregates }
    ensures { OnOk result (code.new ≡ code.old ++ bodies.if_code (spot_of s.entry) line (targets_in c.entry) condition.now chosen.now otherwise.now pc) }
{
    let at = Spot { line, ..s };
    let size = part_size(s, chosen)?;
    let begin = slot_behind(pc, test_size(at, condition)?)?;
    let end = slot_behind(begin, size)?;
    let count = slot_behind(size, jumps_over(otherwise))?;
    test(code, at, condition, count)?;
    part(code, s, c, chosen, begin)?;
    other(code, s, line, c, otherwise, end)
}

#[cycle(statements)]
fn while_code(
    code: &mut Code,
    s: Spot<'_>,
    line: u32,
    c: Leading<'_>,
    condition: &TExpr,
    body: &Boxed<TStmt>,
    pc: u32,
) -> Result<(), NoMemory>
    requires { IsLaidOut s.program.now.aggregates }
    ensures { OnOk result (code.new ≡ code.old ++ bodies.while_code (spot_of s.entry) line (targets_in c.entry) condition.now body.now pc) }
{
    let at = Spot { line, ..s };
    let size = part_size(s, body)?;
    let begin = slot_behind(pc, test_size(at, condition)?)?;
    let behind = slot_behind(slot_behind(begin, size)?, 1)?;
    let count = slot_behind(size, 1)?;
    test(code, at, condition, count)?;
    in_loop(
        code,
        s,
        c,
        behind,
        Again::Turned { line, place: pc },
        body,
        begin,
    )?;
    turn(code, s, line, pc)
}

#[cycle(statements)]
fn do_code(
    code: &mut Code,
    s: Spot<'_>,
    line: u32,
    c: Leading<'_>,
    body: &Boxed<TStmt>,
    condition: &TExpr,
    pc: u32,
) -> Result<(), NoMemory>
    requires { IsLaidOut s.program.now.aggregates }
    ensures { OnOk result (code.new ≡ code.old ++ bodies.do_code (spot_of s.entry) line (targets_in c.entry) body.now condition.now pc) }
{
    let at = Spot { line, ..s };
    let end = slot_behind(pc, part_size(s, body)?)?;
    let behind = slot_behind(slot_behind(end, test_size(at, condition)?)?, 1)?;
    in_loop(code, s, c, behind, Again::Onward { place: end }, body, pc)?;
    test(code, at, condition, 1)?;
    turn(code, s, line, pc)
}

/// A round of a `for`, whose test has the number `round` and whose body has the number `begin`.
#[cycle(statements)]
fn rounds(
    code: &mut Code,
    s: Spot<'_>,
    line: u32,
    c: Leading<'_>,
    condition: &Option<TExpr>,
    step: &Option<TExpr>,
    body: &Boxed<TStmt>,
    round: u32,
) -> Result<(), NoMemory>
    requires { IsLaidOut s.program.now.aggregates }
    ensures { OnOk result (code.new ≡ code.old ++ bodies.rounds (spot_of s.entry) line (targets_in c.entry) condition.now step.now body.now round) }
{
    let at = Spot { line, ..s };
    let size = part_size(s, body)?;
    let next = optional_effect_size(at, step)?;
    let begin = slot_behind(round, optional_size(at, condition)?)?;
    let end = slot_behind(begin, size)?;
    let behind = slot_behind(slot_behind(end, next)?, 1)?;
    let count = slot_behind(size, slot_behind(next, 1)?)?;
    optional_test(code, at, condition, count)?;
    in_loop(
        code,
        s,
        c,
        behind,
        Again::Onward { place: end },
        body,
        begin,
    )?;
    optional_effect(code, at, step)?;
    turn(code, s, line, round)
}

#[cycle(statements)]
fn for_code(
    code: &mut Code,
    s: Spot<'_>,
    line: u32,
    c: Leading<'_>,
    start: &Option<TExpr>,
    condition: &Option<TExpr>,
    step: &Option<TExpr>,
    body: &Boxed<TStmt>,
    pc: u32,
) -> Result<(), NoMemory>
    requires { IsLaidOut s.program.now.aggregates }
    ensures { OnOk result (code.new ≡ code.old ++ bodies.for_code (spot_of s.entry) line (targets_in c.entry) start.now condition.now step.now body.now pc) }
{
    let at = Spot { line, ..s };
    let round = slot_behind(pc, optional_effect_size(at, start)?)?;
    optional_effect(code, at, start)?;
    rounds(code, s, line, c, condition, step, body, round)
}

#[cycle(statements)]
fn switch_code(
    code: &mut Code,
    s: Spot<'_>,
    line: u32,
    c: Leading<'_>,
    body: &Items<TStmt>,
    e: &TExpr,
    pc: u32,
) -> Result<(), NoMemory>
    requires { IsLaidOut s.program.now.aggregates }
    ensures { OnOk result (code.new ≡ code.old ++ bodies.switch_code (spot_of s.entry) line (targets_in c.entry) e.now body.now pc) }
{
    let cases = body.as_slice();
    let begin = slot_behind(pc, switch_size(Spot { line, ..s }, e, cases)?)?;
    let end = slot_behind(begin, items_size(s, body)?)?;
    cases_head(code, s, line, e, cases, begin, end)?;
    in_cases(code, s, c, end, body, begin)
}

#[cycle(statements)]
fn alt_code(
    code: &mut Code,
    s: Spot<'_>,
    line: u32,
    c: Leading<'_>,
    body: &Items<TStmt>,
    pc: u32,
) -> Result<(), NoMemory>
    requires { IsLaidOut s.program.now.aggregates }
    ensures { OnOk result (code.new ≡ code.old ++ bodies.alt_code (spot_of s.entry) line (targets_in c.entry) body.now pc) }
{
    let cases = body.as_slice();
    let begin = slot_behind(pc, alt_size(Spot { line, ..s }, cases)?)?;
    let end = slot_behind(begin, items_size(s, body)?)?;
    talks_head(code, s, line, cases, begin)?;
    in_cases(code, s, c, end, body, begin)
}

/// The operations of a statement, the first of which is the one of number pc. The spot is that of the function.
#[cycle(statements)]
pub fn statement(
    code: &mut Code,
    s: Spot<'_>,
    c: Leading<'_>,
    a: &TStmt,
    pc: u32,
) -> Result<(), NoMemory>
    requires { IsLaidOut s.program.now.aggregates }
    ensures { OnOk result (code.new ≡ code.old ++ spec.stmt_code (spot_of s.entry) (targets_in c.entry) a.now pc) }
{
    match a {
        TStmt::Block { body, .. } => items(code, s, c, body, pc),
        TStmt::Value {
            line,
            iterators,
            value,
        } => value_code(code, s, *line, iterators, value, pc),
        TStmt::Label { body, .. } => part(code, s, c, body, pc),
        TStmt::If {
            line,
            condition,
            then,
            other,
        } => if_code(code, s, *line, c, other, condition, then, pc),
        TStmt::While {
            line,
            condition,
            body,
        } => while_code(code, s, *line, c, condition, body, pc),
        TStmt::Do {
            line,
            body,
            condition,
        } => do_code(code, s, *line, c, body, condition, pc),
        TStmt::For {
            line,
            start,
            condition,
            step,
            body,
        } => for_code(code, s, *line, c, start, condition, step, body, pc),
        TStmt::Switch { line, value, body } => switch_code(code, s, *line, c, body, value, pc),
        TStmt::Alt { line, body } => alt_code(code, s, *line, c, body, pc),
        TStmt::Rescue { line, body, .. } => skipped(code, s, *line, c, body, pc),
        TStmt::Raise { line, rescue } => turn(code, s, *line, label_place(c, *rescue)),
        TStmt::Goto { line, label } => turn(code, s, *line, label_place(c, *label)),
        TStmt::Break { line, levels } => go_to(code, s, *line, behind_levels(c, *levels)),
        TStmt::Continue { line, levels } => next_round(code, *line, again_at(c, *levels)),
        _ => simple(code, s, a),
    }
}

/// The operations of the body of a function, the first of which is the one of number pc. The spot is that of the function.
pub fn body(code: &mut Code, s: Spot<'_>, a: &TStmt, pc: u32) -> Result<(), NoMemory>
    requires { IsLaidOut s.program.now.aggregates }
    ensures { OnOk result (code.new ≡ code.old ++ spec.stmt_code (spot_of s.entry) (body_targets (spot_of s.entry) a.now pc) a.now pc) }
{
    let table = places(s, a, pc)?;
    let behinds: Items<u32> = Items::new(s.alloc);
    let agains: Items<Again> = Items::new(s.alloc);
    let labels = table.as_slice();
    let behind = behinds.as_slice();
    let again = agains.as_slice();
    let c = Leading {
        labels,
        behind,
        again,
    };
    statement(code, s, c, a, pc)
}
