//! The places of labels and rescues, each of which is entered once.
ghost use Rattle.std.specs.Prelude.{◌≡◌, ◌+◌, ◌<◌, ◌==◌, ℕ, if◌then◌else◌, length, Some, None, IfOk, OnOk};
ghost use Rattle.al_typed.specs.Layout.{IsLaidOut};
ghost use Rattle.al_meaning.specs.Parts.{first_of_two};
ghost use Rattle.al_lower_code.specs.Heads as heads;
ghost use Rattle.al_lower_code.specs.Homes.{at_line};
ghost use Rattle.al_lower_code.specs.Statements as spec;
ghost use Rattle.al_lower_base.specs.Spots.{spot_of};
ghost use Rattle.al_lower_heads.specs.Cases as cases;
ghost use Rattle.al_lower_stmt.specs.Bodies as bodies;
ghost use Rattle.al_lower_stmt.specs.Leading.{noted};

use crate::sizes::{part_size, stmt_size};
use al_base::NoMemory;
use al_items::{Boxed, Items};
use al_lower_base::{Spot, slot_behind};
use al_lower_heads::{alt_size, optional_effect_size, optional_size, switch_size, test_size};
use al_typed::{TExpr, TStmt};

/// The places of labels and rescues, by their numbers.
pub type Places = Items<Option<u32>>;

/// Room for a number.
fn reach(places: &mut Places, number: u32) -> Result<(), NoMemory>
    ensures same { OnOk result ((l : ℕ) → noted places.new l ≡ noted places.old l) }
    ensures within { OnOk result (number < length places.new) }
{
    let count = number as usize;
    while places.len() <= count {
        places.push(None)?;
    }
    Ok(())
}

/// A place for a label or rescue that has none yet.
fn note(places: &mut Places, number: u32, pc: u32) -> Result<(), NoMemory>
    ensures { OnOk result ((l : ℕ) → noted places.new l ≡ first_of_two (noted places.old l) (if number == l then Some pc else None)) }
{
    reach(places, number)?;
    let at = number as usize;
    match places[at] {
        Some(_) => Ok(()),
        None => {
            places.set(at, Some(pc));
            Ok(())
        }
    }
}

/// The labels in a statement that is part of another.
#[cycle(places)]
fn note_part(places: &mut Places, s: Spot<'_>, a: &Boxed<TStmt>, pc: u32) -> Result<(), NoMemory>
    requires { IsLaidOut s.program.now.aggregates }
    ensures { OnOk result ((l : ℕ) → noted places.new l ≡ first_of_two (noted places.old l) (spec.place_of (spot_of s.entry) l a.now pc)) }
{
    note_places(places, s, a.get(), pc)
}

/// The labels in one behind another operation.
#[cycle(places)]
fn note_behind(places: &mut Places, s: Spot<'_>, a: &Boxed<TStmt>, pc: u32) -> Result<(), NoMemory>
    requires { IsLaidOut s.program.now.aggregates }
    ensures { OnOk result ((l : ℕ) → noted places.new l ≡ first_of_two (noted places.old l) (spec.place_of (spot_of s.entry) l a.now (pc + 1))) }
{
    note_part(places, s, a, slot_behind(pc, 1)?)
}

#[cycle(places)]
fn note_other(
    places: &mut Places,
    s: Spot<'_>,
    other: &Option<Boxed<TStmt>>,
    pc: u32,
) -> Result<(), NoMemory>
    requires { IsLaidOut s.program.now.aggregates }
    ensures { OnOk result ((l : ℕ) → noted places.new l ≡ first_of_two (noted places.old l) (bodies.place_of_other (spot_of s.entry) l other.now pc)) }
{
    match other {
        None => Ok(()),
        Some(a) => note_behind(places, s, a, pc),
    }
}

#[cycle(places)]
fn note_all(places: &mut Places, s: Spot<'_>, body: &[TStmt], pc: u32) -> Result<(), NoMemory>
    requires { IsLaidOut s.program.now.aggregates }
    ensures { OnOk result ((l : ℕ) → noted places.new l ≡ first_of_two (noted places.old l) (bodies.place_from (spot_of s.entry) l body.now pc)) }
{
    let mut at = pc;
    for a in body {
        note_places(places, s, a, at)?;
        at = slot_behind(at, stmt_size(s, a)?)?;
    }
    Ok(())
}

#[cycle(places)]
fn note_items(
    places: &mut Places,
    s: Spot<'_>,
    body: &Items<TStmt>,
    pc: u32,
) -> Result<(), NoMemory>
    requires { IsLaidOut s.program.now.aggregates }
    ensures { OnOk result ((l : ℕ) → noted places.new l ≡ first_of_two (noted places.old l) (bodies.place_from (spot_of s.entry) l body.now pc)) }
{
    note_all(places, s, body.as_slice(), pc)
}

#[cycle(places)]
fn note_label(
    places: &mut Places,
    s: Spot<'_>,
    number: u32,
    body: &Boxed<TStmt>,
    pc: u32,
) -> Result<(), NoMemory>
    requires { IsLaidOut s.program.now.aggregates }
    ensures { OnOk result ((l : ℕ) → noted places.new l ≡ first_of_two (noted places.old l) (if number == l then Some pc else spec.place_of (spot_of s.entry) l body.now pc)) }
{
    note(places, number, pc)?;
    note_part(places, s, body, pc)
}

/// A rescue, over which its first operation jumps.
#[cycle(places)]
fn note_rescue(
    places: &mut Places,
    s: Spot<'_>,
    number: u32,
    body: &Boxed<TStmt>,
    pc: u32,
) -> Result<(), NoMemory>
    requires { IsLaidOut s.program.now.aggregates }
    ensures { OnOk result ((l : ℕ) → noted places.new l ≡ first_of_two (noted places.old l) (if number == l then Some (pc + 1) else spec.place_of (spot_of s.entry) l body.now (pc + 1))) }
{
    note_label(places, s, number, body, slot_behind(pc, 1)?)
}

#[cycle(places)]
fn note_if(
    places: &mut Places,
    s: Spot<'_>,
    line: u32,
    other: &Option<Boxed<TStmt>>,
    test: &TExpr,
    chosen: &Boxed<TStmt>,
    pc: u32,
) -> Result<(), NoMemory>
    requires { IsLaidOut s.program.now.aggregates }
    ensures { OnOk result ((l : ℕ) → noted places.new l ≡ first_of_two (noted places.old l) (first_of_two (spec.place_of (spot_of s.entry) l chosen.now (pc + heads.test_size (at_line line (spot_of s.entry)) test.now)) (bodies.place_of_other (spot_of s.entry) l other.now (pc + heads.test_size (at_line line (spot_of s.entry)) test.now + spec.stmt_size (spot_of s.entry) chosen.now)))) }
{
    let begin = slot_behind(pc, test_size(Spot { line, ..s }, test)?)?;
    note_part(places, s, chosen, begin)?;
    let end = slot_behind(begin, part_size(s, chosen)?)?;
    note_other(places, s, other, end)
}

#[cycle(places)]
fn note_while(
    places: &mut Places,
    s: Spot<'_>,
    line: u32,
    test: &TExpr,
    body: &Boxed<TStmt>,
    pc: u32,
) -> Result<(), NoMemory>
    requires { IsLaidOut s.program.now.aggregates }
    ensures { OnOk result ((l : ℕ) → noted places.new l ≡ first_of_two (noted places.old l) (spec.place_of (spot_of s.entry) l body.now (pc + heads.test_size (at_line line (spot_of s.entry)) test.now))) }
{
    let begin = slot_behind(pc, test_size(Spot { line, ..s }, test)?)?;
    note_part(places, s, body, begin)
}

#[cycle(places)]
fn note_for(
    places: &mut Places,
    s: Spot<'_>,
    line: u32,
    start: &Option<TExpr>,
    test: &Option<TExpr>,
    body: &Boxed<TStmt>,
    pc: u32,
) -> Result<(), NoMemory>
    requires { IsLaidOut s.program.now.aggregates }
    ensures { OnOk result ((l : ℕ) → noted places.new l ≡ first_of_two (noted places.old l) (spec.place_of (spot_of s.entry) l body.now (pc + length (heads.optional_code (at_line line (spot_of s.entry)) start.now) + heads.optional_size (at_line line (spot_of s.entry)) test.now))) }
{
    let at = Spot { line, ..s };
    let round = slot_behind(pc, optional_effect_size(at, start)?)?;
    let begin = slot_behind(round, optional_size(at, test)?)?;
    note_part(places, s, body, begin)
}

#[cycle(places)]
fn note_switch(
    places: &mut Places,
    s: Spot<'_>,
    line: u32,
    body: &Items<TStmt>,
    e: &TExpr,
    pc: u32,
) -> Result<(), NoMemory>
    requires { IsLaidOut s.program.now.aggregates }
    ensures { OnOk result ((l : ℕ) → noted places.new l ≡ first_of_two (noted places.old l) (bodies.place_from (spot_of s.entry) l body.now (pc + heads.switch_size (at_line line (spot_of s.entry)) e.now (cases.zero_cases_of body.now)))) }
{
    let begin = slot_behind(pc, switch_size(Spot { line, ..s }, e, body.as_slice())?)?;
    note_items(places, s, body, begin)
}

#[cycle(places)]
fn note_alt(
    places: &mut Places,
    s: Spot<'_>,
    line: u32,
    body: &Items<TStmt>,
    pc: u32,
) -> Result<(), NoMemory>
    requires { IsLaidOut s.program.now.aggregates }
    ensures { OnOk result ((l : ℕ) → noted places.new l ≡ first_of_two (noted places.old l) (bodies.place_from (spot_of s.entry) l body.now (pc + heads.alt_size (at_line line (spot_of s.entry)) (cases.communications body.now)))) }
{
    let begin = slot_behind(pc, alt_size(Spot { line, ..s }, body.as_slice())?)?;
    note_items(places, s, body, begin)
}

/// The labels and rescues in a statement, whose first operation is the one of number pc.
#[cycle(places)]
fn note_places(places: &mut Places, s: Spot<'_>, a: &TStmt, pc: u32) -> Result<(), NoMemory>
    requires { IsLaidOut s.program.now.aggregates }
    ensures { OnOk result ((l : ℕ) → noted places.new l ≡ first_of_two (noted places.old l) (spec.place_of (spot_of s.entry) l a.now pc)) }
{
    match a {
        TStmt::Block { body, .. } => note_items(places, s, body, pc),
        TStmt::Label { number, body, .. } => note_label(places, s, *number, body, pc),
        TStmt::If {
            line,
            condition,
            then,
            other,
        } => note_if(places, s, *line, other, condition, then, pc),
        TStmt::While {
            line,
            condition,
            body,
        } => note_while(places, s, *line, condition, body, pc),
        TStmt::Do { body, .. } => note_part(places, s, body, pc),
        TStmt::For {
            line,
            start,
            condition,
            body,
            ..
        } => note_for(places, s, *line, start, condition, body, pc),
        TStmt::Switch { line, value, body } => note_switch(places, s, *line, body, value, pc),
        TStmt::Alt { line, body } => note_alt(places, s, *line, body, pc),
        TStmt::Rescue { number, body, .. } => note_rescue(places, s, *number, body, pc),
        _ => Ok(()),
    }
}

/// The places of all labels and rescues in a statement, whose first operation is the one of number pc.
pub fn places(s: Spot<'_>, a: &TStmt, pc: u32) -> Result<Places, NoMemory>
    requires { IsLaidOut s.program.now.aggregates }
    ensures { IfOk result (λ it. (l : ℕ) → noted it l ≡ spec.place_of (spot_of s.entry) l a.now pc) }
{
    let mut it = Items::new(s.alloc);
    note_places(&mut it, s, a, pc)?;
    Ok(it)
}
