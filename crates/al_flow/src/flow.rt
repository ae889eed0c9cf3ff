//! The walk over the statements of a function.
ghost use Rattle.std.specs.Prelude.{◌≡◌, OnOk};
ghost use Rattle.al_rules.specs.Outcome.{Answers};
ghost use Rattle.al_flow.specs.Flow as spec;

use crate::around::{Enclosing, Outside, outside_of};
use crate::mark::{add_marks, number_of};
use crate::marks::Marks;
use crate::targets::Targets;
use crate::walk::Walk;
use al_base::{NoMemory, Place};
use al_items::{Boxed, Items};
use al_rules::{TypeStop, judged};
use al_tree::Stmt;
use std::alloc::Global;
use std::mem;

/// A body of a loop.
#[cycle(flow)]
#[tactic(auto, unfolding(crate::specs::Flow::inside))]
fn in_a_loop(alloc: Global, marks: &Marks, w: &mut Walk, s: &Stmt) -> Result<(), NoMemory>
    ensures { OnOk result (w.new ≡ spec.inside Enclosing.Loop (spec.walk s.now) marks.now w.old) }
{
    let outer = w.around.len();
    w.around.push(Enclosing::Loop)?;
    statement(alloc, marks, w, s)?;
    w.around.truncate(outer);
    Ok(())
}

/// A body of a switch or an alt.
#[cycle(flow)]
#[tactic(auto, unfolding(crate::specs::Flow::inside))]
fn in_a_choice(alloc: Global, marks: &Marks, w: &mut Walk, body: &[Stmt]) -> Result<(), NoMemory>
    ensures { OnOk result (w.new ≡ spec.inside Enclosing.Choice (spec.each spec.walk body.now) marks.now w.old) }
{
    let outer = w.around.len();
    w.around.push(Enclosing::Choice)?;
    statements(alloc, marks, w, body)?;
    w.around.truncate(outer);
    Ok(())
}

/// A block.
#[cycle(flow)]
#[tactic(auto, unfolding(crate::specs::Flow::block))]
fn block(alloc: Global, marks: &Marks, w: &mut Walk, body: &[Stmt]) -> Result<(), NoMemory>
    ensures { OnOk result (w.new ≡ spec.block (spec.each spec.walk body.now) marks.now w.old) }
{
    let outer = w.closest;
    statements(alloc, marks, w, body)?;
    w.closest = outer;
    Ok(())
}

/// A rescue with its body.
#[cycle(flow)]
#[tactic(auto, unfolding(crate::specs::Flow::rescue))]
fn rescue(
    alloc: Global,
    marks: &Marks,
    w: &mut Walk,
    at: Place,
    name: Option<u32>,
    body: &Stmt,
) -> Result<(), NoMemory>
    ensures { OnOk result (w.new ≡ spec.rescue at name (spec.walk body.now) marks.now w.old) }
{
    let number = w.passed.len() as u64;
    w.rescue(at, name)?;
    statement(alloc, marks, w, body)?;
    w.closest = Some(number);
    Ok(())
}

/// A branch of a par.
#[cycle(flow)]
#[tactic(auto, unfolding(crate::specs::Flow::branch))]
fn branch(alloc: Global, w: &mut Walk, s: &Stmt) -> Result<(), NoMemory>
    ensures { OnOk result (w.new ≡ spec.branch (spec.part s.now) w.old) }
{
    let passed = mem::replace(&mut w.passed, Marks::new(alloc));
    let (closest, outside) = (w.closest, w.outside);
    w.closest = None;
    w.outside = outside_of(w.around.as_slice());
    let mut marks = Marks::new(alloc);
    add_marks(&mut marks, s)?;
    statement(alloc, &marks, w, s)?;
    w.passed = passed;
    w.closest = closest;
    w.outside = outside;
    Ok(())
}

/// The branches of a par.
#[cycle(flow)]
fn branches(alloc: Global, w: &mut Walk, bodies: &[Stmt]) -> Result<(), NoMemory>
    ensures { OnOk result (w.new ≡ spec.branches spec.part bodies.now w.old) }
{
    for s in bodies {
        branch(alloc, w, s)?;
    }
    Ok(())
}

/// Statements one after the other.
#[cycle(flow)]
fn statements(alloc: Global, marks: &Marks, w: &mut Walk, body: &[Stmt]) -> Result<(), NoMemory>
    ensures { OnOk result (w.new ≡ spec.each spec.walk body.now marks.now w.old) }
{
    for s in body {
        statement(alloc, marks, w, s)?;
    }
    Ok(())
}

/// A statement that may be missing.
#[cycle(flow)]
fn optional(
    alloc: Global,
    marks: &Marks,
    w: &mut Walk,
    s: &Option<Boxed<Stmt>>,
) -> Result<(), NoMemory>
    ensures { OnOk result (w.new ≡ spec.optional spec.walk s.now marks.now w.old) }
{
    match s {
        None => Ok(()),
        Some(s) => statement(alloc, marks, w, s.get()),
    }
}

/// A statement.
#[cycle(flow)]
#[tactic(auto, using(crate::proofs::FlowIs::walk_is))]
fn statement(alloc: Global, marks: &Marks, w: &mut Walk, s: &Stmt) -> Result<(), NoMemory>
    ensures { OnOk result (w.new ≡ spec.walk s.now marks.now w.old) }
{
    match s {
        Stmt::Block { body, .. } => block(alloc, marks, w, body.as_slice()),
        Stmt::Label { at, name, body } => {
            w.label(*at, *name)?;
            statement(alloc, marks, w, body.get())
        }
        Stmt::If { then, other, .. } => {
            statement(alloc, marks, w, then.get())?;
            optional(alloc, marks, w, other)
        }
        Stmt::While { body, .. } => in_a_loop(alloc, marks, w, body.get()),
        Stmt::Do { body, .. } => in_a_loop(alloc, marks, w, body.get()),
        Stmt::For { body, .. } => in_a_loop(alloc, marks, w, body.get()),
        Stmt::Switch { body, .. } => in_a_choice(alloc, marks, w, body.as_slice()),
        Stmt::Alt { body, .. } => in_a_choice(alloc, marks, w, body.as_slice()),
        Stmt::Par {
            at,
            branches: bodies,
        } => {
            w.par(*at, bodies.len())?;
            branches(alloc, w, bodies.as_slice())
        }
        Stmt::Rescue { at, name, body } => {
            rescue(alloc, marks, w, *at, number_of(name), body.get())
        }
        Stmt::Raise { at, name } => w.raise(marks, *at, number_of(name)),
        Stmt::Break { at, count } => w.break_off(*at, *count),
        Stmt::Continue { at, count } => w.go_on(*at, *count),
        Stmt::Goto { at, label } => w.goto(marks, *at, label.name),
        Stmt::Empty { .. }
        | Stmt::Declare { .. }
        | Stmt::Value { .. }
        | Stmt::Case { .. }
        | Stmt::Default { .. }
        | Stmt::Return { .. }
        | Stmt::Become { .. }
        | Stmt::Alloc { .. }
        | Stmt::Unalloc { .. }
        | Stmt::Check { .. }
        | Stmt::Proc { .. }
        | Stmt::Task { .. } => Ok(()),
    }
}

/// Nothing is found yet.
fn begin(alloc: Global) -> Walk
    ensures { result ≡ spec.begun }
{
    Walk {
        passed: Marks::new(alloc),
        closest: None,
        around: Items::new(alloc),
        outside: Outside { left: 0, loops: 0 },
        targets: Targets::new(alloc),
        faults: Items::new(alloc),
    }
}

/// Where the gotos, raises, breaks and continues of a function with that body go, those in its par branches too.
///
/// A fault is a statement that breaks rule 49, 50, 51 or 54. It is found exactly where there is one, and it is the first.
#[tactic(auto, unfolding(crate::specs::Flow::targets))]
pub fn find_targets(alloc: Global, body: &Stmt) -> Result<Targets, TypeStop>
    ensures { Answers result (spec.targets body.now) }
{
    let mut marks = Marks::new(alloc);
    add_marks(&mut marks, body)?;
    let mut w = begin(alloc);
    statement(alloc, &marks, &mut w, body)?;
    let Walk {
        passed: _,
        closest: _,
        around: _,
        outside: _,
        targets,
        faults,
    } = w;
    judged(faults.as_slice(), targets)
}
