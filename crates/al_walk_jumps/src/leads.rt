//! Where break, continue, raise and goto lead.
ghost use Rattle.std.specs.Prelude.{◌≡◌, ◌==◌, ◌∷◌, ◌||◌, true, [], map, Some, unwrap_or, IfOk, OnOk};
ghost use Rattle.al_typed.specs.declared.statement.TStmt.{TStmt as Statement};
ghost use Rattle.al_meaning.specs.Execute as execute;
ghost use Rattle.al_meaning.specs.Parts as parts;
ghost use Rattle.al_meaning.specs.Places.{function_at};
ghost use Rattle.al_control.specs.Models.{here_of, item_of, next_of, stage_of, work_of};
ghost use Rattle.al_walk_jumps.specs.Labelled.{going_on_in, going_on_other, labelled, other_holds};
ghost use Rattle.al_walk_jumps.specs.Holds as labels;
ghost use Rattle.al_walk_jumps.specs.Ends as spec;

use al_base::NoMemory;
use al_control::{Control, Frame, Here, Item, Next, Stack, Stage, Work, staged, to_do};
use al_items::Boxed;
use al_typed::{Program, TStmt};
use al_walk_loops::put_statements;
use std::alloc::Global;

/// How many bodies of loops end with a stage of a statement: one or none.
#[tactic(auto, using(crate::proofs::Borders::stages))]
fn loops_at_stage(stage: Stage) -> u32
    ensures loops { (s : Statement) → result ≡ spec.loops_at (stage_of stage s) }
    ensures bodies { (s : Statement) → result ≡ spec.bodies_at (stage_of stage s) }
{
    match stage {
        Stage::WhileAgain => 1,
        Stage::DoCondition => 1,
        Stage::ForNext => 1,
        Stage::Do => 0,
        Stage::Choose => 0,
        Stage::WhileTest => 0,
        Stage::DoTest => 0,
        Stage::ForCondition => 0,
        Stage::ForTest => 0,
        Stage::ForAgain => 0,
        Stage::Select => 0,
        Stage::AltTalk => 0,
        Stage::AltWent => 0,
    }
}

/// How many bodies of loops, switches and alts end with a work: one or none.
#[tactic(auto, using(crate::proofs::Borders::works))]
fn bodies_at(work: &Work) -> u32
    ensures { result ≡ spec.bodies_at (work_of work.now) }
{
    match work {
        Work::Statement(stage, _) => loops_at_stage(*stage),
        Work::CasesEnd => 1,
        Work::Value(..) => 0,
        Work::Target(..) => 0,
        Work::Find(_) => 0,
        Work::FindDeclared { .. } => 0,
        Work::Operator(_) => 0,
        Work::Part { .. } => 0,
        Work::Storage(_) => 0,
        Work::Calling(_) => 0,
        Work::Action(_) => 0,
        Work::Answered => 0,
        Work::Give(_) => 0,
        Work::Forget => 0,
        Work::Test => 0,
    }
}

/// How many bodies of loops end with a work: one or none.
#[tactic(auto, using(crate::proofs::Borders::works))]
fn loops_at(work: &Work) -> u32
    ensures { result ≡ spec.loops_at (work_of work.now) }
{
    match work {
        Work::Statement(stage, _) => loops_at_stage(*stage),
        Work::CasesEnd => 0,
        Work::Value(..) => 0,
        Work::Target(..) => 0,
        Work::Find(_) => 0,
        Work::FindDeclared { .. } => 0,
        Work::Operator(_) => 0,
        Work::Part { .. } => 0,
        Work::Storage(_) => 0,
        Work::Calling(_) => 0,
        Work::Action(_) => 0,
        Work::Answered => 0,
        Work::Give(_) => 0,
        Work::Forget => 0,
        Work::Test => 0,
    }
}

/// Takes the items away that stand before the end of so many bodies of loops, switches and alts, and those ends.
pub fn behind_bodies<'p>(levels: u32, items: &mut Stack<Item<'p>>)
    ensures { map item_of items.new ≡ parts.behind_bodies levels (map item_of items.old) }
{
    let mut left = levels;
    while left > 0 {
        match items.pop() {
            None => return,
            Some(item) => {
                let ended = bodies_at(&item.work);
                drop(item);
                left -= ended;
            }
        }
    }
}

/// Takes the items away that stand before the end of the body of loop number `levels`.
pub fn next_of_loop<'p>(levels: u32, items: &mut Stack<Item<'p>>) -> Result<(), NoMemory>
    ensures { OnOk result (map item_of items.new ≡ parts.next_of_loop levels (map item_of items.old)) }
{
    let mut left = levels;
    while left > 0 {
        match items.pop() {
            None => return Ok(()),
            Some(item) => {
                let ended = loops_at(&item.work);
                if left == ended {
                    items.push(item)?;
                    return Ok(());
                }
                drop(item);
                left -= ended;
            }
        }
    }
    Ok(())
}

/// Whether the label or rescue of that number stands in one of these statements.
#[cycle(holds)]
fn any_holds(number: u32, body: &[TStmt]) -> bool
    ensures { result ≡ labels.any_holds number body.now }
{
    for s in body {
        if holds(number, s) {
            return true;
        }
    }
    false
}

/// The same of the other statement of an if.
#[cycle(holds)]
fn other_holds(number: u32, other: &Option<Boxed<TStmt>>) -> bool
    ensures { result ≡ other_holds number other.now }
{
    match other {
        None => false,
        Some(other) => holds(number, other.get()),
    }
}

/// Whether it stands in a statement.
#[cycle(holds)]
#[tactic(auto, using(crate::proofs::Labels::held))]
fn holds(number: u32, s: &TStmt) -> bool
    ensures { result ≡ labels.holds number s.now }
{
    match s {
        TStmt::Block { body, .. } => any_holds(number, body.as_slice()),
        TStmt::Label {
            number: label,
            body,
            ..
        } => *label == number || holds(number, body.get()),
        TStmt::If { then, other, .. } => holds(number, then.get()) || other_holds(number, other),
        TStmt::While { body, .. } => holds(number, body.get()),
        TStmt::Do { body, .. } => holds(number, body.get()),
        TStmt::For { body, .. } => holds(number, body.get()),
        TStmt::Switch { body, .. } => any_holds(number, body.as_slice()),
        TStmt::Alt { body, .. } => any_holds(number, body.as_slice()),
        TStmt::Rescue {
            number: label,
            body,
            ..
        } => *label == number || holds(number, body.get()),
        _ => false,
    }
}

/// Work in a line, before the other items.
fn put_work<'p>(line: u32, work: Work<'p>, items: &mut Stack<Item<'p>>) -> Result<(), NoMemory>
    ensures { OnOk result (map item_of items.new ≡ parts.item line (work_of work.entry) ∷ map item_of items.old) }
{
    items.push(Item { line, work })?;
    Ok(())
}

/// A stage of a statement in a line, before the other items.
fn put_stage<'p>(
    alloc: Global,
    line: u32,
    stage: Stage,
    s: &'p TStmt,
    items: &mut Stack<Item<'p>>,
) -> Result<(), NoMemory>
    ensures { OnOk result (map item_of items.new ≡ parts.item line (stage_of stage s.now) ∷ map item_of items.old) }
{
    let work = staged(alloc, stage, s)?;
    put_work(line, work, items)?;
    Ok(())
}

/// A statement as an item, before the other items.
fn put_to_do<'p>(alloc: Global, s: &'p TStmt, items: &mut Stack<Item<'p>>) -> Result<(), NoMemory>
    ensures { OnOk result (map item_of items.new ≡ parts.to_do s.now ∷ map item_of items.old) }
{
    let item = to_do(alloc, s)?;
    items.push(item)?;
    Ok(())
}

/// What goes on from the label or rescue of that number in the first of these statements that has it, before the other items.
#[cycle(going_on)]
fn put_going_on_in<'p>(
    alloc: Global,
    number: u32,
    body: &'p [TStmt],
    items: &mut Stack<Item<'p>>,
) -> Result<(), NoMemory>
    ensures { OnOk result (labels.any_holds number body.now ≡ true → going_on_in number body.now (map item_of items.old) ≡ Some (map item_of items.new)) }
{
    for (k, s) in body.iter().enumerate() {
        if holds(number, s) {
            put_statements(alloc, &body[k + 1..], items)?;
            return put_going_on(alloc, number, s, items);
        }
    }
    Ok(())
}

/// What goes on in the other statement of an if, before the other items.
#[cycle(going_on)]
fn put_going_on_other<'p>(
    alloc: Global,
    number: u32,
    other: &'p Option<Boxed<TStmt>>,
    items: &mut Stack<Item<'p>>,
) -> Result<(), NoMemory>
    ensures { OnOk result (other_holds number other.now ≡ true → going_on_other number other.now (map item_of items.old) ≡ Some (map item_of items.new)) }
{
    match other {
        None => Ok(()),
        Some(other) => put_going_on(alloc, number, other.get(), items),
    }
}

/// What goes on from `there`, where this is the label or rescue, else in the statement behind it, before the other items.
#[cycle(going_on)]
fn put_labelled<'p>(
    alloc: Global,
    number: u32,
    label: u32,
    there: &'p TStmt,
    body: &'p TStmt,
    items: &mut Stack<Item<'p>>,
) -> Result<(), NoMemory>
    ensures { OnOk result ((label == number) || labels.holds number body.now ≡ true → labelled number label there.now body.now (map item_of items.old) ≡ Some (map item_of items.new)) }
{
    if label == number {
        put_to_do(alloc, there, items)
    } else {
        put_going_on(alloc, number, body, items)
    }
}

/// What goes on from the label or rescue of that number in a statement, before the other items.
#[cycle(going_on)]
fn put_going_on<'p>(
    alloc: Global,
    number: u32,
    s: &'p TStmt,
    items: &mut Stack<Item<'p>>,
) -> Result<(), NoMemory>
    ensures { OnOk result (labels.holds number s.now ≡ true → parts.going_on number s.now (map item_of items.old) ≡ Some (map item_of items.new)) }
{
    match s {
        TStmt::Block { body, .. } => put_going_on_in(alloc, number, body.as_slice(), items),
        TStmt::Label {
            number: label,
            body,
            ..
        } => put_labelled(alloc, number, *label, s, body.get(), items),
        TStmt::If { then, other, .. } => {
            let chosen = then.get();
            if holds(number, chosen) {
                put_going_on(alloc, number, chosen, items)
            } else {
                put_going_on_other(alloc, number, other, items)
            }
        }
        TStmt::While { line, body, .. } => {
            put_stage(alloc, *line, Stage::WhileAgain, s, items)?;
            put_going_on(alloc, number, body.get(), items)
        }
        TStmt::Do { line, body, .. } => {
            put_stage(alloc, *line, Stage::DoCondition, s, items)?;
            put_going_on(alloc, number, body.get(), items)
        }
        TStmt::For { line, body, .. } => {
            put_stage(alloc, *line, Stage::ForNext, s, items)?;
            put_going_on(alloc, number, body.get(), items)
        }
        TStmt::Switch { line, body, .. } => {
            put_work(*line, Work::CasesEnd, items)?;
            put_going_on_in(alloc, number, body.as_slice(), items)
        }
        TStmt::Alt { line, body, .. } => {
            put_work(*line, Work::CasesEnd, items)?;
            put_going_on_in(alloc, number, body.as_slice(), items)
        }
        TStmt::Rescue {
            number: label,
            body,
            ..
        } => {
            let body = body.get();
            put_labelled(alloc, number, *label, body, body, items)
        }
        _ => Ok(()),
    }
}

/// All that is done in a statement from the label or rescue of that number on; nothing where it has none.
fn items_from<'p>(alloc: Global, number: u32, body: &'p TStmt) -> Result<Stack<Item<'p>>, NoMemory>
    ensures { IfOk result (λ items. map item_of items ≡ unwrap_or (parts.going_on number body.now []) []) }
{
    let mut items = Stack::new(alloc);
    if holds(number, body) {
        put_going_on(alloc, number, body, &mut items)?;
        Ok(items)
    } else {
        Ok(items)
    }
}

/// The same of the function of that number.
fn target_items<'p>(
    alloc: Global,
    p: &'p Program,
    function: u32,
    number: u32,
) -> Result<Stack<Item<'p>>, NoMemory>
    ensures { IfOk result (λ items. map item_of items ≡ unwrap_or (execute.items_from (function_at p.now function) number) []) }
{
    let functions = p.functions.as_slice();
    let function = function as usize;
    if function < functions.len() {
        items_from(alloc, number, &functions[function].body)
    } else {
        Ok(Stack::new(alloc))
    }
}

/// The function at hand goes on with these items alone, by a turn.
fn turns_to<'p>(items: Stack<Item<'p>>, h: Here<'p>) -> Result<Next<'p>, NoMemory>
    ensures { IfOk result (λ n. next_of n ≡ execute.jumps (here_of h.entry) (Some (map item_of items.entry))) }
{
    let Here {
        line,
        frame,
        mut below,
        privates,
        ..
    } = h;
    let Frame {
        function,
        locals,
        block,
        around,
        turns,
        items: _left,
        found,
    } = frame;
    let frame = Frame {
        function,
        locals,
        block,
        around,
        turns,
        items,
        found,
    };
    below.push(frame)?;
    let control = Control {
        entering: None,
        frames: below,
    };
    Ok(Next::Turns(line, control, privates))
}

/// The function at hand goes on from its label or rescue of that number, by a turn.
pub fn jumps<'p>(alloc: Global, number: u32, h: Here<'p>) -> Result<Next<'p>, NoMemory>
    ensures { IfOk result (λ n. next_of n ≡ execute.jumps (here_of h.entry) (execute.target_items (here_of h.entry) number)) }
{
    let items = target_items(alloc, h.program, h.frame.function, number)?;
    turns_to(items, h)
}
