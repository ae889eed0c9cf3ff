//! Statements as items.
ghost use Rattle.std.specs.Prelude.{◌≡◌, IfOk};
ghost use Rattle.al_meaning.specs.Parts as parts;
ghost use Rattle.al_control.specs.Models.{item_of, stage_of, work_of};

use crate::control::Item;
use crate::work::{Stage, Work};
use al_base::NoMemory;
use al_items::Boxed;
use al_typed::TStmt;
use std::alloc::Global;

/// A statement at a stage.
pub fn staged<'p>(alloc: Global, stage: Stage, s: &'p TStmt) -> Result<Work<'p>, NoMemory>
    ensures { IfOk result (λ w. work_of w ≡ stage_of stage s.now) }
{
    Ok(Work::Statement(stage, Boxed::new(alloc, s)?))
}

/// The line of a statement; labels of cases have none.
#[tactic(auto, using(crate::proofs::Lines::lines))]
pub fn line_of(s: &TStmt) -> u32
    ensures { result ≡ parts.line_of s.now }
{
    match s {
        TStmt::Empty { line } => *line,
        TStmt::Block { line, .. } => *line,
        TStmt::Declare { line, .. } => *line,
        TStmt::Value { line, .. } => *line,
        TStmt::Label { line, .. } => *line,
        TStmt::If { line, .. } => *line,
        TStmt::While { line, .. } => *line,
        TStmt::Do { line, .. } => *line,
        TStmt::For { line, .. } => *line,
        TStmt::Switch { line, .. } => *line,
        TStmt::Alt { line, .. } => *line,
        TStmt::Par { line, .. } => *line,
        TStmt::Rescue { line, .. } => *line,
        TStmt::Raise { line, .. } => *line,
        TStmt::Goto { line, .. } => *line,
        TStmt::Return { line, .. } => *line,
        TStmt::Become { line, .. } => *line,
        TStmt::Break { line, .. } => *line,
        TStmt::Continue { line, .. } => *line,
        TStmt::Alloc { line, .. } => *line,
        TStmt::Unalloc { line, .. } => *line,
        TStmt::Check { line, .. } => *line,
        TStmt::Proc { line, .. } => *line,
        TStmt::Task { line, .. } => *line,
        TStmt::Case { .. } | TStmt::Default | TStmt::AltCase { .. } => 0,
    }
}

/// A statement as an item, in its line.
pub fn to_do<'p>(alloc: Global, s: &'p TStmt) -> Result<Item<'p>, NoMemory>
    ensures { IfOk result (λ i. item_of i ≡ parts.to_do s.now) }
{
    let line = line_of(s);
    let work = staged(alloc, Stage::Do, s)?;
    Ok(Item { line, work })
}
