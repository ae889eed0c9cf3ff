ghost use Rattle.std.specs.Prelude.{◌≡◌, ◌++◌, OnOk};
ghost use Rattle.std.specs.List.{flat_map};
ghost use Rattle.al_flow.specs.Marks as spec;
ghost use Rattle.al_flow.specs.Flow as flow;
ghost use Rattle.al_flow.specs.Rules as rule;

use crate::marks::Marks;
use al_base::NoMemory;
use al_tree::{Name, Stmt};

/// A label or a rescue by its name.
#[derive(Clone, Copy)]
pub enum Mark {
    Label(u32),
    Rescue(Option<u32>),
}

/// Whether no label of that name stands before it.
pub(crate) fn is_new_label(earlier: &Marks, name: u32) -> bool
    ensures { result ≡ rule.is_new_label earlier.now name }
{
    earlier.label_named(name).is_none()
}

/// Whether no rescue of that name stands before it.
pub(crate) fn is_new_rescue(earlier: &Marks, name: Option<u32>) -> bool
    ensures { result ≡ rule.is_new_rescue earlier.now name }
{
    match name {
        None => true,
        Some(name) => earlier.rescue_named(name).is_none(),
    }
}

/// The number of a name that may be missing.
pub(crate) fn number_of(name: &Option<Name>) -> Option<u32>
    ensures { result ≡ spec.number_of name.now }
{
    match name {
        None => None,
        Some(name) => Some(name.name),
    }
}

/// Adds the marks of statements.
#[cycle(marks)]
#[tactic(auto, using(crate::proofs::FlowIs::marks_more))]
fn add_all(marks: &mut Marks, body: &[Stmt]) -> Result<(), NoMemory>
    ensures { OnOk result (marks.new ≡ marks.old ++ flat_map flow.marks body.now) }
{
    for s in body {
        add_marks(marks, s)?;
    }
    Ok(())
}

/// Adds the marks of a statement, without those of par branches in it.
#[cycle(marks)]
#[tactic(auto, using(crate::proofs::FlowIs::marks_are, crate::proofs::FlowIs::fronts))]
pub(crate) fn add_marks(marks: &mut Marks, s: &Stmt) -> Result<(), NoMemory>
    ensures { OnOk result (marks.new ≡ marks.old ++ flow.marks s.now) }
{
    match s {
        Stmt::Label { name, body, .. } => {
            marks.push(Mark::Label(*name))?;
            add_marks(marks, body.get())
        }
        Stmt::Rescue { name, body, .. } => {
            marks.push(Mark::Rescue(number_of(name)))?;
            add_marks(marks, body.get())
        }
        Stmt::If { then, other, .. } => {
            add_marks(marks, then.get())?;
            match other {
                None => Ok(()),
                Some(other) => add_marks(marks, other.get()),
            }
        }
        Stmt::While { body, .. } => add_marks(marks, body.get()),
        Stmt::Do { body, .. } => add_marks(marks, body.get()),
        Stmt::For { body, .. } => add_marks(marks, body.get()),
        Stmt::Block { body, .. } => add_all(marks, body.as_slice()),
        Stmt::Switch { body, .. } => add_all(marks, body.as_slice()),
        Stmt::Alt { body, .. } => add_all(marks, body.as_slice()),
        Stmt::Empty { .. }
        | Stmt::Declare { .. }
        | Stmt::Value { .. }
        | Stmt::Case { .. }
        | Stmt::Default { .. }
        | Stmt::Par { .. }
        | Stmt::Raise { .. }
        | Stmt::Return { .. }
        | Stmt::Become { .. }
        | Stmt::Break { .. }
        | Stmt::Continue { .. }
        | Stmt::Goto { .. }
        | Stmt::Alloc { .. }
        | Stmt::Unalloc { .. }
        | Stmt::Check { .. }
        | Stmt::Proc { .. }
        | Stmt::Task { .. } => Ok(()),
    }
}
