//! What a function or par branch has of its own.
ghost use Rattle.std.specs.Prelude.{◌≡◌, IfOk};
ghost use Rattle.al_type_function.specs.Locals as spec;

use crate::locals::{Declared, locals, variables};
use crate::numbers::capped;
use al_base::NoMemory;
use al_environment::Variable;
use al_items::Items;
use al_scope::Names;
use al_shared::shared;
use al_tree::Stmt;
use al_typed::Local;
use std::alloc::Global;

/// The parameters and locals of a function or branch, and how many labels it has.
#[derive(Drop)]
pub(crate) struct Frame {
    /// What expressions know of them.
    pub(crate) variables: Items<Variable>,
    /// What the program has of them.
    pub(crate) locals: Items<Local>,
    pub(crate) labels: u32,
}

/// Of a function or branch with that body, round which so many functions are.
#[tactic(auto, unfolding(crate::specs::Locals::frame_of))]
pub(crate) fn frame_of(
    alloc: Global,
    names: &[Items<u8>],
    resolved: &Names,
    round: usize,
    body: &Stmt,
    declared: &[Declared],
    labels: usize,
) -> Result<Frame, NoMemory>
    ensures { IfOk result (λ f. f ≡ spec.frame_of names.now resolved.now round body.now declared.now labels) }
{
    let marks = shared(alloc, resolved, round, declared.len(), body)?;
    let variables = variables(alloc, declared)?;
    let locals = locals(alloc, names, marks.as_slice(), declared)?;
    Ok(Frame {
        variables,
        locals,
        labels: capped(labels),
    })
}
