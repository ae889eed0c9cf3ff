ghost use Rattle.std.specs.Prelude.{◌≡◌};
ghost use Rattle.al_type_function.specs.Branches as spec;

use al_base::Place;
use al_tree::Stmt;

/// Where a statement begins.
#[tactic(auto, unfolding(crate::specs::Branches::place))]
pub(crate) fn place_of(s: &Stmt) -> Place
    ensures { result ≡ spec.place s.now }
{
    match s {
        Stmt::Empty { at }
        | Stmt::Block { at, .. }
        | Stmt::Declare { at, .. }
        | Stmt::Value { at, .. }
        | Stmt::Label { at, .. }
        | Stmt::If { at, .. }
        | Stmt::While { at, .. }
        | Stmt::Do { at, .. }
        | Stmt::For { at, .. }
        | Stmt::Switch { at, .. }
        | Stmt::Alt { at, .. }
        | Stmt::Case { at, .. }
        | Stmt::Default { at }
        | Stmt::Par { at, .. }
        | Stmt::Rescue { at, .. }
        | Stmt::Raise { at, .. }
        | Stmt::Return { at, .. }
        | Stmt::Become { at, .. }
        | Stmt::Break { at, .. }
        | Stmt::Continue { at, .. }
        | Stmt::Goto { at, .. }
        | Stmt::Alloc { at, .. }
        | Stmt::Unalloc { at, .. }
        | Stmt::Check { at, .. }
        | Stmt::Proc { at, .. }
        | Stmt::Task { at, .. } => *at,
    }
}
