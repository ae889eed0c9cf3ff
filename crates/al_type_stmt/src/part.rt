//! What is said of a statement where it stands in another.
ghost use Rattle.std.specs.Prelude.{◌≡◌};
ghost use Rattle.al_environment.specs.declared.environment.Environment.{Environment};
ghost use Rattle.al_environment.specs.declared.environment.Here.{Here};
ghost use Rattle.al_type_stmt.specs.declared.within.Within.{Within};
ghost use Rattle.al_type_stmt.specs.Statements as spec;
ghost use Rattle.al_type_stmt.specs.Statements.{part};

use al_base::Place;
use al_statements::Label;
use al_tree::Stmt;
use al_typed::TStmt;

/// The place of a statement's first token.
#[tactic(auto, using(crate::proofs::StatementsAre::place_is))]
pub(crate) fn place(s: &Stmt) -> Place
    ensures { (w : Within) (env : Environment) (here : Here) → result ≡ (part w env here s.now).at }
{
    match s {
        Stmt::Empty { at }
        | Stmt::Block { at, .. }
        | Stmt::Declare { at, .. }
        | Stmt::Value { at, .. }
        | Stmt::Label { at, .. }
        | Stmt::If { at, .. }
        | Stmt::While { at, .. }
        | Stmt::Do { at, .. }
        | Stmt::For { at, .. }
        | Stmt::Switch { at, .. }
        | Stmt::Alt { at, .. }
        | Stmt::Case { at, .. }
        | Stmt::Default { at }
        | Stmt::Par { at, .. }
        | Stmt::Rescue { at, .. }
        | Stmt::Raise { at, .. }
        | Stmt::Return { at, .. }
        | Stmt::Become { at, .. }
        | Stmt::Break { at, .. }
        | Stmt::Continue { at, .. }
        | Stmt::Goto { at, .. }
        | Stmt::Alloc { at, .. }
        | Stmt::Unalloc { at, .. }
        | Stmt::Check { at, .. }
        | Stmt::Proc { at, .. }
        | Stmt::Task { at, .. } => *at,
    }
}

/// The label of a switch that a statement is.
#[tactic(auto, unfolding(crate::specs::Statements::label_of))]
pub(crate) fn label_of(s: &TStmt) -> Option<Label>
    ensures { result ≡ spec.label_of s.now }
{
    match s {
        TStmt::Case { bits, .. } => Some(Label::Case(*bits)),
        TStmt::Default => Some(Label::Default),
        _ => None,
    }
}

/// Whether it is the label of a case of an alt.
#[tactic(auto, unfolding(crate::specs::Statements::is_alt_case))]
pub(crate) fn is_alt_case(s: &TStmt) -> bool
    ensures { result ≡ spec.is_alt_case s.now }
{
    matches!(s, TStmt::AltCase { .. })
}
