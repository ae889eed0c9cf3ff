use al_base::Kind;
use al_environment::Numbers;
use al_flow::Targets;
use al_typed::Ty;

/// What is at hand where a statement of a function or par branch stands.
#[derive(Drop)]
pub struct Within {
    /// Where the gotos, raises, breaks and continues of the function go.
    pub targets: Targets,
    /// Its result type: void for a par branch.
    pub returns: Ty,
    /// The numbers of the par branches of the text as functions.
    pub branches: Numbers,
}

/// In which body a statement stands directly.
#[derive(Clone, Copy, Debug, PartialEq, Eq)]
pub enum Choice {
    Neither,
    /// A switch on values of that kind.
    Switch(Kind),
    Alt,
}
