use al_typed::{TExpr, TTarget, Ty};

/// What an expression is to an alt.
#[derive(Drop)]
pub(crate) enum Form {
    /// `<-c`: the type of what comes, and the channel.
    Receive(Ty, TExpr),
    /// A value that is converted.
    Convert(TExpr),
    /// `target = value`
    Assign(TTarget, TExpr),
    /// `c <-= value`
    Send(TExpr, TExpr),
    Other,
}
