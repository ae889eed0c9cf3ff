use crate::ty::Ty;

/// What the measures of a function count: its nodes, and what else adds to them.
#[derive(Drop)]
pub enum Piece {
    /// A statement that is no local declaration.
    Statement,
    /// A list of local declarations.
    Declaration,
    /// An expression whose value has that type.
    Value(Ty),
    /// An expression whose words are taken as one.
    Named,
    /// A string constant, by its number.
    Text(u32),
    /// The format of a print, of so many bytes.
    Format(usize),
    Iterator,
    /// A send or a receive of a value of that type.
    Talk(Ty),
    /// A branch of an alt for values of that type.
    AltBranch(Ty),
    /// A branch of a par, by its function's number.
    ParBranch(u32),
    /// A call after `proc` or `task`, by its function's number.
    Start(u32),
    /// A value of that type that is copied whole.
    Copied(Ty),
}
