// How far jumps go.

/// How far the jumps of a function go: a branch reaches all of its code, or a JAL does, or neither.
#[derive(Clone, Copy, Debug, PartialEq, Eq)]
pub enum Reach {
    Short,
    Middle,
    Long,
}
