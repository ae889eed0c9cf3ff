/// A text that passes one of the limits of this project, with the number that is too great, or 2^64 - 1 where it is
/// greater still.
#[derive(Clone, Copy, Debug, PartialEq, Eq)]
pub enum Limit {
    /// Bytes of the text. The number is the limit plus 1.
    Long(u64),
    /// Instances of adts with parameters. The number is the limit plus 1.
    Instances(u64),
    /// Bytes of a value that is copied whole.
    Wide(u64),
    /// Weight of the program.
    Weight(u64),
    /// Weight of a function.
    FunctionWeight(u64),
    /// Slots of a function, or words of all private globals.
    Slots(u64),
}
