/// A label in the body of a switch.
#[derive(Clone, Copy, Debug, PartialEq, Eq)]
pub enum Label {
    /// `case`, by the bits of its value in the kind of the switch.
    Case(u64),
    Default,
}
