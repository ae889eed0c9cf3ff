/// Why a channel can't be used.
#[derive(Clone, Copy, Debug, PartialEq, Eq)]
pub enum ChanFault {
    /// It is nil or was given up, or was made for another number of words.
    Chan,
    /// A blocked talk has a branch on it.
    Busy,
}
