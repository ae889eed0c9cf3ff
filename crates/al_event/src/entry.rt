// One entry of a schedule, and what a worker was lent.

/// One entry of a schedule: the first ready task of `proc` runs up to its next action, which is done.
/// `pick` names one of the pairs that can go where that action is a talk, and is 0 elsewhere.
/// `worker` is who made the entry; it has no part in what the entry does.
#[derive(Debug, Clone, Copy, PartialEq, Eq)]
pub struct Entry {
    pub proc: u32,
    pub pick: u16,
    pub worker: u8,
}

/// What a worker was lent: the first ready task of `proc`, as it is after the first `since` entries.
#[derive(Debug, Clone, Copy, PartialEq, Eq)]
pub struct Loan {
    pub proc: u32,
    pub since: u64,
}
