//! Limits of a run.

/// The size of the region in MiB, and the most entries that a schedule may have.
#[derive(Clone, Copy, Debug, PartialEq, Eq)]
pub struct Limits {
    pub region: u32,
    pub entries: u64,
}
