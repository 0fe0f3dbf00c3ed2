//! The totals of the reports of a run.

/// The totals of the reports of a run.
#[derive(Clone, Copy, Debug, PartialEq, Eq)]
pub struct Totals {
    /// How many collections there were.
    pub collections: u32,
    /// How many goroutines all collections together reported.
    pub reported: u64,
    /// How many dead goroutines the last collection kept.
    pub kept: u32,
    /// How many goroutines all collections together removed.
    pub reclaimed: u64,
    /// How many objects the last collection left.
    pub objects: u32,
}
