//! The history of a world: the turns that its passes took, in order. And the result of a step.

use golf_base::{GoroutineId, List};
use golf_data::{Ending, Report};

/// The most entries of a history.
pub const MOST_ENTRIES: usize = 100_000;

/// A turn: the number of the pass that took it, from 0, and the number that chose the goroutine.
#[derive(Clone, Copy, Debug, PartialEq, Eq)]
pub struct HistoryEntry {
    pub pass: u32,
    pub number: u64,
}

/// All turns of a world in order, at most `MOST_ENTRIES`, and the reports of their collections.
#[derive(Drop)]
pub struct History {
    pub entries: List<HistoryEntry>,
    pub reports: List<Report>,
}

/// The result of a step.
#[derive(Clone, Copy, Debug, PartialEq, Eq)]
pub enum Stepped {
    /// This goroutine took a turn with this number. Its entry is at the place `at` of the history, counted
    /// from 0.
    Turned {
        at: u32,
        goroutine: GoroutineId,
        number: u64,
    },
    /// The program has ended, so no turn was taken.
    Ended(Ending),
    /// The program has not ended, but the history is full: it has `MOST_ENTRIES` entries.
    Spent,
}
