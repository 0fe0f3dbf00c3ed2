//! The options of a run, and their limits (this runtime's rule).

use crate::schedule::Schedule;

/// The most turns of a run, and the most turns from one added collection to the next.
pub const MOST_TURNS: u32 = 10_000_000;

/// The options of a run.
#[derive(Debug, Drop)]
pub struct RunOptions {
    /// Where the numbers of the turns come from.
    pub schedule: Schedule,
    /// The most turns, from 1 to `MOST_TURNS`.
    pub turns: u32,
    /// The run adds a collection after each N-th turn, N from 1 to `MOST_TURNS`.
    pub every: Option<u32>,
    /// How many markers mark in a collection, from 1 to 16.
    pub markers: u32,
    /// Whether dead goroutines are reclaimed.
    pub recover: bool,
    /// Whether each collection reports its certificate, and for each live goroutine that waits the way to
    /// it.
    pub why: bool,
}
