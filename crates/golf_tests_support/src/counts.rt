//! Counts the goroutines and finalisers of a small state, without memory.

use golf_base::{GoroutineId, ObjectId};
use golf_state::State;

/// Returns how many goroutines with numbers below 64 have not ended. Goroutine 0 is among them.
pub fn count_goroutines(state: &State) -> usize {
    let mut count = 0;
    for number in 0..64 {
        if state.goroutine(GoroutineId(number)).is_some() {
            count += 1;
        }
    }
    count
}

/// Returns how many objects with numbers below 64 have a finaliser.
pub fn count_finalisers(state: &State) -> usize {
    let mut count = 0;
    for number in 0..64 {
        if state.finaliser(ObjectId(number)).is_some() {
            count += 1;
        }
    }
    count
}
