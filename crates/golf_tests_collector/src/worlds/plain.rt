//! The plain machine, stepped with the numbers of a history.

use golf_base::Memory;
use golf_data::Code;
use golf_machine::start;
use golf_state::State;
use golf_tests_support::take_turn;
use golf_world::HistoryEntry;
use std::alloc::Global;

/// Returns the state after turns with the numbers of these entries, without any collection.
pub fn plain_state(alloc: Global, code: &Code, entries: &[HistoryEntry]) -> Result<State, Memory> {
    let mut state = start(alloc, code)?;
    for entry in entries {
        take_turn(alloc, code, &mut state, entry.number)?;
    }
    Ok(state)
}
