//! The entries of a report.
//!
//! An entry names a goroutine, the kind and the line of its wait, and the line of its start.

ghost use Rattle.std.specs.Prelude.{◌≡◌, ◌++◌, IfOk, OnOk};
ghost use Rattle.golf_theory.specs.Maps.{find};
ghost use Rattle.golf_model.specs.Reports.{entries, entry_of, numbers};

use golf_base::{GoroutineId, List, Memory};
use golf_data::{Entry, Mode};
use golf_state::State;
use std::alloc::Global;

/// Returns the entries of a report on these goroutines. A goroutine that is not blocked has none.
pub(crate) fn entries(
    alloc: Global,
    state: &State,
    goroutines: &[GoroutineId],
) -> Result<List<Entry>, Memory>
    ensures { IfOk result (λ list. list ≡ entries state.now (numbers goroutines.now)) }
{
    let mut list = List::new(alloc);
    for g in goroutines {
        add_entry(state, &mut list, *g)?;
    }
    Ok(list)
}

// Adds the entry of this goroutine, if it is blocked.
fn add_entry(state: &State, list: &mut List<Entry>, g: GoroutineId) -> Result<(), Memory>
    ensures { OnOk result (list.new ≡ list.old ++ entry_of g.0 (find g.0 state.now.goroutines)) }
{
    match state.goroutine(g) {
        Some(goroutine) => match goroutine.mode {
            Mode::Running => Ok(()),
            Mode::Blocked { kind, line, .. } => list.push(Entry {
                goroutine: g,
                wait: kind,
                line,
                started: goroutine.started,
            }),
        },
        None => Ok(()),
    }
}
