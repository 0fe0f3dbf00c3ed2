//! The number of choices of each turn of a state.
//!
//! A `select` has one choice for each case. Any other turn has one choice.

ghost use Rattle.std.specs.Prelude.{◌<◌, Some, IfOk};
ghost use Rattle.golf_explore_laws.specs.Closed.{last_choice, turn_last_choice};
ghost use Rattle.golf_explore.specs.VisitLists.{HasChoices};

use golf_base::{GoroutineId, List, Memory};
use golf_data::{Code, Instr, Leaving};
use golf_machine::line_at;
use golf_state::State;
use std::alloc::Global;

// More than the last choice of an instruction.
fn choices_of(instr: &Instr) -> u64
    ensures { last_choice instr.now < result }
{
    match instr {
        Instr::Select(cases, _) => (cases.len() as u64).max(1),
        _ => 1,
    }
}

// More than the last choice of the goroutine's turn.
fn choices_at(code: &Code, state: &State, g: GoroutineId) -> u64
    ensures { turn_last_choice code.now state.now (Some g.0) < result }
{
    let Some(frame) = state.frame(g) else {
        return 1;
    };
    match frame.leaving {
        Leaving::No => match line_at(code, frame.function, frame.at) {
            Some(line) => choices_of(&line.instr),
            None => 1,
        },
        Leaving::Returning(_) => 1,
        Leaving::Unwinding(_) => 1,
    }
}

/// Returns for each goroutine that can run how many choices its turn has at most.
pub(crate) fn choices(alloc: Global, code: &Code, state: &State) -> Result<List<u64>, Memory>
    ensures { IfOk result (HasChoices code.now state.now) }
{
    let mut choices = List::new(alloc);
    for place in 0..state.runnable_count() {
        choices.push(choices_at(code, state, state.runnable_at(place)))?;
    }
    Ok(choices)
}
