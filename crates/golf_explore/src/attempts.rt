//! Makes a state anew by numbers of turns of which nothing is known.

ghost use Rattle.std.specs.Prelude.{IfOk, IfSome};
ghost use Rattle.golf_data.specs.Places.{HasPlaces};
ghost use Rattle.golf_explore.specs.Sought.{IsReached};

use crate::turns::take;
use golf_base::{GoroutineId, Memory};
use golf_data::Code;
use golf_machine::{start, whose_turn};
use golf_state::State;
use std::alloc::Global;

/// A state that turns reach from the opening state.
#[derive(Drop)]
pub(crate) struct Reached {
    pub(crate) state: State,
    /// How many of the turns were preemptions: another goroutine took the turn though the last one could go on.
    pub(crate) preemptions: u32,
}

/// Returns the place of a goroutine among those that can run, or `None` if it cannot.
pub(crate) fn place_of(state: &State, g: GoroutineId) -> Option<usize> {
    let runnable = state.runnable();
    for place in 0..runnable.count() {
        if runnable.at(place) == g {
            return Some(place);
        }
    }
    None
}

/// Returns whether the goroutine can run.
pub(crate) fn can_run(state: &State, g: GoroutineId) -> bool {
    place_of(state, g).is_some()
}

// Whether the turn of a goroutine is a preemption of the last one.
fn preempts(state: &State, last: Option<GoroutineId>, next: GoroutineId) -> bool {
    match last {
        Some(last) => last != next && can_run(state, last),
        None => false,
    }
}

/// Returns the state after the turns of these numbers from the opening state, or `None` if the program ends before the
/// last one, or gives an object a finaliser.
pub(crate) fn attempt(
    alloc: Global,
    code: &Code,
    numbers: &[u64],
) -> Result<Option<Reached>, Memory>
    requires { HasPlaces code.now }
    ensures { IfOk result (λ reached. IfSome reached (IsReached code.now numbers.now)) }
{
    let mut state = start(alloc, code)?;
    let mut runner = None;
    let mut preemptions = 0u32;
    for number in numbers {
        if state.ending().is_some() {
            return Ok(None);
        }
        let next = whose_turn(&state, *number);
        if preempts(&state, runner, next) {
            preemptions = preemptions.saturating_add(1);
        }
        runner = Some(next);
        take(alloc, code, &mut state, *number)?;
        if state.has_finaliser() {
            return Ok(None);
        }
    }
    Ok(Some(Reached { state, preemptions }))
}
