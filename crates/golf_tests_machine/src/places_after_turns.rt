//! Turns of goroutines by their places, and the parts of a state after them.

use golf_base::{GoroutineId, List, Memory};
use golf_data::{Code, Mode, WaitKind};
use golf_machine::start;
use golf_state::State;
use golf_tests_support::take_turn;
use std::alloc::Global;
use std::process::Abort;
use std::test::Fail;

/// Goroutine 0, which runs finalisers.
pub const FINALISERS: GoroutineId = GoroutineId(0);

/// The goroutine of `main`.
pub const MAIN: GoroutineId = GoroutineId(1);

/// The goroutine that `main` starts.
pub const OTHER: GoroutineId = GoroutineId(2);

/// Takes `count` turns of the goroutine at this place among those that can run.
pub fn take(
    alloc: Global,
    code: &Code,
    state: &mut State,
    place: u64,
    count: u32,
) -> Result<(), Memory> {
    for _ in 0..count {
        take_turn(alloc, code, state, place)?;
    }
    Ok(())
}

/// Returns the state after these turns: each row is a place and a number of turns.
pub fn after(alloc: Global, code: &Code, turns: &[(u64, u32)]) -> Result<State, Memory> {
    let mut state = start(alloc, code)?;
    for (place, count) in turns {
        take(alloc, code, &mut state, *place, *count)?;
    }
    Ok(state)
}

/// How a goroutine is blocked: the kind, the line, and the ticket.
#[derive(Clone, Copy, PartialEq, Eq)]
pub struct HowBlocked(pub WaitKind, pub u32, pub u64);

// How a goroutine in this mode is blocked, if it is.
fn blocked_by(mode: &Mode) -> Option<HowBlocked> {
    match mode {
        Mode::Running => None,
        Mode::Blocked {
            kind,
            line,
            ticket,
            ..
        } => Some(HowBlocked(*kind, *line, *ticket)),
    }
}

/// Returns how a goroutine is blocked, or `None` if it is not.
pub fn blocked(state: &State, g: GoroutineId) -> Option<HowBlocked> {
    let goroutine = state.goroutine(g)?;
    blocked_by(&goroutine.mode)
}

/// Returns the place of the next instruction of a goroutine's innermost frame, and how many operands the
/// frame has.
pub fn stands(state: &State, g: GoroutineId) -> Option<(u32, usize)> {
    let frame = state.frame(g)?;
    Some((frame.at, frame.values.operand_count()))
}

/// Fails the test unless the claim holds.
pub fn holds<R: Abort>(rt: &R, claim: bool) -> Result<(), Fail> {
    assert!(rt; claim);
    Ok(())
}

/// Returns the goroutines that can run, in rising order of number.
pub fn runnable(alloc: Global, state: &State) -> Result<List<GoroutineId>, Memory> {
    let mut goroutines = List::new(alloc);
    for place in 0..state.runnable_count() {
        goroutines.push(state.runnable_at(place))?;
    }
    Ok(goroutines)
}
