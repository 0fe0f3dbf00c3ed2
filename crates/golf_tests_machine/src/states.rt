//! Tests of a state that is changed by hand, and of frames with a deferred call.

use crate::places_after_turns::holds;
use golf_base::{GoroutineId, List, Memory};
use golf_data::{Deferred, DeferredCalls, Frame, FrameValues, Leaving};
use golf_state::{State, begin_return, enter_deferred, return_frame};
use golf_tests_support::count_goroutines;
use std::alloc::Global;
use std::test::Fail;

// A frame with these deferred calls.
fn frame(alloc: Global, deferred: DeferredCalls) -> Result<Frame, Memory> {
    Ok(Frame {
        function: 0,
        at: 1,
        values: FrameValues::of(alloc, &[], 0, 0)?,
        deferred,
        leaving: Leaving::No,
        discards: true,
    })
}

// Whether there are two frames during the deferred call of a returning frame, and one after it.
fn deferred_call(alloc: Global) -> Result<bool, Memory> {
    let mut deferred = DeferredCalls::new(alloc);
    deferred.push(Deferred {
        function: 1,
        arguments: List::new(alloc),
    })?;
    let mut frames = List::new(alloc);
    frames.push(frame(alloc, deferred)?)?;
    begin_return(&mut frames, 2, 0, None);
    enter_deferred(&mut frames, frame(alloc, DeferredCalls::new(alloc))?)?;
    let inside = frames.len();
    return_frame(&mut frames, None)?;
    Ok(inside == 2 && frames.len() == 1)
}

// Whether a goroutine that is started after goroutine 2 has ended is goroutine 3, and there are three.
fn started_anew(alloc: Global) -> Result<bool, Memory> {
    let mut state = State::new(alloc, List::new(alloc), List::new(alloc), 1)?;
    let second = state.spawn(List::new(alloc), 3)?;
    state.leave(second);
    let third = state.spawn(List::new(alloc), 4)?;
    Ok(third == GoroutineId(3) && count_goroutines(&state) == 3)
}

// Whether two bytes are printed, and none is left after they are cleared.
fn cleared(alloc: Global) -> Result<bool, Memory> {
    let mut state = State::new(alloc, List::new(alloc), List::new(alloc), 1)?;
    state.add_output(b"7\n")?;
    let printed = state.output().len();
    state.clear_output();
    Ok(printed == 2 && state.output().len() == 0)
}

// Whether a copy of a state is equal to it, also after both have taken the same turn by hand.
fn copied(alloc: Global) -> Result<bool, Memory> {
    let mut state = State::new(alloc, List::new(alloc), List::new(alloc), 1)?;
    state.spawn(List::new(alloc), 3)?;
    let mut copy = state.copy(alloc)?;
    let equal = copy.is(&state, alloc)?;
    copy.spawn(List::new(alloc), 4)?;
    let apart = copy.is(&state, alloc)?;
    state.spawn(List::new(alloc), 4)?;
    Ok(equal && !apart && copy.is(&state, alloc)?)
}

// Whether a state is equal to the same state and to the same state with output, and not to one with one
// more goroutine.
fn compared(alloc: Global) -> Result<bool, Memory> {
    let state = State::new(alloc, List::new(alloc), List::new(alloc), 1)?;
    let mut other = State::new(alloc, List::new(alloc), List::new(alloc), 1)?;
    let equal = state.is(&other, alloc)?;
    other.add_output(b"7\n")?;
    let printed = state.is(&other, alloc)?;
    other.spawn(List::new(alloc), 3)?;
    Ok(equal && printed && !state.is(&other, alloc)?)
}

#[test]
fn a_deferred_call_runs_before_its_frame_is_gone(rt: HostRuntime) -> Result<(), Fail> {
    holds(&rt, deferred_call(rt.alloc())?)
}

#[test]
fn no_goroutine_gets_a_number_again(rt: HostRuntime) -> Result<(), Fail> {
    holds(&rt, started_anew(rt.alloc())?)
}

#[test]
fn states_are_compared_but_for_their_output(rt: HostRuntime) -> Result<(), Fail> {
    holds(&rt, compared(rt.alloc())?)
}

#[test]
fn a_copy_of_a_state_is_equal_and_changes_alone(rt: HostRuntime) -> Result<(), Fail> {
    holds(&rt, copied(rt.alloc())?)
}

#[test]
fn what_was_written_is_cleared(rt: HostRuntime) -> Result<(), Fail> {
    holds(&rt, cleared(rt.alloc())?)
}
