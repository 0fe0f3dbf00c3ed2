//! Tests of goroutine 0, which runs finalisers. Expected values are from the documentation of package
//! runtime (`SetFinalizer`) and from the rules of this runtime.

use crate::places_after_turns::{FINALISERS, MAIN, after, holds, runnable, take};
use crate::programs::program;
use golf_base::ObjectId;
use golf_state::State;
use std::alloc::Global;
use std::test::Fail;

// The state after this many turns, from a state in which `main` runs for ever and one finaliser, a function
// with these instructions, is queued.
fn finalised(alloc: Global, finaliser: &str, turns: u32) -> Result<State, Fail> {
    let code = program(alloc, "NewStruct(0); Jump(1)", finaliser)?;
    let mut state = after(alloc, &code, &[(0, 2)])?;
    if state.finaliser(ObjectId(1)).is_none() {
        state.set_finaliser(ObjectId(1), 1)?;
    }
    let set = state.finalisers(alloc)?;
    if set.len() == 1 {
        state.queue_finalisers(&[false])?;
    }
    take(alloc, &code, &mut state, 0, turns)?;
    Ok(state)
}

// Whether goroutine 0 is the first goroutine that can run, and has no frame.
fn stands_first(alloc: Global) -> Result<bool, Fail> {
    let state = finalised(alloc, "", 0)?;
    let running = runnable(alloc, &state)?;
    Ok(running.as_slice() == [FINALISERS, MAIN].as_slice() && state.depth(FINALISERS) == 0)
}

// Whether goroutine 0 takes the call in one turn.
fn takes_the_call(alloc: Global) -> Result<bool, Fail> {
    let state = finalised(alloc, "", 1)?;
    Ok(state.depth(FINALISERS) == 1 && state.queue().is_empty())
}

// Whether goroutine 0 prints the object's field, and is still there afterwards.
fn prints_and_stays(alloc: Global) -> Result<bool, Fail> {
    let state = finalised(alloc, "Load(0); Field(0); Print(1); Return", 5)?;
    let running = runnable(alloc, &state)?;
    let goroutines = state.goroutines(alloc)?;
    Ok(
        state.output() == b"0\n".as_slice()
            && running.as_slice() == [MAIN].as_slice()
            && goroutines.as_slice() == [FINALISERS, MAIN].as_slice(),
    )
}

#[test]
fn goroutine_0_is_the_first_that_can_run(rt: HostRuntime) -> Result<(), Fail> {
    let alloc = rt.alloc();
    let runs = stands_first(alloc)? && takes_the_call(alloc)? && prints_and_stays(alloc)?;
    holds(&rt, runs)
}
