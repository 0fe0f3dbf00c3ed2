//! Tests of turns for which memory is refused: the state is unchanged, and the turn can be taken again.
//!
//! `rt try --test --fail-alloc N` refuses memory, for each N. A test that is hit while it makes its code
//! runs out of memory, and the others pass.

use crate::places_after_turns::{HowBlocked, MAIN, blocked, holds, stands};
use crate::programs::program;
use golf_base::{Memory, ObjectId};
use golf_data::{Code, Ending, Side};
use golf_machine::start;
use golf_state::State;
use golf_tests_support::{count_goroutines, take_turn};
use std::alloc::Global;
use std::test::Fail;

// The parts of a state that a test compares.
#[derive(Clone, Copy, PartialEq, Eq)]
struct Seen {
    running: usize,
    goroutines: usize,
    depth: usize,
    stands: Option<(u32, usize)>,
    blocked: Option<HowBlocked>,
    receives: bool,
    sends: bool,
    objects: u32,
    printed: usize,
}

fn see(state: &State) -> Seen {
    Seen {
        running: state.runnable_count(),
        goroutines: count_goroutines(state),
        depth: state.depth(MAIN),
        stands: stands(state, MAIN),
        blocked: blocked(state, MAIN),
        receives: state.first_waiter(ObjectId(1), Side::Receive).is_some(),
        sends: state.first_waiter(ObjectId(2), Side::Send).is_some(),
        objects: state.heap().count(),
        printed: state.output().len(),
    }
}

// Takes a turn, and takes it again if memory was refused. Returns whether the refused turn left the state
// unchanged.
fn persist(alloc: Global, code: &Code, state: &mut State) -> Result<bool, Memory> {
    let before = see(state);
    match take_turn(alloc, code, state, 0) {
        Ok(_) => Ok(true),
        Err(_) => {
            let same = see(state) == before;
            take_turn(alloc, code, state, 0)?;
            Ok(same)
        }
    }
}

// Takes `count` turns of the first goroutine that can run. Returns whether each refused turn left the state
// unchanged.
fn persist_all(alloc: Global, code: &Code, state: &mut State, count: u32) -> Result<bool, Memory> {
    let mut same = true;
    for _ in 0..count {
        same &= persist(alloc, code, state)?;
    }
    Ok(same)
}

// Whether a `select` that blocks has the right effect, or none if memory is refused.
fn select_persists(alloc: Global) -> Result<bool, Fail> {
    let main = "
        Int(0); NewChan(Int(0)); Store(0); Int(0); NewChan(Int(0)); Store(1); Load(0); Load(1); Int(5);
        Select(Take 10, Send 10); Return";
    let code = program(alloc, main, "")?;
    let mut state = start(alloc, &code)?;
    let same = persist_all(alloc, &code, &mut state, 10)?;
    let seen = see(&state);
    Ok(
        same && seen.blocked.is_some()
            && seen.receives
            && seen.sends
            && state.ending() == Some(Ending::Asleep),
    )
}

#[test]
fn a_select_that_blocks_is_refused_memory(rt: HostRuntime) -> Result<(), Fail> {
    holds(&rt, select_persists(rt.alloc())?)
}

// Whether calls, plain, deferred and as goroutines, have the right effect, or none if memory is refused.
fn calls_persist(alloc: Global) -> Result<bool, Fail> {
    let main = "
        Int(7); Call(1, 1); Print(1); Int(8); Defer(1, 1); Int(9); Go(1, 1); Return";
    let code = program(alloc, main, "Load(0); ReturnValue")?;
    let mut state = start(alloc, &code)?;
    let same = persist_all(alloc, &code, &mut state, 16)?;
    Ok(same && state.output() == b"7\n".as_slice() && state.ending() == Some(Ending::Returned))
}

#[test]
fn a_call_is_refused_memory(rt: HostRuntime) -> Result<(), Fail> {
    holds(&rt, calls_persist(rt.alloc())?)
}
