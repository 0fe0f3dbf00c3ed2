//! Tests of operands of the wrong kind: no rule fits, and the state stays the same.

use crate::places_after_turns::{MAIN, OTHER, after, blocked, holds, stands, take};
use crate::programs::program;
use golf_base::{List, Memory};
use golf_data::{Code, Object, Side, Value, Wait, WaitKind, Waits};
use golf_machine::start;
use golf_state::State;
use std::alloc::Global;
use std::test::Fail;

// Whether a `select` on a number, with a default clause, is stuck.
fn select_on_a_number(alloc: Global) -> Result<bool, Fail> {
    let code = program(alloc, "Int(1); Select(Take 2, default 2); Return", "")?;
    let state = after(alloc, &code, &[(0, 5)])?;
    Ok(stands(&state, MAIN) == Some((1, 1)) && state.ending() == None)
}

#[test]
fn a_select_on_a_number_is_stuck(rt: HostRuntime) -> Result<(), Fail> {
    holds(&rt, select_on_a_number(rt.alloc())?)
}

// The state of a goroutine that waits on a condition without a mutex, which is the global.
fn waiting_without_mutex(alloc: Global, code: &Code) -> Result<State, Memory> {
    let mut state = start(alloc, code)?;
    let object = state.make(Object::Cond(Value::Nil))?;
    state.set_global(0, Value::Ref(object));
    let waiter = state.spawn(List::new(alloc), 1)?;
    let wait = Wait {
        object,
        side: Side::Cond,
        value: Value::Nil,
        target: None,
        with_ok: false,
    };
    state.block(
        waiter,
        WaitKind::Condition,
        1,
        Waits::one(alloc, wait),
        0,
        0,
    )?;
    Ok(state)
}

// Whether a signal to that condition is stuck, and its waiter stays blocked.
fn signal_without_mutex(alloc: Global) -> Result<bool, Fail> {
    let code = program(alloc, "LoadGlobal(0); CondSignal; Return", "")?;
    let mut state = waiting_without_mutex(alloc, &code)?;
    take(alloc, &code, &mut state, 0, 5)?;
    Ok(stands(&state, MAIN) == Some((1, 1)) && blocked(&state, OTHER).is_some())
}

#[test]
fn nobody_is_requeued_to_a_nil_mutex(rt: HostRuntime) -> Result<(), Fail> {
    holds(&rt, signal_without_mutex(rt.alloc())?)
}
