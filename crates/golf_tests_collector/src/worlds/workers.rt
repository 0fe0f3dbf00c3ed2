//! Tests of programs that several threads step.

use crate::codes::{endless, leak, printers};
use crate::worlds::plain::plain_state;
use golf_base::{Gate, OpenGate};
use golf_data::Code;
use golf_state::State;
use golf_tests_support::{MeetingGate, can_run};
use golf_world::{History, run_threads};
use std::alloc::Global;
use std::sync::Wait;
use std::test::Fail;
use std::thread::Threads;

// A run of the code by this many threads, 1 to 16.
fn run<R: Threads + Wait + Sync, G: Gate + Sync>(
    rt: &R,
    alloc: Global,
    code: Code,
    passes: u32,
    gate: &G,
) -> Result<(State, History), Fail> {
    if !can_run(&code) || passes == 0 || passes > 16 {
        return Err("the code has too many places, or nobody steps it")?;
    }
    Ok(run_threads(rt, alloc, &code, passes, gate)?)
}

#[test]
fn two_workers_run_at_the_same_time(rt: HostRuntime) -> Result<(), Fail> {
    let gate = MeetingGate::new();
    let (state, history) = run(&rt, rt.alloc(), leak(rt.alloc())?, 2, &gate)?;
    let ran = state.ending().is_some() && history.entries.len() > 0;
    assert!(rt; ran && gate.both_seen());
    Ok(())
}

// Whether two states have the same output and ending.
fn is_same(one: &State, other: &State) -> bool {
    one.output() == other.output() && one.ending() == other.ending()
}

// Whether the printers, run by four threads, print what the plain machine prints in the same turns, and
// collect once.
fn prints_the_same<R: Threads + Wait + Sync>(rt: &R, alloc: Global) -> Result<bool, Fail> {
    let (state, history) = run(rt, alloc, printers(alloc)?, 4, &OpenGate)?;
    let entries = history.entries.as_slice();
    let plain = plain_state(alloc, &printers(alloc)?, entries)?;
    let passes = entries.iter().all(|entry| entry.pass < 4);
    Ok(is_same(&state, &plain) && passes && history.reports.len() == 1)
}

#[test]
fn four_workers_print_what_the_same_turns_print(rt: HostRuntime) -> Result<(), Fail> {
    assert!(rt; prints_the_same(&rt, rt.alloc())?);
    Ok(())
}

#[test]
fn a_program_without_an_end_has_all_turns(rt: HostRuntime) -> Result<(), Fail> {
    let (state, history) = run(&rt, rt.alloc(), endless(rt.alloc())?, 1, &OpenGate)?;
    assert!(rt; state.ending().is_none() && history.entries.len() == 100_000);
    Ok(())
}
