//! Measures a run of turns.

ghost use Rattle.std.specs.Prelude.{◌-◌, ◌^◌};
ghost use Rattle.golf_bench_machine.specs.Countdown.{counted_down};

use crate::codes::{Kind, code_of};
use golf_base::{List, Memory};
use golf_data::{Channel, Code, Object, Side, Value, Wait, WaitKind, Waits};
use golf_machine::{Numbers, start, take_turns};
use golf_ring::Ring;
use golf_state::State;
use golf_tests_support::{BenchFault, can_run};
use std::alloc::Global;
use std::rt::Clock;
use std::time::Instant;

// A new unbuffered channel.
fn channel(alloc: Global) -> Object {
    Object::Chan(Channel {
        capacity: 0,
        buffer: Ring::new(alloc),
        closed: false,
        zero: Value::Nil,
    })
}

// Adds a goroutine that is blocked by a receive from its own channel.
fn block_one(alloc: Global, state: &mut State) -> Result<(), Memory> {
    let object = state.make(channel(alloc))?;
    let g = state.spawn(List::new(alloc), 1)?;
    let wait = Wait {
        object,
        side: Side::Receive,
        value: Value::Nil,
        target: None,
        with_ok: false,
    };
    state.block(g, WaitKind::Receive, 1, Waits::one(alloc, wait), 0, 0)
}

// The state before the first turn, with `blocked` goroutines blocked.
fn prepare(alloc: Global, code: &Code, blocked: u32) -> Result<State, Memory> {
    let mut state = start(alloc, code)?;
    for _ in 0..blocked {
        block_one(alloc, &mut state)?;
    }
    Ok(state)
}

// The numbers below this one, from the largest down.
#[derive(Drop)]
struct Countdown {
    left: u64,
}

impl Numbers for Countdown {
    ghost left = { λ c. counted_down c.left };

    ghost given = { λ c. 2 ^ 64 - c.left };

    fn next(&mut self) -> Option<u64> {
        self.left = self.left.checked_sub(1)?;
        Some(self.left)
    }
}

// Takes this many turns.
fn run(alloc: Global, code: &Code, state: &mut State, turns: u64) -> Result<(), Memory> {
    if !can_run(code) {
        return Ok(());
    }
    if state.ending().is_some() {
        return Ok(());
    }
    let mut numbers = Countdown { left: turns };
    take_turns(alloc, code, state, &mut numbers)?;
    Ok(())
}

/// Returns how many microseconds this many turns of a code take, while `blocked` goroutines are blocked
/// elsewhere.
pub(crate) fn time_turns<R: Clock>(
    rt: &R,
    alloc: Global,
    kind: Kind,
    blocked: u32,
    turns: u64,
) -> Result<u128, BenchFault> {
    let code = code_of(alloc, kind)?;
    let mut state = prepare(alloc, &code, blocked)?;
    let begin = Instant::now(rt)?;
    run(alloc, &code, &mut state, turns)?;
    Ok(begin.elapsed(rt)?.as_micros())
}

/// Returns how many goroutines there are after this many turns. Goroutine 0 counts.
pub(crate) fn count_goroutines(alloc: Global, kind: Kind, turns: u64) -> Result<usize, Memory> {
    let code = code_of(alloc, kind)?;
    let mut state = prepare(alloc, &code, 10)?;
    run(alloc, &code, &mut state, turns)?;
    let goroutines = state.goroutines(alloc)?;
    Ok(goroutines.len())
}
