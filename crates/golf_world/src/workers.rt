//! Runs a program by several threads that step it.
//!
//! Each worker steps until the program has ended or the history is full.

ghost use Rattle.std.specs.Prelude.{◌≡◌, ◌<◌, ◌≤◌, IfOk, IsTrue, None, length};
ghost use Rattle.std.specs.Thread.{IsSync};
ghost use Rattle.golf_data.specs.Places.{HasPlaces};
ghost use Rattle.golf_model.specs.State.{ending as ending_of, start as start_of};
ghost use Rattle.golf_world.specs.History.{most_entries};
ghost use Rattle.golf_world.specs.Names.{table_name, pass_count};
ghost use Rattle.golf_world.specs.Runs.{IsWholeRun};

use crate::history::{History, HistoryEntry, MOST_ENTRIES, Stepped};
use crate::pass::StepPass;
use crate::rule::WorldName;
use crate::table::WorldTable;
use crate::world::World;
use golf_base::{Gate, Memory};
use golf_data::Code;
use golf_machine::start;
use golf_state::State;
use std::alloc::Global;
use std::marker::Brand;
use std::sync::Wait;
use std::thread::{Threads, join_mut};

// Steps until a step is not a turn. Before each step it passes the gate, outside the lock, with the number
// of the pass and the number of its turn, counted from 0.
fn work<W: WorldName, R: Threads + Wait + Sync, G: Gate>(
    rt: &R,
    alloc: Global,
    world: &World<'_, W>,
    gate: &G,
    pass: &mut StepPass<W>,
) {
    let number = pass.number();
    let mut turn = 0u64;
    for _ in rt.forever() {
        gate.pass(number, turn);
        match world.step(rt, alloc, pass) {
            Ok(Stepped::Turned { .. }) => turn = turn.wrapping_add(1),
            Ok(Stepped::Ended(_) | Stepped::Spent) | Err(_) => return,
        }
    }
}

// Runs the workers, each in its own thread.
fn work_all<W: WorldName + Send + Sync, R: Threads + Wait + Sync, G: Gate + Sync>(
    rt: &R,
    alloc: Global,
    world: &World<'_, W>,
    gate: &G,
    passes: &mut [StepPass<W>],
) {
    if passes.is_empty() {
        return;
    }
    if passes.len() == 1 {
        work(rt, alloc, world, gate, &mut passes[0]);
        return;
    }
    let half = passes.len() / 2;
    let (left, right) = passes.split_at_mut(half);
    join_mut(
        rt,
        &mut ||
            requires { IsSync R.row }
        { work_all(rt, alloc, world, gate, left) },
        &mut ||
            requires { IsSync R.row }
        { work_all(rt, alloc, world, gate, right) },
    );
}

/// Runs the program by as many threads as the table has passes, in the world that `W` names. It runs until
/// the program has ended or has taken `MOST_ENTRIES` turns. A worker without memory stops, and the others
/// go on. If the program then reaches neither end, the error is `Memory`.
pub fn run_world<W: WorldName + Send + Sync, R: Threads + Wait + Sync, G: Gate + Sync>(
    rt: &R,
    alloc: Global,
    table: WorldTable,
    code: &Code,
    state: State,
    gate: &G,
) -> Result<(State, History), Memory>
    requires table { table_name table ≡ W.table }
    requires passes { pass_count table ≡ W.passes }
    requires code { code.now ≡ W.code }
    requires places { HasPlaces code.now }
    requires state { state ≡ start_of code.now }
    ensures { IfOk result (λ r. IsWholeRun code.now (pass_count table) r.0 r.1) }
{
    let (world, mut passes) = World::<W>::new(alloc, table, code, state)?;
    work_all(rt, alloc, &world, gate, passes.as_mut_slice());
    let (state, history) = world.close(passes);
    if is_done(&state, history.entries.as_slice()) {
        Ok((state, history))
    } else {
        Err(Memory)
    }
}

// Whether the program has ended, or the history is full.
fn is_done(state: &State, entries: &[HistoryEntry]) -> bool
    ensures { IsTrue result → ending_of state.now ≡ None → most_entries ≤ length entries.now }
{
    match state.ending() {
        Some(_) => true,
        None => entries.len() >= MOST_ENTRIES,
    }
}

/// Runs the program from its start by `passes` threads, 1 to 16, until it has ended or has taken
/// `MOST_ENTRIES` turns. Each thread passes the gate before each of its steps. If a thread cannot be made,
/// another one takes its steps.
pub fn run_threads<R: Threads + Wait + Sync, G: Gate + Sync>(
    rt: &R,
    alloc: Global,
    code: &Code,
    passes: u32,
    gate: &G,
) -> Result<(State, History), Memory>
    requires some { 0 < passes }
    requires few { passes ≤ 16 }
    requires places { HasPlaces code.now }
    ensures { IfOk result (λ r. IsWholeRun code.now passes r.0 r.1) }
{
    let table = WorldTable::new(alloc, passes)?;
    let state = start(alloc, code)?;
    run_world::<Brand, R, G>(rt, alloc, table, code, state, gate)
}
