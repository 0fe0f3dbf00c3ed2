//! Measures a collection and its parts.

ghost use Rattle.std.specs.Prelude.{◌≡◌, ◌<◌, ◌≤◌, true, IfOk, IsTrue, Some, slice_get};
ghost use Rattle.std.specs.List.Sorted.{IsNonDecreasingBy};
ghost use Rattle.golf_model.specs.Presence.{IsWhole};
ghost use Rattle.golf_mark.specs.MarkingResult.{MarksLeast};

use crate::pairs::blocked_state;
use golf_base::{GoroutineId, Memory, OpenGate};
use golf_data::Report;
use golf_mark::Markers;
use golf_model::{Graph, Marked};
use golf_reclaim::{CollectOptions, Ledger, collect, find_gone};
use golf_snapshot::{live_graph, outside, retained_graph};
use golf_state::State;
use golf_tests_support::BenchFault;
use std::alloc::Global;
use std::rt::Clock;
use std::thread::Threads;
use std::time::Instant;

/// The microseconds from the start of a collection to the end of each part.
#[derive(Clone, Copy, Debug)]
pub(crate) struct Parts {
    pub(crate) graph: u128,
    pub(crate) marked: u128,
    pub(crate) kept: u128,
    pub(crate) marked_again: u128,
    pub(crate) freed: u128,
}

// Marks a graph.
fn mark<R: Threads + Sync>(
    rt: &R,
    alloc: Global,
    graph: &Graph,
    markers: u32,
) -> Result<Marked, Memory>
    requires some { 0 < markers }
    requires few { markers ≤ 16 }
    ensures { IfOk result (MarksLeast graph.now) }
{
    let ready = Markers::new(alloc, graph, markers)?;
    Ok(ready.mark(rt, graph, &OpenGate))
}

// Whether the first flag is true.
fn is_first_set(flags: &[bool]) -> bool
    ensures { IsTrue result → slice_get flags.now 0 ≡ Some true }
{
    match flags.first() {
        Some(first) => *first,
        None => false,
    }
}

// Whether the numbers of these goroutines rise.
fn are_rising(goroutines: &[GoroutineId]) -> bool
    ensures { IsTrue result → IsNonDecreasingBy (λ g. g.0) goroutines.now }
{
    goroutines.is_sorted()
}

// Removes these goroutines if goroutine 0 is not among them, and frees the objects that are not flagged.
fn free(alloc: Global, state: &mut State, gone: &[GoroutineId], keep: &[bool]) -> Result<(), Memory>
    requires { IsNonDecreasingBy (λ g. g.0) gone.now }
{
    let goroutines = state.goroutines(alloc)?;
    let stays = outside(alloc, goroutines.as_slice(), gone)?;
    let flags = stays.as_slice();
    if is_first_set(flags) {
        state.retain_goroutines(flags);
    }
    if keep.len() == state.heap().count() as usize {
        state.retain_objects(keep);
    }
    Ok(())
}

/// Does the parts of a collection one by one, without a report and a book. Returns the times.
pub(crate) fn time_parts<R: Clock + Threads + Sync>(
    rt: &R,
    alloc: Global,
    state: &mut State,
    options: CollectOptions,
) -> Result<Parts, BenchFault>
    requires whole { IsWhole state.old }
    requires some { 0 < options.markers }
    requires few { options.markers ≤ 16 }
{
    let begin = Instant::now(rt)?;
    let live = live_graph(alloc, state)?;
    let graph = begin.elapsed(rt)?.as_micros();
    let found = mark(rt, alloc, &live, options.markers)?;
    let marked = begin.elapsed(rt)?.as_micros();
    let found = find_gone(alloc, &live, &found, options)?;
    let gone = found.as_slice();
    if !are_rising(gone) {
        return Err(BenchFault::Memory);
    }
    let kept = begin.elapsed(rt)?.as_micros();
    let all = retained_graph(alloc, state, live, gone)?;
    let left = mark(rt, alloc, &all, options.markers)?;
    let marked_again = begin.elapsed(rt)?.as_micros();
    free(alloc, state, gone, left.flags.as_slice())?;
    let freed = begin.elapsed(rt)?.as_micros();
    Ok(Parts {
        graph,
        marked,
        kept,
        marked_again,
        freed,
    })
}

/// Does a whole collection of a state with this many pairs. Returns its report, and how many microseconds
/// it took.
pub(crate) fn time_whole<R: Clock + Threads + Sync>(
    rt: &R,
    alloc: Global,
    pairs: u32,
    options: CollectOptions,
) -> Result<(Report, u128), BenchFault>
    requires some { 0 < options.markers }
    requires few { options.markers ≤ 16 }
{
    let mut state = blocked_state(alloc, pairs)?;
    let mut book = Ledger::new(alloc);
    let begin = Instant::now(rt)?;
    let report = collect(
        rt, alloc, &mut state, &mut book, options, &OpenGate, &OpenGate,
    )?;
    let took = begin.elapsed(rt)?.as_micros();
    Ok((report, took))
}
