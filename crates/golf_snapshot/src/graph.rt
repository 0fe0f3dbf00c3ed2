//! The live graph of a state.
//!
//! A node is an object. A root is a node that a running goroutine, goroutine 0, a global, a queued
//! finaliser or an object with a finaliser refers to.

ghost use Rattle.std.specs.Prelude.{◌≡◌, ◌+◌, ◌<◌, ◌^◌, [], IfOk, length, map};
ghost use Rattle.golf_model.specs.Presence.{IsWhole};
ghost use Rattle.golf_model.specs.Futures.{Numbered};
ghost use Rattle.golf_snapshot.specs.Parts.{ranks, live_roots, sleeping, sleeper_of, parts_of, live_parts};
ghost use Rattle.golf_snapshot.specs.Stands.{LivesAlike};

use crate::goroutines::{add_awake, add_queue};
use crate::nodes::{add_finalised, children, finalised, numbers};
use crate::references::add_values;
use golf_base::{List, Memory};
use golf_model::{Graph, GraphParts, Sleepers};
use golf_state::State;
use std::alloc::Global;

/// Returns the graph whose least closed set is the live set. It has a node for each object, by its rank. It
/// has a sleeper for each blocked goroutine except for goroutine 0, in rising order of number.
///
/// The error is `Memory`, also if nodes and sleepers together are too many for a `u32`.
pub fn live_graph(alloc: Global, state: &State) -> Result<Graph, Memory>
    requires { IsWhole state.now }
    ensures graph { IfOk result (λ graph. graph ≡ live_parts state.now) }
    ensures lives { IfOk result (λ graph. LivesAlike graph state.now) }
    ensures numbered { IfOk result (λ graph. Numbered state.now) }
{
    let (roots, sleepers) = live_places(alloc, state)?;
    let parts = parts_of(alloc, state, roots, sleepers)?;
    Ok(Graph::new(parts))
}

// The roots, and the sleepers.
fn live_places(alloc: Global, state: &State) -> Result<(List<u32>, Sleepers), Memory>
    ensures roots { IfOk result (λ places. places.0 ≡ ranks state.now.objects (live_roots state.now)) }
    ensures sleepers { IfOk result (λ places. places.1 ≡ map (sleeper_of state.now.objects) (sleeping state.now)) }
{
    let mut roots = List::new(alloc);
    add_values(state.heap(), &mut roots, state.globals())?;
    add_queue(state.heap(), &mut roots, state.queue())?;
    let sleepers = add_awake(alloc, state, &mut roots)?;
    add_finalised(state, &mut roots)?;
    Ok((roots, sleepers))
}

// The nodes of a state, with these roots and sleepers.
fn parts_of(
    alloc: Global,
    state: &State,
    roots: List<u32>,
    sleepers: Sleepers,
) -> Result<GraphParts, Memory>
    ensures parts { IfOk result (λ parts. parts ≡ record (parts_of state.now [] sleepers) { roots = roots }) }
    ensures few { IfOk result (λ parts. length state.now.objects + length sleepers < 2 ^ 32) }
    ensures numbered { IfOk result (λ parts. IsWhole state.now → Numbered state.now) }
{
    let heap = state.heap();
    if sleepers.len() > (u32::MAX - heap.count()) as usize {
        return Err(Memory);
    }
    Ok(GraphParts {
        numbers: numbers(alloc, heap)?,
        children: children(alloc, heap)?,
        finalised: finalised(alloc, state)?,
        roots,
        sleepers,
    })
}
