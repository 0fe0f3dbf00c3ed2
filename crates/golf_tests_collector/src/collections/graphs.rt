//! Tests of the graphs of a state.

ghost use Rattle.std.specs.List.Sorted.{IsNonDecreasingBy};

use crate::collections::states::stuck_state;
use golf_base::{GoroutineId, Memory};
use golf_model::Graph;
use golf_snapshot::{live_graph, retained_graph};
use std::alloc::Global;
use std::test::Fail;

// Whether goroutine 2 is the only sleeper, and waits on and refers to the only node, which is no root.
fn is_stuck(graph: &Graph) -> bool {
    if graph.nodes() != 1 || graph.sleepers() != 1 || !graph.roots().is_empty() {
        return false;
    }
    graph.goroutine_of(0) == GoroutineId(2)
        && graph.waits(0) == [0].as_slice()
        && graph.references(0) == [0].as_slice()
}

#[test]
fn a_stuck_goroutine_is_a_sleeper(rt: HostRuntime) -> Result<(), Fail> {
    let state = stuck_state(rt.alloc())?;
    let graph = live_graph(rt.alloc(), &state)?;
    assert!(rt; is_stuck(&graph));
    Ok(())
}

// The graph of what a collection retains in that state, except for the references of these goroutines.
fn retained(alloc: Global, removed: &[GoroutineId]) -> Result<Graph, Memory>
    requires { IsNonDecreasingBy (λ g. g.0) removed.now }
{
    let state = stuck_state(alloc)?;
    let live = live_graph(alloc, &state)?;
    retained_graph(alloc, &state, live, removed)
}

// Whether the only node is a root, and there is no sleeper.
fn is_held(graph: &Graph) -> bool {
    graph.sleepers() == 0 && graph.roots() == [0].as_slice()
}

// Whether there is one node, and no root.
fn is_free(graph: &Graph) -> bool {
    graph.nodes() == 1 && graph.roots().is_empty()
}

#[test]
fn what_a_removed_goroutine_refers_to_is_no_source(rt: HostRuntime) -> Result<(), Fail> {
    let all = retained(rt.alloc(), &[])?;
    let others = retained(rt.alloc(), &[GoroutineId(2)])?;
    assert!(rt; is_held(&all) && is_free(&others));
    Ok(())
}
