//! The retained graph: the live graph with other roots, for a state without some goroutines.
//!
//! Its roots are the nodes that globals, queued finalisers, the goroutines that stay, and objects with a
//! finaliser refer to.

ghost use Rattle.std.specs.Prelude.{◌≡◌, ◌++◌, ◌<◌, ◌^◌, ◌↔◌, IfOk, IsTrue, OnOk, Some, map, not};
ghost use Rattle.std.specs.List.Sorted.{IsNonDecreasingBy};
ghost use Rattle.golf_theory.specs.Maps.{find};
ghost use Rattle.golf_theory.specs.Membership.{is_in};
ghost use Rattle.golf_model.specs.Futures.{Numbered};
ghost use Rattle.golf_model.specs.Graph.{goroutine_at, sleeper_count, sleeper_references};
ghost use Rattle.golf_model.specs.Presence.{IsWhole};
ghost use Rattle.golf_model.specs.Reach.{sources};
ghost use Rattle.golf_model.specs.Refs.{goroutine_refs_where, refs_if};
ghost use Rattle.golf_snapshot.specs.Parts.{ranks, live_parts, retained_parts};
ghost use Rattle.golf_snapshot.specs.Stands.{ReachesAlike};
ghost use Rattle.golf_snapshot.specs.MapEntries.{entry_at, finalised_rows};

use crate::among::is_among;
use crate::goroutines::add_queue;
use crate::references::{add_goroutine, add_values};
use golf_base::{GoroutineId, List, Memory};
use golf_model::Graph;
use golf_state::State;
use std::alloc::Global;

/// Returns the graph whose least closed set is the set of objects that are reached without the goroutines
/// in `gone`, whose numbers rise. It is the live graph with other roots and without sleepers. Each
/// goroutine costs one binary search.
pub fn retained_graph(
    alloc: Global,
    state: &State,
    live: Graph,
    gone: &[GoroutineId],
) -> Result<Graph, Memory>
    requires live { live ≡ live_parts state.now }
    requires whole { IsWhole state.now }
    requires rises { IsNonDecreasingBy (λ g. g.0) gone.now }
    ensures graph { IfOk result (λ graph. graph ≡ retained_parts state.now (map (λ g. g.0) gone.now)) }
    ensures numbered { IfOk result (λ graph. Numbered state.now) }
    ensures reached { IfOk result (λ graph. ReachesAlike graph state.now (map (λ g. g.0) gone.now)) }
{
    let roots = source_nodes(alloc, state, &live, gone)?;
    Ok(live.without_sleepers(alloc, roots))
}

// The roots of a collection after these goroutines are removed.
fn source_nodes(
    alloc: Global,
    state: &State,
    live: &Graph,
    gone: &[GoroutineId],
) -> Result<List<u32>, Memory>
    requires live { live.now ≡ live_parts state.now }
    requires rises { IsNonDecreasingBy (λ g. g.0) gone.now }
    ensures roots { IfOk result (λ roots. roots ≡ ranks state.now.objects (sources state.now (map (λ g. g.0) gone.now))) }
    ensures numbered { IfOk result (λ roots. IsWhole state.now → Numbered state.now) }
{
    let mut roots = List::new(alloc);
    add_values(state.heap(), &mut roots, state.globals())?;
    add_queue(state.heap(), &mut roots, state.queue())?;
    add_others(alloc, state, live, &mut roots, gone)?;
    add_finalised_rows(live, &mut roots)?;
    Ok(roots)
}

// ---- the goroutines that stay

// Adds the nodes of the goroutines that are not in `gone`. The live graph already has the nodes of each
// sleeper.
fn add_others(
    alloc: Global,
    state: &State,
    live: &Graph,
    nodes: &mut List<u32>,
    gone: &[GoroutineId],
) -> Result<(), Memory>
    requires live { live.now ≡ live_parts state.now }
    requires rises { IsNonDecreasingBy (λ g. g.0) gone.now }
    ensures { OnOk result (nodes.new
        ≡ nodes.old ++ ranks state.now.objects (goroutine_refs_where (λ g. not (is_in g (map (λ h. h.0) gone.now))) state.now.goroutines)) }
{
    let mut sleeper = 0;
    let goroutines = state.goroutines(alloc)?;
    for g in goroutines.as_slice() {
        if is_next(live, sleeper, *g) {
            add_sleeper_unless_gone(live, sleeper, nodes, gone, *g)?;
            sleeper += 1;
        } else {
            add_unless_gone(state, nodes, gone, *g)?;
        }
    }
    Ok(())
}

// Whether the next sleeper is this goroutine.
fn is_next(live: &Graph, sleeper: u32, g: GoroutineId) -> bool
    ensures next { IsTrue result ↔ (goroutine_at live.now sleeper ≡ Some g) }
    ensures few { sleeper_count live.now < 2 ^ 32 }
{
    if sleeper >= live.sleepers() {
        return false;
    }
    live.goroutine_of(sleeper).0 == g.0
}

// Adds the nodes of a sleeper, if it is not in `gone`.
fn add_sleeper_unless_gone(
    live: &Graph,
    sleeper: u32,
    nodes: &mut List<u32>,
    gone: &[GoroutineId],
    g: GoroutineId,
) -> Result<(), Memory>
    requires within { sleeper < sleeper_count live.now }
    requires rises { IsNonDecreasingBy (λ g. g.0) gone.now }
    ensures { OnOk result (nodes.new ≡ nodes.old ++ refs_if (not (is_in g.0 (map (λ h. h.0) gone.now))) (sleeper_references live.now sleeper)) }
{
    if !is_among(g, gone) {
        nodes.extend_from_slice(live.references(sleeper))?;
    }
    Ok(())
}

// Adds the nodes of the goroutine of this number, if it is not in `gone`.
fn add_unless_gone(
    state: &State,
    nodes: &mut List<u32>,
    gone: &[GoroutineId],
    g: GoroutineId,
) -> Result<(), Memory>
    requires { IsNonDecreasingBy (λ g. g.0) gone.now }
    ensures { OnOk result (nodes.new
        ≡ nodes.old ++ ranks state.now.objects (goroutine_refs_where (λ h. not (is_in h (map (λ k. k.0) gone.now))) (entry_at g.0 (find g.0 state.now.goroutines)))) }
{
    match state.goroutine(g) {
        Some(goroutine) => {
            if !is_among(g, gone) {
                add_goroutine(state.heap(), nodes, goroutine)?;
            }
            Ok(())
        }
        None => Ok(()),
    }
}

// ---- the objects with a finaliser

// Adds the nodes that objects with a finaliser refer to.
fn add_finalised_rows(graph: &Graph, nodes: &mut List<u32>) -> Result<(), Memory>
    ensures { OnOk result (nodes.new ≡ nodes.old ++ finalised_rows graph.now.finalised graph.now.children) }
{
    for node in 0..graph.nodes() {
        if graph.finalised(node) {
            nodes.extend_from_slice(graph.children(node))?;
        }
    }
    Ok(())
}
