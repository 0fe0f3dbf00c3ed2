//! The two markings of a collection: of the live places, and of the places that stay.

ghost use Rattle.std.specs.Prelude.{◌≡◌, ◌<◌, ◌≤◌, ◌^◌, IfOk, length, map};
ghost use Rattle.std.specs.List.Sorted.{IsNonDecreasingBy};
ghost use Rattle.golf_model.specs.Futures.{Numbered};
ghost use Rattle.golf_model.specs.Graph.{node_count, sleeper_count};
ghost use Rattle.golf_model.specs.LiveSet.{dead, live_objects};
ghost use Rattle.golf_model.specs.Collections.{removed, retained};
ghost use Rattle.golf_model.specs.Presence.{IsWhole};
ghost use Rattle.golf_model.specs.Reports.{numbers, retained_objects};
ghost use Rattle.golf_theory.specs.Flags.{left_out};
ghost use Rattle.golf_snapshot.specs.Parts.{live_parts, retained_parts};
ghost use Rattle.golf_mark.specs.MarkingResult.{MarksLeast};
ghost use Rattle.golf_theory.specs.Membership.{is_in};
ghost use Rattle.golf_reclaim.specs.Flags.{count_set, either, IsUnkept};

use crate::collection::CollectOptions;
use golf_base::{Gate, GoroutineId, List, Memory};
use golf_final::keeps;
use golf_mark::Markers;
use golf_model::{Graph, Marked};
use golf_snapshot::{live_graph, retained_graph};
use golf_state::State;
use std::alloc::Global;
use std::thread::Threads;

/// The result of the first marking.
#[derive(Drop)]
pub(crate) struct Found {
    /// The graph that was marked.
    pub(crate) live: Graph,
    /// How many objects are live.
    pub(crate) objects: u32,
    /// The dead goroutines, in rising order of number.
    pub(crate) dead: List<GoroutineId>,
    /// The dead goroutines that are removed.
    pub(crate) gone: List<GoroutineId>,
}

/// The result of the second marking.
#[derive(Drop)]
pub(crate) struct Rest {
    pub(crate) marked: Marked,
    /// For each object whether it stays.
    pub(crate) keep: List<bool>,
    /// How many objects stay.
    pub(crate) objects: u32,
}

// Marks a graph by `markers` markers.
fn mark<R: Threads + Sync, G: Gate + Sync>(
    rt: &R,
    alloc: Global,
    graph: &Graph,
    markers: u32,
    gate: &G,
) -> Result<Marked, Memory>
    requires some { 0 < markers }
    requires few { markers ≤ 16 }
    ensures { IfOk result (MarksLeast graph.now) }
{
    let ready = Markers::new(alloc, graph, markers)?;
    Ok(ready.mark(rt, graph, gate))
}

/// Marks the live graph. Counts the live objects, and lists the dead goroutines and those that are removed.
pub(crate) fn find_dead<R: Threads + Sync, G: Gate + Sync>(
    rt: &R,
    alloc: Global,
    state: &State,
    options: CollectOptions,
    gate: &G,
) -> Result<Found, Memory>
    requires whole { IsWhole state.now }
    requires some { 0 < options.markers }
    requires few { options.markers ≤ 16 }
    ensures live { IfOk result (λ found. found.live ≡ live_parts state.now) }
    ensures objects { IfOk result (λ found. found.objects ≡ length (live_objects state.now)) }
    ensures dead { IfOk result (λ found. numbers found.dead ≡ dead state.now) }
    ensures gone { IfOk result (λ found. numbers found.gone ≡ removed state.now options.recover options.sets_finalisers) }
    ensures rises { IfOk result (λ found. IsNonDecreasingBy (λ g. g.0) found.gone) }
    ensures fewer { IfOk result (λ found. length found.gone ≤ length found.dead) }
    ensures few { IfOk result (λ found. length found.dead < 2 ^ 32) }
    ensures numbered { IfOk result (λ found. Numbered state.now) }
{
    let live = live_graph(alloc, state)?;
    let marked = mark(rt, alloc, &live, options.markers, gate)?;
    let objects = count_set(&live, marked.flags.as_slice());
    let dead = unflagged(alloc, &live, marked.awake.as_slice())?;
    let gone = find_gone(alloc, &live, &marked, options)?;
    Ok(Found {
        live,
        objects,
        dead,
        gone,
    })
}

/// Returns the goroutines that are removed, by the marking of the live graph: with recovery those that are
/// neither awake nor kept, and else none.
pub fn find_gone(
    alloc: Global,
    graph: &Graph,
    marked: &Marked,
    options: CollectOptions,
) -> Result<List<GoroutineId>, Memory>
    requires { MarksLeast graph.now marked.now }
    ensures { IfOk result (IsUnkept options.recover options.sets_finalisers graph.now marked.now) }
{
    if !options.recover {
        return Ok(List::new(alloc));
    }
    let kept = keeps(alloc, graph, marked, options.sets_finalisers)?;
    let stays = either(alloc, marked.awake.as_slice(), kept.as_slice())?;
    unflagged(alloc, graph, stays.as_slice())
}

/// Marks the graph without the goroutines in `gone`, whose numbers rise, and finds the objects that stay.
pub(crate) fn find_retained<R: Threads + Sync, G: Gate + Sync>(
    rt: &R,
    alloc: Global,
    state: &State,
    live: Graph,
    gone: &[GoroutineId],
    markers: u32,
    gate: &G,
) -> Result<Rest, Memory>
    requires live { live ≡ live_parts state.now }
    requires whole { IsWhole state.now }
    requires rises { IsNonDecreasingBy (λ g. g.0) gone.now }
    requires some { 0 < markers }
    requires few { markers ≤ 16 }
    ensures marked { IfOk result (λ rest. MarksLeast (retained_parts state.now (numbers gone.now)) rest.marked) }
    ensures keep { IfOk result (λ rest. rest.keep ≡ map (λ e. is_in e.0 (retained state.now (numbers gone.now))) state.now.objects) }
    ensures objects { IfOk result (λ rest. rest.objects ≡ length (retained_objects state.now (numbers gone.now))) }
{
    let graph = retained_graph(alloc, state, live, gone)?;
    let marked = mark(rt, alloc, &graph, markers, gate)?;
    let keep = retained(alloc, &graph, marked.flags.as_slice())?;
    let objects = count_set(&graph, keep.as_slice());
    Ok(Rest {
        marked,
        keep,
        objects,
    })
}

// The goroutines of the sleepers whose flag is false.
fn unflagged(alloc: Global, graph: &Graph, flags: &[bool]) -> Result<List<GoroutineId>, Memory>
    requires { length flags.now ≡ sleeper_count graph.now }
    ensures goroutines { IfOk result (λ goroutines. goroutines ≡ left_out flags.now (map (λ x. x.goroutine) graph.now.sleepers)) }
    ensures few { IfOk result (λ goroutines. length goroutines < 2 ^ 32) }
{
    let mut goroutines = List::new(alloc);
    for sleeper in 0..graph.sleepers() {
        if !flags[sleeper as usize] {
            goroutines.push(graph.goroutine_of(sleeper))?;
        }
    }
    Ok(goroutines)
}

// For each place whether one of the two flags is true.
fn either(alloc: Global, flags: &[bool], others: &[bool]) -> Result<List<bool>, Memory>
    requires { length flags.now ≡ length others.now }
    ensures flags { IfOk result (λ both. both ≡ either flags.now others.now) }
    ensures length { IfOk result (λ both. length both ≡ length flags.now) }
{
    let mut both = List::new(alloc);
    for at in 0..flags.len() {
        both.push(flags[at] | others[at])?;
    }
    Ok(both)
}

// For each node whether it is marked or has a finaliser.
fn retained(alloc: Global, graph: &Graph, marked: &[bool]) -> Result<List<bool>, Memory>
    requires { length marked.now ≡ node_count graph.now }
    ensures flags { IfOk result (λ keep. keep ≡ either marked.now graph.now.finalised) }
    ensures length { IfOk result (λ keep. length keep ≡ node_count graph.now) }
{
    let mut keep = List::new(alloc);
    for node in 0..graph.nodes() {
        keep.push(marked[node as usize] | graph.finalised(node))?;
    }
    Ok(keep)
}

// How many nodes have a true flag.
#[tactic(auto, using(crate::proofs::Flags::one_more))]
fn count_set(graph: &Graph, flags: &[bool]) -> u32
    requires { length flags.now ≡ node_count graph.now }
    ensures { result ≡ count_set flags.now }
{
    let mut count = 0;
    for node in 0..graph.nodes() {
        if flags[node as usize] {
            count += 1;
        }
    }
    count
}
