//! Tests of markers: they share the work, and pass their gate once for each place and once more each.

use crate::marking::examples::{
    LIST_BEFORE_FOUR, ONE_ROOT_OF_FOUR, ONE_ROOT_OF_SEVEN, TWO_ROOTS, graph_of, list_of_channels,
    marked_by,
};
use golf_base::{Gate, Memory};
use golf_mark::mark_alone;
use golf_model::Graph;
use golf_tests_support::{CountingGate, MeetingGate, StealingGate};
use std::alloc::Global;
use std::process::Abort;
use std::test::Fail;
use std::thread::Threads;

// How many nodes two markers that pass this gate mark in a graph.
fn marked_by_two<R: Threads + Sync, G: Gate + Sync>(
    rt: &R,
    alloc: Global,
    text: &str,
    gate: &G,
) -> Result<usize, Fail> {
    let graph = graph_of(alloc, text)?;
    let marked = marked_by(rt, alloc, &graph, 2, gate)?;
    Ok(marked.order.len())
}

#[test]
fn two_markers_meet_at_the_gate(rt: HostRuntime) -> Result<(), Fail> {
    let gate = MeetingGate::new();
    let count = marked_by_two(&rt, rt.alloc(), TWO_ROOTS, &gate)?;
    assert!(rt; gate.both_seen() && count == 2);
    Ok(())
}

#[test]
fn a_marker_steals_what_another_one_pushed(rt: HostRuntime) -> Result<(), Fail> {
    let gate = StealingGate::new(1, 1);
    let count = marked_by_two(&rt, rt.alloc(), ONE_ROOT_OF_FOUR, &gate)?;
    assert!(rt; gate.both_seen() && count == 5);
    Ok(())
}

// Marker 0 shares a child in turn 0 and one in turn 4, and marker 1 takes both.
#[test]
fn a_marker_shares_more_than_once(rt: HostRuntime) -> Result<(), Fail> {
    let gate = StealingGate::new(5, 2);
    let count = marked_by_two(&rt, rt.alloc(), ONE_ROOT_OF_SEVEN, &gate)?;
    assert!(rt; gate.both_seen() && count == 8);
    Ok(())
}

// Marker 0 has one place until its turn 3, and shares one of four in turn 4.
#[test]
fn a_marker_shares_in_later_turns_too(rt: HostRuntime) -> Result<(), Fail> {
    let gate = StealingGate::new(5, 1);
    let count = marked_by_two(&rt, rt.alloc(), LIST_BEFORE_FOUR, &gate)?;
    assert!(rt; gate.both_seen() && count == 8);
    Ok(())
}

// How often `count` markers pass the gate, and how many nodes they mark.
fn passes<R: Threads + Sync>(
    rt: &R,
    alloc: Global,
    graph: &Graph,
    count: u32,
) -> Result<(u64, usize), Fail> {
    let gate = CountingGate::new();
    let marked = marked_by(rt, alloc, graph, count, &gate)?;
    Ok((gate.passes(), marked.order.len()))
}

// Fails the test unless in the list of channels 100 nodes are marked, and 50 sleepers, and each marker
// passes the gate once more. Fewer markers would pass it less often.
fn all_pass<R: Abort + Threads + Sync>(rt: &R, alloc: Global, graph: &Graph) -> Result<(), Fail> {
    for count in [1u32, 2, 4, 16].iter() {
        let (passed, marked) = passes(rt, alloc, graph, *count)?;
        let wanted = 150 + u64::from(*count);
        assert!(rt;
            passed == wanted && marked == 100,
            "{count} markers: {passed}, {marked}"
        );
    }
    Ok(())
}

#[test]
fn each_marked_place_is_a_turn_and_each_marker_ends_in_one(rt: HostRuntime) -> Result<(), Fail> {
    let graph = list_of_channels(rt.alloc())?;
    all_pass(&rt, rt.alloc(), &graph)
}

// The sums of the gate of the plain marking.
fn plain_sums(alloc: Global, graph: &Graph) -> Result<(u64, u64, u64), Memory> {
    let gate = CountingGate::new();
    let _ = mark_alone(alloc, graph, &gate)?;
    Ok(gate.sums())
}

// The sums of the gate of one marker.
fn sums_of_one<R: Threads + Sync>(
    rt: &R,
    alloc: Global,
    graph: &Graph,
) -> Result<(u64, u64, u64), Fail> {
    let gate = CountingGate::new();
    let _ = marked_by(rt, alloc, graph, 1, &gate)?;
    Ok(gate.sums())
}

#[test]
fn one_marker_passes_the_gate_as_the_plain_marking_does(rt: HostRuntime) -> Result<(), Fail> {
    let graph = list_of_channels(rt.alloc())?;
    let plain = plain_sums(rt.alloc(), &graph)?;
    let one = sums_of_one(&rt, rt.alloc(), &graph)?;
    assert!(rt; plain == one && one == (151, 0, 11325));
    Ok(())
}
