//! Tests that each number of markers has the same marking as one thread alone.

use crate::marking::examples::{
    CHANNEL_STILL_HELD, CLASSIC_LEAK, CYCLE, HELD_MUTEX, NOTHING, ONE_ROOT_OF_FOUR,
    SELECT_ON_ITS_OWN_CHANNEL, SELECT_WITH_ONE_LIVE_CHANNEL, TWO_ROOTS, TWO_ROUNDS,
    WAITS_ON_NOTHING, graph_of, list_of_channels, marked_by,
};
use golf_base::OpenGate;
use golf_mark::mark_alone;
use golf_model::{Graph, Marked};
use golf_tests_support::{Numbers, random_graph};
use std::alloc::Global;
use std::process::Abort;
use std::test::Fail;
use std::thread::Threads;

/// How many pseudo-random graphs are marked.
const GRAPHS: u32 = 200;

fn is_same(one: &Marked, other: &Marked) -> bool {
    one.flags.as_slice() == other.flags.as_slice()
        && one.order.as_slice() == other.order.as_slice()
        && one.awake.as_slice() == other.awake.as_slice()
}

// Whether `count` markers have the same marking as one thread alone.
fn is_marked_by<R: Threads + Sync>(
    rt: &R,
    alloc: Global,
    graph: &Graph,
    count: u32,
    alone: &Marked,
) -> Result<bool, Fail> {
    let marked = marked_by(rt, alloc, graph, count, &OpenGate)?;
    Ok(is_same(alone, &marked))
}

// Whether 1, 2, 3 and 16 markers have the same marking as one thread alone.
fn agree<R: Threads + Sync>(rt: &R, alloc: Global, graph: &Graph) -> Result<bool, Fail> {
    let alone = mark_alone(alloc, graph, &OpenGate)?;
    let mut same = true;
    for count in [1, 2, 3, 16].iter() {
        same &= is_marked_by(rt, alloc, graph, *count, &alone)?;
    }
    Ok(same)
}

// Fails the test unless they agree on each graph of these texts.
fn agree_on<R: Abort + Threads + Sync>(rt: &R, alloc: Global, texts: &[&str]) -> Result<(), Fail> {
    for text in texts {
        let graph = graph_of(alloc, *text)?;
        assert!(rt; agree(rt, alloc, &graph)?, "{text}");
    }
    Ok(())
}

const GRAPHS_BY_HAND: [&str; 4] = [NOTHING, WAITS_ON_NOTHING, TWO_ROOTS, ONE_ROOT_OF_FOUR];

#[test]
fn any_count_of_markers_marks_the_same_in_small_graphs(rt: HostRuntime) -> Result<(), Fail> {
    agree_on(&rt, rt.alloc(), &GRAPHS_BY_HAND)
}

#[test]
fn any_count_of_markers_marks_the_same_in_a_list_of_channels(rt: HostRuntime) -> Result<(), Fail> {
    let graph = list_of_channels(rt.alloc())?;
    assert!(rt; agree(&rt, rt.alloc(), &graph)?);
    Ok(())
}

const PROGRAMS: [&str; 7] = [
    CLASSIC_LEAK,
    CHANNEL_STILL_HELD,
    CYCLE,
    TWO_ROUNDS,
    SELECT_WITH_ONE_LIVE_CHANNEL,
    HELD_MUTEX,
    SELECT_ON_ITS_OWN_CHANNEL,
];

#[test]
fn any_count_of_markers_marks_the_same_in_small_programs(rt: HostRuntime) -> Result<(), Fail> {
    agree_on(&rt, rt.alloc(), &PROGRAMS)
}

// How many of this many pseudo-random graphs have the same marking for each number of markers.
fn count_agreeing<R: Threads + Sync>(rt: &R, alloc: Global, graphs: u32) -> Result<u32, Fail> {
    let mut numbers = Numbers::new(20);
    let mut agreeing = 0u32;
    for _ in 0..graphs {
        let graph = random_graph(alloc, &mut numbers)?;
        if agree(rt, alloc, &graph)? {
            agreeing = agreeing.saturating_add(1);
        }
    }
    Ok(agreeing)
}

#[test]
fn any_count_of_markers_marks_the_same_in_any_graph(rt: HostRuntime) -> Result<(), Fail> {
    assert!(rt; count_agreeing(&rt, rt.alloc(), GRAPHS)? == GRAPHS);
    Ok(())
}
