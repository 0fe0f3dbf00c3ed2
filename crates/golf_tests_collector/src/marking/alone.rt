//! Tests of the marking in one thread: the marked places, and how often it passes its gate.

use crate::marking::examples::{NOTHING, SELECT_WITH_ONE_LIVE_CHANNEL, TWO_ROUNDS, graph_of};
use golf_base::OpenGate;
use golf_mark::mark_alone;
use golf_model::Marked;
use golf_tests_support::CountingGate;
use std::alloc::Global;
use std::process::Abort;
use std::test::Fail;

// Writes a 1 for each flag that is set, and a 0 for each other flag.
fn push_flags(out: &mut String, flags: &[bool]) -> Result<(), Fail> {
    for flag in flags {
        out.push(if *flag { '1' } else { '0' })?;
    }
    Ok(())
}

fn push_node(out: &mut String, node: u32) -> Result<(), Fail> {
    write!(out, " {node}")?;
    Ok(())
}

// The marking as a text: the flags of the nodes, the flags of the sleepers, and the marked nodes in their
// order.
fn told(alloc: Global, marked: &Marked) -> Result<String, Fail> {
    let mut out = String::new(alloc);
    push_flags(&mut out, marked.flags.as_slice())?;
    out.push(' ')?;
    push_flags(&mut out, marked.awake.as_slice())?;
    for node in marked.order.as_slice() {
        push_node(&mut out, *node)?;
    }
    Ok(out)
}

// The marking of the graph of a text, as a text.
fn marking(alloc: Global, text: &str) -> Result<String, Fail> {
    let graph = graph_of(alloc, text)?;
    let marked = mark_alone(alloc, &graph, &OpenGate)?;
    told(alloc, &marked)
}

// Fails the test unless the marking of the graph has this text.
fn marks(rt: &impl Abort, alloc: Global, text: &str, expected: &str) -> Result<(), Fail> {
    let told = marking(alloc, text)?;
    assert!(rt; told.as_str() == expected, "{told}");
    Ok(())
}

#[test]
fn what_an_awakened_sleeper_refers_to_awakens_the_next_one(rt: HostRuntime) -> Result<(), Fail> {
    marks(&rt, rt.alloc(), TWO_ROUNDS, "111110 110 0 1 2 3 4")
}

#[test]
fn a_select_is_awakened_by_one_of_its_objects(rt: HostRuntime) -> Result<(), Fail> {
    let expected = "1111 10 0 1 2 3";
    marks(&rt, rt.alloc(), SELECT_WITH_ONE_LIVE_CHANNEL, expected)
}

// How often the gate of a marking is passed, the sum of the markers' numbers, and the sum of the turns.
fn sums(alloc: Global, text: &str) -> Result<(u64, u64, u64), Fail> {
    let graph = graph_of(alloc, text)?;
    let gate = CountingGate::new();
    let _ = mark_alone(alloc, &graph, &gate)?;
    Ok(gate.sums())
}

#[test]
fn the_gate_is_passed_before_each_turn_and_the_last_one(rt: HostRuntime) -> Result<(), Fail> {
    // Five nodes and two sleepers are marked: turns 0 to 7.
    assert!(rt; sums(rt.alloc(), TWO_ROUNDS)? == (8, 0, 28));
    Ok(())
}

#[test]
fn nothing_is_marked_in_a_graph_without_places(rt: HostRuntime) -> Result<(), Fail> {
    assert!(rt; sums(rt.alloc(), NOTHING)? == (1, 0, 0));
    Ok(())
}
