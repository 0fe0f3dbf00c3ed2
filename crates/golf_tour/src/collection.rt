//! The first collection of a run: its state, the graph of the state, and the marks.

ghost use Rattle.std.specs.Prelude.{IfOk};
ghost use Rattle.golf_model.specs.Futures.{Leads};
ghost use Rattle.golf_model.specs.Presence.{IsWhole};

use crate::page::Page;
use golf_base::{GoroutineId, Memory, ObjectId, OpenGate};
use golf_data::{Code, Goroutine, Mode, Object};
use golf_machine::{Turned, start};
use golf_mark::Markers;
use golf_model::{Graph, Marked};
use golf_snapshot::live_graph;
use golf_state::State;
use golf_tests_support::take_turn;
use std::alloc::Global;
use std::thread::Threads;

/// The most turns of the run.
const MOST_TURNS: u64 = 100_000;

// Whether the machine goes on to the next turn.
fn goes_on(turned: Option<Turned>) -> bool {
    matches!(turned, Some(Turned::Went))
}

// The state at the first collection of a run in rotation, or at its end if it has no collection.
fn lead(alloc: Global, code: &Code) -> Result<State, Memory>
    ensures { IfOk result (Leads code.now) }
{
    let mut state = start(alloc, code)?;
    for number in 0..MOST_TURNS {
        if !goes_on(take_turn(alloc, code, &mut state, number)?) {
            return Ok(state);
        }
    }
    Ok(state)
}

/// Returns the state at the first collection of a run in rotation, or at its end if it has no collection.
pub(crate) fn collected_state(alloc: Global, code: &Code) -> Result<State, Memory>
    ensures { IfOk result IsWhole }
{
    let state = lead(alloc, code)?;
    Ok(state)
}

// Tells an object; of a channel its buffer by the items alone.
fn tell_object(page: &mut Page, object: &Object) {
    match object {
        Object::Chan(channel) => {
            let (first, second) = channel.buffer.as_slices();
            page.say("Chan of capacity ");
            page.show(&channel.capacity);
            page.say(", buffer ");
            page.show(&first);
            page.show(&second);
            page.say(", closed ");
            page.show(&channel.closed);
            page.say(", zero ");
            page.show(&channel.zero);
        }
        other => page.show(other),
    }
}

// Tells how a goroutine runs or waits.
fn tell_mode(page: &mut Page, mode: &Mode) {
    match mode {
        Mode::Running => page.say("Running"),
        Mode::Blocked {
            kind,
            line,
            waits,
            ticket,
        } => {
            page.say("Blocked by ");
            page.show(kind);
            page.say(" at line ");
            page.show(line);
            page.say(", ticket ");
            page.show(ticket);
            page.say(", waits ");
            page.show(&waits.as_slice());
        }
    }
}

// Tells a goroutine: how it runs or waits, and its frames.
fn tell_goroutine(page: &mut Page, number: GoroutineId, goroutine: &Goroutine) {
    page.say("goroutine ");
    page.show(&number.0);
    page.say(": ");
    tell_mode(page, &goroutine.mode);
    page.say("\n");
    for frame in goroutine.frames.as_slice() {
        page.say("  function ");
        page.show(&frame.function);
        page.say(" at ");
        page.show(&frame.at);
        page.say(", slots ");
        page.show(&frame.values.slots());
        page.say(", operands ");
        page.show(&frame.values.operands());
        page.say("\n");
    }
}

/// Tells the objects and goroutines of a state.
pub(crate) fn tell_state(alloc: Global, page: &mut Page, state: &State) -> Result<(), Memory> {
    for rank in 0..state.heap().last() {
        let number = rank.saturating_add(1);
        match state.heap().get(ObjectId(number)) {
            None => {}
            Some(object) => {
                page.say("object ");
                page.show(&number);
                page.say(": ");
                tell_object(page, object);
                page.say("\n");
            }
        }
    }
    let numbers = state.goroutines(alloc)?;
    for number in numbers.as_slice() {
        match state.goroutine(*number) {
            None => {}
            Some(goroutine) => tell_goroutine(page, *number, goroutine),
        }
    }
    Ok(())
}

/// Returns the graph that a collection of the state marks.
pub(crate) fn graph_of(alloc: Global, state: &State) -> Result<Graph, Memory>
    requires { IsWhole state.now }
{
    let graph = live_graph(alloc, state)?;
    Ok(graph)
}

/// Tells the places of a graph: each node with its object and its children, each sleeper with its waits and references.
pub(crate) fn tell_graph(page: &mut Page, graph: &Graph) {
    page.say("roots ");
    page.show(&graph.roots());
    page.say("\n");
    for node in 0..graph.nodes() {
        page.say("node ");
        page.show(&node);
        page.say(": object ");
        page.show(&graph.number_of(node).0);
        page.say(", refers to ");
        page.show(&graph.children(node));
        page.say("\n");
    }
    for sleeper in 0..graph.sleepers() {
        page.say("sleeper ");
        page.show(&sleeper);
        page.say(": goroutine ");
        page.show(&graph.goroutine_of(sleeper).0);
        page.say(", waits on ");
        page.show(&graph.waits(sleeper));
        page.say(", refers to ");
        page.show(&graph.references(sleeper));
        page.say("\n");
    }
}

/// Returns the marks of a graph, by one marker.
pub(crate) fn marked<R: Threads + Sync>(
    rt: &R,
    alloc: Global,
    graph: &Graph,
) -> Result<Marked, Memory> {
    let ready = Markers::new(alloc, graph, 1)?;
    Ok(ready.mark(rt, graph, &OpenGate))
}

/// Tells which nodes are marked, and which sleepers are awake.
pub(crate) fn tell_marks(page: &mut Page, marks: &Marked) {
    page.say("marked ");
    page.show(&marks.flags.as_slice());
    page.say("\nawake ");
    page.show(&marks.awake.as_slice());
    page.say("\n");
}
