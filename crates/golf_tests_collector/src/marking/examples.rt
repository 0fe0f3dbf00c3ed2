//! Graphs that are written by hand, some of them the live graphs of small programs, and their markings.

use golf_base::{Gate, List};
use golf_mark::Markers;
use golf_model::{Graph, Marked};
use golf_tests_support::{GraphFault, GraphMaker};
use std::alloc::Global;
use std::test::Fail;
use std::thread::Threads;

/// A graph without places.
pub(crate) const NOTHING: &str = "";

/// Two nodes, both roots.
pub(crate) const TWO_ROOTS: &str = "node; node; root 0; root 1";

/// A root with four children.
pub(crate) const ONE_ROOT_OF_FOUR: &str = "node 1 2 3 4; node; node; node; node; root 0";

/// A root with seven children.
pub(crate) const ONE_ROOT_OF_SEVEN: &str =
    "node 1 2 3 4 5 6 7; node; node; node; node; node; node; node; root 0";

/// A root, two more nodes of its list, and then a node with four children.
pub(crate) const LIST_BEFORE_FOUR: &str =
    "node 1; node 2; node 3; node 4 5 6 7; node; node; node; node; root 0";

/// The root 0 refers to node 1. Sleeper 0 waits on node 1 and refers to node 2, which refers to node 3.
/// Sleeper 1 waits on node 3 and refers to node 4. Sleeper 2 waits on node 5, which no place reaches.
pub(crate) const TWO_ROUNDS: &str = "
    node 1; node; node 3; node; node; node 4; root 0; sleeper 1 > 2; sleeper 3 > 4; sleeper 5 > 5";

/// The roots are 3 and 1, and node 3 refers to node 0. Sleeper 0 waits on nodes 2 and 0, and node 2 stays
/// unmarked. Sleeper 1 waits on no node.
pub(crate) const SELECT_WITH_ONE_LIVE_CHANNEL: &str =
    "node; node; node; node 0; root 3; root 1; sleeper 2 0 > 2 0; sleeper >";

/// A goroutine waits on a channel that no other goroutine refers to.
pub(crate) const CLASSIC_LEAK: &str = "node; sleeper 0 > 0";

/// The main goroutine holds the channel on which another goroutine waits.
pub(crate) const CHANNEL_STILL_HELD: &str = "node; root 0; sleeper 0 > 0";

/// Two goroutines wait on a channel each and refer to both. No other goroutine refers to these channels.
pub(crate) const CYCLE: &str = "node; node; sleeper 0 > 0 1; sleeper 1 > 1 0";

/// A `select` without cases and a send on nil: sleepers that wait on no node, and a graph without nodes.
pub(crate) const WAITS_ON_NOTHING: &str = "sleeper >; sleeper >";

/// A goroutine that holds a global mutex waits on a channel that only it refers to. Another goroutine waits
/// for the mutex.
pub(crate) const HELD_MUTEX: &str = "node; node; root 0; sleeper 1 > 0 1; sleeper 0 > 0";

/// A goroutine waits in a `select` on a global channel and on a channel that only it refers to. It would
/// send a struct that only it refers to.
pub(crate) const SELECT_ON_ITS_OWN_CHANNEL: &str = "node; node; node; root 0; sleeper 0 2 > 0 1 2";

/// The root 0 refers to node 1.
pub(crate) const TWO_NODES: &str = "node 1; node; root 0";

/// The roots are 1 and 0, and both refer to node 3. Node 2 refers to node 3 too, but no place reaches it.
/// Sleeper 0 waits on node 3 and refers to node 4. Sleeper 1 waits on node 4, and sleeper 2 on node 2.
pub(crate) const TWO_PARENTS: &str = "
    node 3; node 3; node 3; node; node; root 1; root 0; sleeper 3 > 4; sleeper 4 >; sleeper 2 >";

/// Returns a graph with a list of 50 nodes, each with a channel, and with 50 more channels. On each channel
/// a sleeper waits that refers to it.
pub(crate) fn list_of_channels(alloc: Global) -> Result<Graph, GraphFault> {
    let mut maker = GraphMaker::new(alloc, 150);
    for node in 0..49u32 {
        maker = maker.node(alloc, &[50 + node, node + 1])?;
    }
    maker = maker.node(alloc, &[99])?;
    for _ in 0..100 {
        maker = maker.node(alloc, &[])?;
    }
    for channel in 50..150u32 {
        maker = maker.sleeper(alloc, &[channel], &[channel])?;
    }
    maker.root(0)?.finish()
}

// The numbers of a text, with spaces between.
fn numbers_of(alloc: Global, text: &str) -> Result<List<u32>, Fail> {
    let mut numbers = List::new(alloc);
    for word in text.split_whitespace() {
        match word.parse::<u32>() {
            Ok(number) => numbers.push(number)?,
            Err(_) => return Err(Fail::new("no number")),
        }
    }
    Ok(numbers)
}

// Adds the next node, with children of these numbers.
fn with_node(alloc: Global, maker: GraphMaker, children: &str) -> Result<GraphMaker, Fail> {
    let children = numbers_of(alloc, children)?;
    Ok(maker.node(alloc, children.as_slice())?)
}

// Adds a root.
fn with_root(maker: GraphMaker, node: &str) -> Result<GraphMaker, Fail> {
    match node.parse::<u32>() {
        Ok(node) => Ok(maker.root(node)?),
        Err(_) => Err(Fail::new("no root")),
    }
}

// Adds the next sleeper: the nodes that it waits on, then `>`, then the nodes that it refers to.
fn with_sleeper(alloc: Global, maker: GraphMaker, rest: &str) -> Result<GraphMaker, Fail> {
    let (waits, references) = rest.split_once('>').unwrap_or((rest, ""));
    let waits = numbers_of(alloc, waits)?;
    let references = numbers_of(alloc, references)?;
    Ok(maker.sleeper(alloc, waits.as_slice(), references.as_slice())?)
}

// Adds one part of a text.
fn with_part(alloc: Global, maker: GraphMaker, part: &str) -> Result<GraphMaker, Fail> {
    let (kind, rest) = part.split_once(' ').unwrap_or((part, ""));
    match kind {
        "" => Ok(maker),
        "node" => with_node(alloc, maker, rest),
        "root" => with_root(maker, rest),
        "sleeper" => with_sleeper(alloc, maker, rest),
        _ => Err(Fail::new("no part of a graph")),
    }
}

// How many nodes a text has.
fn node_count(text: &str) -> u32 {
    let mut count = 0u32;
    for part in text.split(';') {
        if part.trim().starts_with("node") {
            count = count.saturating_add(1);
        }
    }
    count
}

/// Returns the graph of a text, whose parts have a semicolon between. `node 1 2` is the next node, with
/// children 1 and 2. `root 0` is a root. `sleeper 0 > 1 2` waits on node 0 and refers to nodes 1 and 2.
pub(crate) fn graph_of(alloc: Global, text: &str) -> Result<Graph, Fail> {
    let mut maker = GraphMaker::new(alloc, node_count(text));
    for part in text.split(';') {
        maker = with_part(alloc, maker, part.trim())?;
    }
    Ok(maker.finish()?)
}

/// Returns the marking of a graph by `count` markers, 1 to 16, that pass this gate.
pub(crate) fn marked_by<R: Threads + Sync, G: Gate + Sync>(
    rt: &R,
    alloc: Global,
    graph: &Graph,
    count: u32,
    gate: &G,
) -> Result<Marked, Fail> {
    if count == 0 || count > 16 {
        return Err(Fail::new("no such count of markers"));
    }
    Ok(Markers::new(alloc, graph, count)?.mark(rt, graph, gate))
}
