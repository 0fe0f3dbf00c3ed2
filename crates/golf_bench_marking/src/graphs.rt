//! Graphs for the measurement of certificates.

use golf_base::List;
use golf_model::Graph;
use golf_tests_support::{GraphFault, GraphMaker, Shape, shaped};
use std::alloc::Global;

/// The shape of a graph.
#[derive(Clone, Copy, Debug, PartialEq, Eq)]
pub(crate) enum Places {
    /// Only nodes, in one of the shapes of the markings.
    Nodes(Shape),
    /// The root refers to each other node.
    Star,
    /// Half of the places are sleepers. Each waits on the node of its own number, and refers to the next
    /// node.
    Relay,
}

/// Returns a graph with `count` places.
pub(crate) fn graph_of(alloc: Global, places: Places, count: u32) -> Result<Graph, GraphFault> {
    match places {
        Places::Nodes(shape) => shaped(alloc, shape, count),
        Places::Star => star(alloc, count),
        Places::Relay => relay(alloc, count / 2),
    }
}

fn star(alloc: Global, nodes: u32) -> Result<Graph, GraphFault> {
    let mut children = List::new(alloc);
    for node in 1..nodes {
        children.push(node)?;
    }
    let mut maker = GraphMaker::new(alloc, nodes).node(alloc, children.as_slice())?;
    for _ in 1..nodes {
        maker = maker.node(alloc, &[])?;
    }
    maker.root(0)?.finish()
}

// A graph with about as many sleepers as nodes.
fn relay(alloc: Global, nodes: u32) -> Result<Graph, GraphFault> {
    let mut maker = GraphMaker::new(alloc, nodes);
    for _ in 0..nodes {
        maker = maker.node(alloc, &[])?;
    }
    for node in 1..nodes {
        maker = maker.sleeper(alloc, &[node - 1], &[node])?;
    }
    maker.root(0)?.finish()
}
