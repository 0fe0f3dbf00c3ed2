//! Pseudo-random graphs.

use crate::graph_maker::{GraphFault, GraphMaker};
use crate::numbers::Numbers;
use golf_base::List;
use golf_model::Graph;
use std::alloc::Global;

// Up to `most` nodes of a graph of `count` nodes.
fn some_nodes(
    alloc: Global,
    numbers: &mut Numbers,
    most: u32,
    count: u32,
) -> Result<List<u32>, GraphFault> {
    let mut nodes = List::new(alloc);
    if count == 0 {
        return Ok(nodes);
    }
    for _ in 0..numbers.below(most.saturating_add(1)) {
        nodes.push(numbers.below(count))?;
    }
    Ok(nodes)
}

/// Returns a graph of up to 119 nodes with up to two children each, and up to three roots. It has up to 79
/// sleepers, each of which waits on up to three nodes and refers to up to three.
pub fn random_graph(alloc: Global, numbers: &mut Numbers) -> Result<Graph, GraphFault> {
    let nodes = numbers.below(120);
    let mut maker = GraphMaker::new(alloc, nodes);
    for _ in 0..nodes {
        let children = some_nodes(alloc, numbers, 2, nodes)?;
        maker = maker.node(alloc, children.as_slice())?;
    }
    let roots = some_nodes(alloc, numbers, 3, nodes)?;
    for root in roots.as_slice() {
        maker = maker.root(*root)?;
    }
    for _ in 0..numbers.below(80) {
        let waits = some_nodes(alloc, numbers, 3, nodes)?;
        let references = some_nodes(alloc, numbers, 3, nodes)?;
        maker = maker.sleeper(alloc, waits.as_slice(), references.as_slice())?;
    }
    maker.finish()
}
