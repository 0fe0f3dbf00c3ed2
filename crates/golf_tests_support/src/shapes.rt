//! Graphs of a shape, with one root that reaches all nodes.

use crate::graph_maker::{GraphFault, GraphMaker};
use crate::numbers::Numbers;
use golf_base::List;
use golf_model::Graph;
use std::alloc::Global;

/// The shape of a graph.
#[derive(Clone, Copy, Debug, PartialEq, Eq)]
pub enum Shape {
    /// Each node has the next number as its child.
    List,
    /// A list of all nodes in a pseudo-random order.
    Shuffled,
    /// A binary tree, level by level.
    Tree,
    /// A tree with four children for each node, level by level.
    Quad,
    /// The shuffled list, whose nodes each have one more pseudo-random child.
    Random,
    /// The shuffled list, whose nodes each have seven more pseudo-random children.
    Dense,
}

/// Returns a graph of this shape with `nodes` nodes.
pub fn shaped(alloc: Global, shape: Shape, nodes: u32) -> Result<Graph, GraphFault> {
    match shape {
        Shape::List => list(alloc, nodes),
        Shape::Shuffled => shuffled(alloc, nodes),
        Shape::Tree => tree(alloc, nodes, 2),
        Shape::Quad => tree(alloc, nodes, 4),
        Shape::Random => web(alloc, nodes, 1),
        Shape::Dense => web(alloc, nodes, 7),
    }
}

// The graph with this root, if it has a node.
fn rooted(maker: GraphMaker, nodes: u32, root: u32) -> Result<Graph, GraphFault> {
    if nodes == 0 {
        return maker.finish();
    }
    maker.root(root)?.finish()
}

fn list(alloc: Global, nodes: u32) -> Result<Graph, GraphFault> {
    let mut maker = GraphMaker::new(alloc, nodes);
    for node in 1..nodes {
        maker = maker.node(alloc, &[node])?;
    }
    if nodes > 0 {
        maker = maker.node(alloc, &[])?;
    }
    rooted(maker, nodes, 0)
}

// The children of a node in a tree of `nodes` nodes with `each` children for a node.
fn branches(alloc: Global, node: u32, nodes: u32, each: u32) -> Result<List<u32>, GraphFault> {
    let mut children = List::new(alloc);
    for branch in 1..=each {
        let child = node.saturating_mul(each).saturating_add(branch);
        if child < nodes {
            children.push(child)?;
        }
    }
    Ok(children)
}

fn tree(alloc: Global, nodes: u32, each: u32) -> Result<Graph, GraphFault> {
    let mut maker = GraphMaker::new(alloc, nodes);
    for node in 0..nodes {
        let children = branches(alloc, node, nodes, each)?;
        maker = maker.node(alloc, children.as_slice())?;
    }
    rooted(maker, nodes, 0)
}

fn swap(order: &mut List<u32>, i: usize, j: usize) {
    if i < order.len() && j < order.len() {
        let first = order.as_slice()[i];
        let second = order.as_slice()[j];
        order.set(i, second);
        order.set(j, first);
    }
}

// All nodes, in a pseudo-random order.
fn shuffled_nodes(alloc: Global, nodes: u32) -> Result<List<u32>, GraphFault> {
    let mut order = List::new(alloc);
    for node in 0..nodes {
        order.push(node)?;
    }
    let mut numbers = Numbers::new(7);
    for node in 1..nodes {
        let other = numbers.below(node + 1);
        swap(&mut order, node as usize, other as usize);
    }
    Ok(order)
}

fn link(next: &mut List<Option<u32>>, from: u32, to: u32) {
    if (from as usize) < next.len() {
        next.set(from as usize, Some(to));
    }
}

// For each node the next one in this order.
fn next_nodes(alloc: Global, order: &[u32]) -> Result<List<Option<u32>>, GraphFault> {
    let mut next = List::new(alloc);
    next.extend_with(order.len(), None)?;
    for i in 1..order.len() {
        link(&mut next, order[i - 1], order[i]);
    }
    Ok(next)
}

fn shuffled(alloc: Global, nodes: u32) -> Result<Graph, GraphFault> {
    let order = shuffled_nodes(alloc, nodes)?;
    let next = next_nodes(alloc, order.as_slice())?;
    let mut maker = GraphMaker::new(alloc, nodes);
    for node in next.as_slice() {
        maker = match node {
            Some(child) => maker.node(alloc, &[*child])?,
            None => maker.node(alloc, &[])?,
        };
    }
    match order.as_slice().first() {
        Some(root) => rooted(maker, nodes, *root),
        None => maker.finish(),
    }
}

// The next node, if there is one, and `more` pseudo-random nodes.
fn threads(
    alloc: Global,
    next: Option<u32>,
    nodes: u32,
    more: u32,
    numbers: &mut Numbers,
) -> Result<List<u32>, GraphFault> {
    let mut children = List::new(alloc);
    if let Some(child) = next {
        children.push(child)?;
    }
    for _ in 0..more {
        children.push(numbers.below(nodes))?;
    }
    Ok(children)
}

fn web(alloc: Global, nodes: u32, more: u32) -> Result<Graph, GraphFault> {
    let order = shuffled_nodes(alloc, nodes)?;
    let next = next_nodes(alloc, order.as_slice())?;
    let mut numbers = Numbers::new(11);
    let mut maker = GraphMaker::new(alloc, nodes);
    for child in next.as_slice() {
        let children = threads(alloc, *child, nodes, more, &mut numbers)?;
        maker = maker.node(alloc, children.as_slice())?;
    }
    match order.as_slice().first() {
        Some(root) => rooted(maker, nodes, *root),
        None => maker.finish(),
    }
}
