//! Makes graphs place by place.
//!
//! A graph that is made here names only nodes that it has.

ghost use Rattle.std.specs.Prelude.{◌≡◌, ◌<◌, IfOk};
ghost use Rattle.golf_theory.specs.Membership.{Every};

use golf_base::{GoroutineId, List, Memory, ObjectId};
use golf_model::{Graph, GraphParts, Sleepers};
use golf_rows::FlatRows;
use std::alloc::{AllocError, Global};
use std::marker::Model;

/// The reason for which a graph cannot be made.
#[derive(Debug, Drop)]
pub enum GraphFault {
    /// Out of memory.
    Memory,
    /// A place names a node of this number, which the graph does not have.
    NoSuchNode(u32),
    /// The graph has fewer or more nodes than announced, or too many sleepers.
    Miscounted,
}

impl From<Memory> for GraphFault {
    fn from(_: Memory) -> Self {
        GraphFault::Memory
    }
}

impl From<AllocError> for GraphFault {
    fn from(_: AllocError) -> Self {
        GraphFault::Memory
    }
}

/// A graph under construction. The number of its nodes is announced at the start.
#[derive(Drop)]
pub struct GraphMaker {
    count: u32,
    parts: GraphParts,
}

impl Model for GraphMaker {
    ghost use Rattle.golf_model.specs.declared.graph.GraphParts.{GraphParts};
    ghost use Rattle.golf_tests_support.specs.UnfinishedGraphs.{IsInMaking};

    ghost Value = { GraphParts };

    ghost view = { λ m. m.parts };

    ghost invariant = { λ m. IsInMaking m.count m.parts };
}

impl GraphMaker {
    ghost use Rattle.golf_tests_support.specs.UnfinishedGraphs.{no_parts, with_node, with_root, with_sleeper};

    /// Returns the graph without a node yet, which will have `count` nodes.
    pub fn new(alloc: Global, count: u32) -> GraphMaker
        ensures { result ≡ no_parts }
    {
        GraphMaker {
            count,
            parts: GraphParts {
                numbers: List::new(alloc),
                children: FlatRows::new(alloc),
                finalised: List::new(alloc),
                roots: List::new(alloc),
                sleepers: Sleepers::new(alloc),
            },
        }
    }

    /// Adds the next node, with these children.
    pub fn node(self, alloc: Global, children: &[u32]) -> Result<GraphMaker, GraphFault>
        ensures { IfOk result (λ maker. maker ≡ with_node self children.now) }
    {
        let GraphMaker { count, mut parts } = self;
        if parts.children.len() >= count as usize {
            return Err(GraphFault::Miscounted);
        }
        let children = nodes_of(alloc, count, children)?;
        let number = ObjectId(parts.children.len() as u32);
        parts.numbers.push(number)?;
        parts.children.push(children.as_slice())?;
        parts.finalised.push(false)?;
        Ok(GraphMaker { count, parts })
    }

    /// Adds a root.
    pub fn root(self, node: u32) -> Result<GraphMaker, GraphFault>
        ensures { IfOk result (λ maker. maker ≡ with_root self node) }
    {
        let GraphMaker { count, mut parts } = self;
        if node >= count {
            return Err(GraphFault::NoSuchNode(node));
        }
        parts.roots.push(node)?;
        Ok(GraphMaker { count, parts })
    }

    /// Adds the next sleeper.
    pub fn sleeper(
        self,
        alloc: Global,
        waits: &[u32],
        references: &[u32],
    ) -> Result<GraphMaker, GraphFault>
        ensures { IfOk result (λ maker. maker ≡ with_sleeper self waits.now references.now) }
    {
        let GraphMaker { count, mut parts } = self;
        let waits = nodes_of(alloc, count, waits)?;
        let references = nodes_of(alloc, count, references)?;
        parts
            .sleepers
            .push(GoroutineId(0), waits.as_slice(), references.as_slice())?;
        Ok(GraphMaker { count, parts })
    }

    /// Returns the graph, if it has as many nodes as announced.
    pub fn finish(self) -> Result<Graph, GraphFault>
        ensures { IfOk result (λ graph. graph ≡ self) }
    {
        let GraphMaker { count, parts } = self;
        if parts.children.len() != count as usize {
            return Err(GraphFault::Miscounted);
        }
        if parts.sleepers.len() > (u32::MAX - count) as usize {
            return Err(GraphFault::Miscounted);
        }
        Ok(Graph::new(parts))
    }
}

// These nodes, if each of them is below the count.
fn nodes_of(alloc: Global, count: u32, nodes: &[u32]) -> Result<List<u32>, GraphFault>
    ensures same { IfOk result (λ list. list ≡ nodes.now) }
    ensures below { IfOk result (λ list. Every (λ p. p < count) list) }
{
    let mut list = List::new(alloc);
    for node in nodes {
        if *node >= count {
            return Err(GraphFault::NoSuchNode(*node));
        }
        list.push(*node)?;
    }
    Ok(list)
}
