//! The dense graph that a collection marks. Its places are the nodes, from 0, and then the sleepers.
//! A node is an object; a sleeper is a blocked goroutine that may be woken.

ghost use Rattle.std.specs.Prelude.{◌≡◌, ◌<◌, [], slice_get, Some, IfOk};
ghost use Rattle.golf_rows.specs.Rows.{IsInverseBelow};
ghost use Rattle.golf_model.specs.Graph.{IsInRange, AreNodes, node_count, sleeper_count, children_of, goroutine_at};
ghost use Rattle.golf_model.specs.Graph.{sleeper_waits, sleeper_references};

use crate::sleepers::Sleepers;
use golf_base::{GoroutineId, List, Memory, ObjectId};
use golf_rows::{FlatRows, inverse};
use std::alloc::Global;
use std::marker::Model;

/// The parts of a graph. A node is an object, named by its place.
#[derive(Debug)]
pub struct GraphParts {
    /// For each node its object's number, rising.
    pub numbers: List<ObjectId>,
    /// For each node the nodes that it refers to.
    pub children: FlatRows,
    /// For each node whether its object has a finaliser.
    pub finalised: List<bool>,
    /// The roots: the nodes that are marked first.
    pub roots: List<u32>,
    pub sleepers: Sleepers,
}

/// A graph whose places are the nodes, from 0, and after them the sleepers. All its parts are in range.
#[derive(Debug)]
pub struct Graph {
    parts: GraphParts,
}

impl Model for Graph {
    ghost use Rattle.golf_model.specs.declared.graph.GraphParts.{GraphParts};
    ghost use Rattle.golf_model.specs.Graph.{IsInRange};

    ghost Value = { GraphParts };

    ghost view = { λ g. g.parts };

    ghost invariant = { λ g. IsInRange g.parts };
}

impl Graph {
    /// Returns the graph of these parts.
    pub fn new(parts: GraphParts) -> Graph
        requires { IsInRange parts }
        ensures { result ≡ parts }
    {
        Graph { parts }
    }

    /// Returns the graph of the same nodes with these roots and without sleepers.
    pub fn without_sleepers(mut self, alloc: Global, roots: List<u32>) -> Graph
        requires { AreNodes self roots }
        ensures { result ≡ record self { roots = roots; sleepers = [] } }
    {
        let none = Sleepers::new(alloc);
        self.parts.roots = roots;
        self.parts.sleepers = none;
        self
    }

    /// Returns how many nodes there are.
    pub fn nodes(&self) -> u32
        ensures count { result ≡ node_count self.now }
        ensures in_range { IsInRange self.now }
    {
        self.parts.children.len() as u32
    }

    /// Returns how many sleepers there are.
    pub fn sleepers(&self) -> u32
        ensures { result ≡ sleeper_count self.now }
    {
        self.parts.sleepers.len() as u32
    }

    /// Returns the nodes that this node refers to.
    pub fn children(&self, node: u32) -> &[u32]
        requires { node < node_count self.now }
        ensures { result.now ≡ children_of self.now node }
    {
        self.parts.children.row(node as usize)
    }

    /// Returns the roots: the nodes that are marked first.
    pub fn roots(&self) -> &[u32]
        ensures { result.now ≡ self.now.roots }
    {
        self.parts.roots.as_slice()
    }

    /// Returns the number of this node's object.
    pub fn number_of(&self, node: u32) -> ObjectId
        requires { node < node_count self.now }
        ensures { slice_get self.now.numbers node ≡ Some result }
    {
        self.parts.numbers.as_slice()[node as usize]
    }

    /// Returns whether this node's object has a finaliser.
    pub fn finalised(&self, node: u32) -> bool
        requires { node < node_count self.now }
        ensures { slice_get self.now.finalised node ≡ Some result }
    {
        self.parts.finalised.as_slice()[node as usize]
    }

    /// Returns the goroutine of this sleeper.
    pub fn goroutine_of(&self, sleeper: u32) -> GoroutineId
        requires { sleeper < sleeper_count self.now }
        ensures { goroutine_at self.now sleeper ≡ Some result }
    {
        self.parts.sleepers.goroutine(sleeper as usize)
    }

    /// Returns the nodes that this sleeper waits on.
    pub fn waits(&self, sleeper: u32) -> &[u32]
        requires { sleeper < sleeper_count self.now }
        ensures { result.now ≡ sleeper_waits self.now sleeper }
    {
        self.parts.sleepers.waits(sleeper as usize)
    }

    /// Returns for each node the sleepers that wait on it.
    ///
    /// `Memory` also comes if all sleepers together wait on 2^32 nodes or more.
    pub fn waiters(&self, alloc: Global) -> Result<FlatRows, Memory>
        ensures { IfOk result (IsInverseBelow (sleeper_count self.now) (node_count self.now) (sleeper_waits self.now)) }
    {
        let rows = inverse(alloc, self.parts.sleepers.all_waits(), self.nodes())?;
        Ok(rows)
    }

    /// Returns for each node the nodes that refer to it.
    ///
    /// `Memory` also comes if all nodes together refer to 2^32 nodes or more.
    pub fn parents(&self, alloc: Global) -> Result<FlatRows, Memory>
        ensures { IfOk result (IsInverseBelow (node_count self.now) (node_count self.now) (children_of self.now)) }
    {
        let rows = inverse(alloc, &self.parts.children, self.nodes())?;
        Ok(rows)
    }

    /// Returns the nodes that this sleeper refers to.
    pub fn references(&self, sleeper: u32) -> &[u32]
        requires { sleeper < sleeper_count self.now }
        ensures { result.now ≡ sleeper_references self.now sleeper }
    {
        self.parts.sleepers.references(sleeper as usize)
    }
}

/// The marked places of a graph.
#[derive(Debug)]
pub struct Marked {
    /// For each node whether it is marked.
    pub flags: List<bool>,
    /// The marked nodes, each once.
    pub order: List<u32>,
    /// For each sleeper whether it is awake.
    pub awake: List<bool>,
}

// These drops are written out once here, so that no other crate has to prove the drop of each field.
impl Drop for GraphParts {
    fn drop(self) {
        let GraphParts {
            numbers: _,
            children: _,
            finalised: _,
            roots: _,
            sleepers: _,
        } = self;
    }
}

impl Drop for Graph {
    fn drop(self) {
        let Graph { parts: _ } = self;
    }
}

impl Drop for Marked {
    fn drop(self) {
        let Marked {
            flags: _,
            order: _,
            awake: _,
        } = self;
    }
}
