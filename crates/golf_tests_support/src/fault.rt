//! The reason for which a measurement fails.

use crate::graph_maker::GraphFault;
use golf_base::Memory;
use std::alloc::AllocError;
use std::io;

/// The reason for which a measurement fails.
#[derive(Debug, Drop)]
pub enum BenchFault {
    /// Out of memory.
    Memory,
    /// The graph of the measurement cannot be made.
    Graph(GraphFault),
    /// The clock or the output failed.
    Io(io::Error),
}

impl From<Memory> for BenchFault {
    fn from(_: Memory) -> Self {
        BenchFault::Memory
    }
}

impl From<AllocError> for BenchFault {
    fn from(_: AllocError) -> Self {
        BenchFault::Memory
    }
}

impl From<GraphFault> for BenchFault {
    fn from(fault: GraphFault) -> Self {
        BenchFault::Graph(fault)
    }
}

impl From<io::Error> for BenchFault {
    fn from(fault: io::Error) -> Self {
        BenchFault::Io(fault)
    }
}
