//! The dense graph of a state, which a collection marks.
//!
//! - `live_graph`: its least closed set is the live set.
//! - `retained_graph`: its least closed set is the set of objects that stay reachable without some
//!   goroutines.
#![tactic(auto)]

mod among;
mod goroutines;
mod graph;
mod laws;
mod nodes;
mod references;
mod retained;

pub use among::{is_among, outside};
pub use graph::live_graph;
pub use laws::{live_graph_law, retained_graph_law};
pub use retained::retained_graph;
