//! The definitions of the plain machine, and the dense graph that a collection marks.
//!
//! The plain machine frees no object and reclaims no goroutine. `specs/` defines its states, turns,
//! runs and collections, the live set, the dead goroutines, reports and futures.
#![tactic(auto)]

mod graph;
mod laws;
mod sleepers;

pub use graph::{Graph, GraphParts, Marked};
pub use laws::{collection_law, dead_law, least_law, live_law, reach_law, waiters_law};
pub use sleepers::Sleepers;
