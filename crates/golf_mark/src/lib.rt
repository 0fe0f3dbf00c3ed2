//! Marks the least closed set of a graph. It has the roots, all nodes that a marked place refers to, and
//! each sleeper that waits on a marked node.
//!
//! - `mark_alone`: marks in one thread.
//! - `Markers`: marks in several threads, with the same result.
#![tactic(auto)]

mod alone;
mod conclude;
mod deal;
mod finish;
mod marker;
mod markers;
mod notes;
mod scanner;
mod waiters;
mod work;
mod worklist;

pub use alone::mark_alone;
pub use markers::Markers;
