//! The part of a collection that finalisers need.
//!
//! - `keeps`: the dead goroutines that the keep rule keeps.
//! - `queue_finalisers`: moves the finalisers of unreached objects to the finaliser queue.
#![tactic(auto)]

mod finaliser_queue;
mod keep_rule;
mod laws;

pub use finaliser_queue::queue_finalisers;
pub use keep_rule::keeps;
pub use laws::keeps_law;
