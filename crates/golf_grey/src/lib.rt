//! The worklist of marking. A grey place is marked and not yet scanned. Each hand pushes to its own deque,
//! takes from the front of it, and steals from the fronts of the others.
//!
//! The invariant: the places that were pushed are those that were taken and those that are left, each as
//! often. It holds for all hands together and for each deque. Steps take no memory and never wait.
#![tactic(auto)]

mod drain;
mod hand;
mod laws;
mod made;
mod named;
mod new_pools;
mod pool;
mod rule;
mod steal;

pub use hand::GreyHand;
pub use laws::none_law;
pub use pool::{GreyPool, Left};
pub use rule::GreyView;
