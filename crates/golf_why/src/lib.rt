//! Explains why waiting goroutines are live. Before a collection it makes and verifies a certificate of the
//! marking. For each waiting goroutine that is live it finds the shortest way from a root.
#![tactic(auto)]

mod explanation;
mod laws;
mod members;

pub use explanation::{Explanation, Reached};
pub use laws::live_are_told;
pub use members::Member;
