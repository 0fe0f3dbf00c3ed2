//! Mark words: one bit for each place of a graph, which many threads share.
//!
//! The invariant holds between any two steps of any threads:
//!
//! - Each place is claimed at most once.
//! - A claimed place is a root, or a marked place justifies it. So each marked place is in the least closed
//!   set.
//! - A place that a seat knows as marked stays marked.
//!
//! Steps take no memory and never wait.
#![tactic(auto)]

mod batch;
mod bits;
mod close;
mod deal;
mod marks;
mod rule;

pub use batch::Batch;
pub use close::numbers_of;
pub use marks::{MarkSeat, Marks};
pub use rule::{Plan, View};
