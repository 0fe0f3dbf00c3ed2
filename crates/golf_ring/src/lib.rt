//! A queue that costs the same at either end, however long it is.
//!
//! - `Ring`: a queue, which contracts see as the list of its items.
#![tactic(auto)]

mod ring;

pub use ring::Ring;
