//! The heap: objects under numbers that are given in order and never used again.
//!
//! - `Heap`: the objects that are there, and the last number that was given.
#![tactic(auto)]

mod heap;
mod places;

pub use heap::Heap;
