//! Mutexes, wait groups, reader and writer mutexes and conditions: the operations on them of the goroutine
//! whose turn it is.
//!
//! Each operation reads its operands from the goroutine's innermost frame, and returns its
//! `golf_state::Outcome`.
#![tactic(auto)]

mod conditions;
mod groups;
mod mutexes;
mod objects;
mod readers_writers;

pub use conditions::{cond_broadcast, cond_signal, cond_wait};
pub use groups::{group_add, group_wait};
pub use mutexes::{lock, unlock};
pub use objects::condition_at;
pub use readers_writers::{read_lock, read_unlock, rw_lock, rw_unlock};
