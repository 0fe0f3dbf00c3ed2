//! The goroutines of a running program by number, and the numbers of those that run.
//!
//! - `Roster`: all goroutines in rising order of number, in blocks. One goroutine that ends, blocks or is
//!   woken moves at most the others of its block.
//! - `copied_goroutine`, `copied_roster`: copies with the same view.
#![tactic(auto)]

mod block_list;
mod copies;
mod places;
mod rising_lists;
mod roster;
mod run_blocks;
mod run_list;
mod sums;
mod walks;

pub use copies::{copied_goroutine, copied_roster};
pub use places::{is_running, place_of};
pub use roster::Roster;
