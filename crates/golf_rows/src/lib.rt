//! Rows of numbers. The row of a number has the members that name it: for each node of a graph, for
//! example, the goroutines that wait on it.
#![tactic(auto)]

mod flat;
mod inverses;
mod rooms;
mod rows;

pub use flat::FlatRows;
pub use inverses::inverse;
pub use rows::{add_to_all, empty_rows};
