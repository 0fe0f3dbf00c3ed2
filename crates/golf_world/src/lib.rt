//! Threads step one program, each with its own pass, one at a time. Their turns make one history.
//!
//! - `World`, `StepPass`: the program, and the pass of one thread.
//! - `run_world`, `run_threads`: run a program by several threads to its end.
#![tactic(auto)]

mod execution;
mod guarded;
mod history;
mod pass;
mod passes;
mod rule;
mod seats;
mod table;
mod turn_with_collection;
mod workers;
mod world;

pub use history::{History, HistoryEntry, MOST_ENTRIES, Stepped};
pub use pass::StepPass;
pub use rule::{PassEntries, View, WorldName};
pub use table::WorldTable;
pub use workers::{run_threads, run_world};
pub use world::World;
