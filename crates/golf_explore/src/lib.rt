//! Searches the schedules of a code, up to a number of states.
//!
//! - `Exploration`: looks for a dead goroutine in all schedules.
//! - `Search`: looks for a leak, a panic or a sleep by a rising number of preemptions.
//!
//! Both go step by step. So a caller can say how far a search is, and can stop it.
//!
//! A search visits a state once. A visit keeps its state, and the turns that led to it from an earlier visit.
//! `Exploration` takes each turn of a visit from a copy of its state. `Search` makes the state anew by the turns of its
//! path. Hashes only find the states to compare.
//!
//! `Exploration` does not visit each state that turns reach. After a turn it takes frame-local turns at once, and visits
//! only the state after them. Of alike states, which differ in the numbers of goroutines and in tickets alone, it visits
//! one. What it says holds for each state. `Search` compares states exactly.
#![tactic(auto)]

mod alike_hashes;
mod alike_states;
mod attempts;
mod choices;
mod dead_goroutines;
mod endings;
mod frame_local_turns;
mod full_search;
mod hashes;
mod pairings;
mod paths;
mod preemption_search;
mod searched_visits;
mod shorter_schedules;
mod sought;
mod successors;
mod turns;
mod visit_ranks;
mod visits;

pub use full_search::{Exploration, Explored, Visited};
pub use preemption_search::{Aim, Search, SearchResult};
pub use sought::Sought;
