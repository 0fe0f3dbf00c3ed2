//! The schedule of a run: the number of each turn, and the turns after which a collection is added.
//!
//! - `Schedule`: where the numbers of the turns come from.
//! - `Events`: the turns and added collections of a run, one after another.
//! - `RunOptions`: the options of a run.
//! - `choices_then_collect`: a law on written choices.
#![tactic(auto)]

mod events;
mod laws;
mod options;
mod schedule;

pub use events::{Event, Events};
pub use laws::choices_then_collect;
pub use options::{MOST_TURNS, RunOptions};
pub use schedule::Schedule;
