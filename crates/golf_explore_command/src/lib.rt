//! The whole program that looks at every schedule, over any source and any two sinks.
//!
//! - `explorer`: the top call, which does all that the program does.
//! - `USAGE`: the text for words that are no command line.
#![tactic(auto)]

mod found_runs;
mod full_answers;
mod progress;
mod search_answers;
mod texts;
mod top;
mod traces;

pub use texts::USAGE;
pub use top::explorer;
