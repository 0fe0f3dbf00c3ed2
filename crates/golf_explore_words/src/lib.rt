//! The words of the program that looks at every schedule.
//!
//! - `parse`: the request of the words, or `None` if they are none. `clap` splits the words of a command line.
//! - `Request`: the number of the release, or a command line.
//! - `ExploreLine`: the request of a command line.
#![tactic(auto)]

mod clap_commands;
mod command_lines;
mod line;

pub use command_lines::parse;
pub use line::{
    DEFAULT_STATES, ExploreLine, MOST_STATES, Question, Request, SearchFor, SearchOptions,
};
