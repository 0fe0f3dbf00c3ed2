//! The words after the program's name, and the command line that they stand for.
//!
//! - `parse`: the command line, or `None` if the words stand for none.
//! - `CommandLine`: the request of a command line.
//! - `program`, `with`, `option`, `with_run_options`, `match_words`, `value`, `number_within`, `run_line`: how
//!   a program describes its words to `clap` and gets their values.
//! - `DEFAULT_TURNS`, `MOST_CHOICES`: the limits of a run that the words may leave out, or must keep.
#![tactic(auto)]

mod clap_commands;
mod command_lines;
mod line;
mod values;

pub use clap_commands::{match_words, option, program, with, with_run_options};
pub use command_lines::{DEFAULT_TURNS, parse, run_line, value};
pub use line::CommandLine;
pub use values::{MOST_CHOICES, number_within};
