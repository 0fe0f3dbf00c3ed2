//! The request of a command line.

use golf_run_schedules::RunOptions;

/// The request of a command line.
#[derive(Debug, Drop)]
pub enum CommandLine {
    /// Run the file on standard input.
    Run(RunOptions),
    /// Make a file of this many parts, from 1 to `golf_command_sample::MOST_PARTS`, and run it.
    Generate(u32),
    /// Run the file on standard input by this many threads, from 1 to 16.
    Threads(u32),
    /// Compare the code of each function of the file on standard input with its source, and run nothing.
    Meaning,
}
