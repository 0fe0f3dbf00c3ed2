//! The program that looks at every schedule of the Go file on standard input.
//!
//! It makes the streams, gets the words, and exits with the number of the status.
#![tactic(auto)]

mod aside;

use aside::explorer_aside;
use golf_base::{StdErrSink, StdSink, StdSource};
use golf_command::{arguments, end};
use golf_explore_command::USAGE;
use golf_run_texts::{NO_MEMORY, Status, code};
use std::io::IsTerminal;
use std::process::ExitCode;

fn main(rt: HostRuntime) -> ExitCode {
    let source = StdSource::new(rt.stdin());
    let out = StdSink::new(rt.stdout());
    let err = StdErrSink::new(rt.stderr());
    let mut last = StdErrSink::new(rt.stderr());
    // Lines of progress are for a person who waits.
    let shows = rt.stderr().is_terminal();
    let status = match arguments(&rt) {
        Ok(words) => match explorer_aside(rt, words, shows, source, out, err) {
            Ok(ended) => ended.status,
            Err(_) => end(&mut last, NO_MEMORY, Status::Memory),
        },
        Err(Status::Memory) => end(&mut last, NO_MEMORY, Status::Memory),
        Err(status) => end(&mut last, USAGE, status),
    };
    ExitCode::from(code(status))
}
