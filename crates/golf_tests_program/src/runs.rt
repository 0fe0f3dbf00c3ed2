//! Tests of whole runs: worked examples, the files of `examples/`, and each kind of command line.

pub mod basic;
pub mod example_files;
pub mod markers;
pub mod meanings;
pub mod options;
pub mod reasons;
pub mod threads;
pub mod worked;
