//! Judges whether code is that of a typed file, function by function. If it is, source and code agree, both
//! ways.
//!
//! - `check_body`: whether one function of a code is the one that the file's code has.
//! - `check_all`: whether each function and method of the file is. It makes them one at a time.
#![tactic(auto)]

mod comparison;

pub use comparison::{check_all, check_body, function_count};
