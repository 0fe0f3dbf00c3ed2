//! The generated file, whose run leaves many goroutines blocked for ever, and many blocked goroutines that
//! are live.
#![tactic(auto)]

mod file;
mod summary;

pub use file::{MOST_PARTS, file_lines, sample_file};
pub use summary::{Summary, summary_line};
