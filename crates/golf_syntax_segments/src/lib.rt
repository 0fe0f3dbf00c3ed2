//! The cost of tokens, and the segments of a list of tokens.
//!
//! A segment ends after each semicolon outside all brackets. By `laws`, a printed import or declaration with its
//! semicolon is one segment.
#![tactic(auto)]

mod cost;
mod laws;
mod segments;

pub use cost::{MOST_COST, first_too_complex};
pub use laws::{declarations_are_segments, files_are_segments, imports_are_segments};
pub use segments::front_segment;
