//! From the bytes of a file to its code, or to the reason for which it has none.
//!
//! - `judge`: the typed tree of a file.
//! - `read`: the code of a file.
//! - `Refusal`: the reason for which a file is refused.
#![tactic(auto)]

mod file_reader;
mod refusal;

pub use file_reader::{judge, read};
pub use refusal::Refusal;
