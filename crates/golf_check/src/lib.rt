//! The checker of a file: it finds the first broken rule of names and types, or the facts of the
//! file's parts.
#![tactic(auto)]

mod files;
mod functions;
mod initialisers;
mod scopes;

pub use files::{Checked, check};
