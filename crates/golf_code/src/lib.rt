//! From a typed file to its code, with the scope and the facts that the checker found.
//!
//! `specs/` of `golf_code_of` defines the code of a file. A law of `golf_code_facts` says that the code
//! made from the facts is that code.
#![tactic(auto)]

mod comparison;
mod constants;
mod file_code;
mod files;
mod functions;
mod initials;
mod made;
mod numbers;
mod values;
mod walk;

pub use comparison::{begin_with_code, has_same_body};
pub use files::generate;
