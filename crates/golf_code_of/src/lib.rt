//! The definition of the code of a file.
//!
//! `CodeOf`, in `specs/`, is the code of a file, by recursion over its tree. `Tables` holds the texts and constants
//! that code looks up. Each function here has one law of the definitions as its contract.
#![tactic(auto)]

mod surroundings;
mod tables;

ghost use Rattle.golf_code_of.specs.Laws.{JudgmentsAgree, WalksAgree};

pub use surroundings::{Around, Making};
pub use tables::{Tables, TextTable};

/// States that code and checker agree about what an expression is.
pub fn judgments_agree()
    ensures { JudgmentsAgree }
{}

/// States that code and checker agree about what is known after a statement.
pub fn walks_agree()
    ensures { WalksAgree }
{}
