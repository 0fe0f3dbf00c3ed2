//! The code of a file by its facts, which the checker recorded.
//!
//! The definitions are in `specs/`: the code of each construct by the facts that come first in a list. No scope occurs
//! in them. Each function here has one law about the definitions as its contract.
#![tactic(auto)]

ghost use Rattle.golf_code_facts.specs.Laws.{ExpressionsFollow, StatementsFollow, FilesFollow};

/// States that the code of an expression by its facts is its code, and that the facts after them are left.
pub fn expressions_follow()
    ensures { ExpressionsFollow }
{}

/// States that the code of a statement by its facts is its code, and that the facts after them are left.
pub fn statements_follow()
    ensures { StatementsFollow }
{}

/// States that the code of a file by its facts is its code.
pub fn files_follow()
    ensures { FilesFollow }
{}
