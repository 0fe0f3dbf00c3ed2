//! The texts that a run writes to standard error, and the status with which the program ends.
//!
//! `specs/` defines all that the run of a code writes (`Output`, `Writes`).
#![tactic(auto)]

mod lines;
mod reasons;
mod refusals;
mod runs;
mod status;
mod totals;

pub use lines::{ending_line, entry_line, report_line, report_text, stopped_line};
pub use reasons::{certificate_line, reached_line};
pub use refusals::{lexical_line, list_of, rule_line, syntax_line};
pub use runs::{add_numbers, anyone_reported, history_line, meaning_line, reports_text};
pub use status::{LIMIT, NO_MEMORY, READ_FAULT, Status, TOO_LONG, USAGE, code, constants_law};
pub use totals::Totals;
