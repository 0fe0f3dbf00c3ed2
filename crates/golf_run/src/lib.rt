//! Runs a code: takes its turns, collects, and writes its output and its reports.
//!
//! - `run`: writes to two sinks.
//! - `trace`: writes a line for each turn, too.
//! - `survey`: writes nothing, and returns a summary.
#![tactic(auto)]

mod collection_lines;
mod fault;
mod kept_bytes;
mod laws;
mod pending_events;
mod silent_run;
mod traced_run;
mod turn_lines;
mod turns;
mod written_run;

pub use fault::RunFault;
pub use kept_bytes::Kept;
pub use laws::{faults_leave_prefixes, leaks_are_reported, writes_are_texts};
pub use silent_run::{RunSummary, survey};
pub use traced_run::trace;
pub use written_run::{last_line, run, status_by};
