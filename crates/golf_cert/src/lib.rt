//! Certificates that a marking is the least closed set of a graph, and the reason for which a sleeper is in
//! that set.
//!
//! - `certify`, `verify`: make a certificate, and check one.
//! - `Reasons`, `reason`: the shortest list of places from a root to a sleeper.
#![tactic(auto)]

mod certificates;
mod edges;
mod flags;
mod laws;
mod links;
mod parents;
mod reasons;
mod steps;
mod verdicts;
mod walk;

pub use certificates::certify;
pub use laws::{least_is_computed, reasons_are_computed, reasons_are_unique};
pub use links::{Certificate, Link, Verdict};
pub use reasons::{Reasons, reason};
pub use verdicts::verify;
