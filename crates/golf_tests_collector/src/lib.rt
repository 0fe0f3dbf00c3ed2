//! Tests of the collector:
//!
//! - The marking: it has the same result for every number of markers, and passes its gate as often as it
//!   should. Markers really share the work.
//! - Certificates and reasons are the expected ones.
//! - Collections: the graphs of a state, the reports, and the removed, queued and freed parts.
//! - Threads that step one program: whose turn it is, a step without memory, and workers at the same time.
//! - The search over all schedules.
#![tactic(auto)]

#[cfg(test)]
mod certificates;
#[cfg(test)]
mod codes;
#[cfg(test)]
mod collections;
#[cfg(test)]
mod marking;
#[cfg(test)]
mod searches;
#[cfg(test)]
mod worlds;
