//! Tests of collections: graphs of a state, reports, and what is removed, queued and freed.

pub mod collected_states;
pub mod graphs;
pub mod programs;
pub mod recovery;
pub mod reports;
pub mod states;
