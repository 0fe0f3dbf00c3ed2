//! Tests of the marking: its words, its hands, its markers, and its graphs.

pub mod alone;
pub mod examples;
pub mod hands;
pub mod markers;
pub mod same;
pub mod seats;
