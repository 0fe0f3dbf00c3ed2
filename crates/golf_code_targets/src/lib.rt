//! From structured code as a flat list to functions. Two walks put the targets in; a third walk computes the most
//! operands.
//!
//! The definitions are in `specs/`: each walk, part by part. Together the walks give the function of the piece.
#![tactic(auto)]

mod bodies;
mod functions;
mod heights;
mod nesting;
mod targets;

pub use functions::function;
