//! Tests of lists, rings, boxes, sources and sinks.
#![tactic(auto)]

#[cfg(test)]
mod lists;
#[cfg(test)]
mod rings;
#[cfg(test)]
mod stdio;
#[cfg(test)]
mod streams;
#[cfg(test)]
mod wanted;
