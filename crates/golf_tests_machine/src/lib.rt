//! Tests of the machine on small codes. Expected values are from the Go specification.
#![tactic(auto)]

#[cfg(test)]
mod codes;
#[cfg(test)]
mod finalisers;
#[cfg(test)]
mod heap;
#[cfg(test)]
mod instructions;
#[cfg(test)]
mod places_after_turns;
#[cfg(test)]
mod programs;
#[cfg(test)]
mod refusals;
#[cfg(test)]
mod runs;
#[cfg(test)]
mod states;
#[cfg(test)]
mod stuck;
#[cfg(test)]
mod turns;
#[cfg(test)]
mod unwinds;
