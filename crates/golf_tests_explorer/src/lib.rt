//! Tests of the program that looks at every schedule: its answers, the words that repeat a leak, what it
//! searches for, how far it is, the turns that it tells, refusals, and faults of its streams.
#![tactic(auto)]

#[cfg(test)]
mod answers;
#[cfg(test)]
mod calls;
#[cfg(test)]
mod progress;
#[cfg(test)]
mod searches;
#[cfg(test)]
mod streams;
#[cfg(test)]
mod traces;
