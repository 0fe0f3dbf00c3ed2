//! Tests of the type checker: the first rule that a file breaks, and its line.
#![tactic(auto)]

#[cfg(test)]
mod expressions;
#[cfg(test)]
mod files;
#[cfg(test)]
mod kinds;
#[cfg(test)]
mod likes;
#[cfg(test)]
mod orders;
#[cfg(test)]
mod scopes;
#[cfg(test)]
mod statements;
#[cfg(test)]
mod verdicts;
