//! The writer of the code of statements and bodies, by their facts, as flat parts.
#![tactic(auto)]

mod begins;
mod clauses;
mod rounds;
mod singles;
mod statements;
mod targets;

pub use statements::body;
pub use targets::Targets;
