//! Readers of types, expressions and simple statements, each at the front of a list of tokens.
//!
//! A reader returns the construct with which the list begins and the tokens after it, or `None` if the list begins with
//! no such construct. `specs/` defines by the first tokens which construct that is.
//!
//! By `laws` the readers agree with the grammar. A construct that is found is well formed and printed there. A
//! construct that is printed is found, if nothing after it continues it.
#![tactic(auto)]

mod expressions;
mod front;
mod laws;
mod operators;
mod pending;
mod place;
mod simple;
mod starts;
mod types;

pub use expressions::{expression_at, operand_at};
pub use front::{after, after_keyword, copied, name_at};
pub use laws::{
    expressions_found, expressions_read, operands_found, operands_read, simples_found,
    simples_read, types_found, types_read,
};
pub use place::Context;
pub use simple::simple_at;
pub use types::type_at;
