//! The writer of the code of expressions: from a tree and its facts to flat parts, in one walk from left to right.
#![tactic(auto)]

mod calls;
mod expressions;
mod facts;
mod names;
mod operators;
mod places;
mod values;
mod writer;

pub use calls::operation;
pub use expressions::expression;
pub use facts::Facts;
pub use names::store;
pub use places::{LeftSide, left_side, read, twice, write};
pub use values::{base_zero, count, push, zero_value};
pub use writer::{Draft, Writer};
