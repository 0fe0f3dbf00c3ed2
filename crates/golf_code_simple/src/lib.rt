//! The code of statements that contain no other statement and need no function to be made, written by their facts.
#![tactic(auto)]

mod communications;
mod names;
mod ranges;
mod simple_statements;
mod variables;

pub use communications::{communication, operands};
pub use ranges::{channel_name, slice_names};
pub use simple_statements::{optional, simple};
pub use variables::{returned, variable};
