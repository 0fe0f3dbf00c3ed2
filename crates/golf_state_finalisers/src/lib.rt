//! The finalisers of a running program, in rising order of their objects' numbers.
//!
//! - `Finalisers`: all of them, in blocks of at most 512. A call that sets or takes one finaliser moves
//!   at most the others of its block. If it makes or removes a block, it moves the later blocks too.
#![tactic(auto)]

mod finalisers;
mod walks;

pub use finalisers::Finalisers;
