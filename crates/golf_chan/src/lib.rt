//! Channels: the operations on them of the goroutine whose turn it is.
//!
//! Each operation reads its operands from the goroutine's innermost frame, and returns its
//! `golf_state::Outcome`.
#![tactic(auto)]

mod channel;
mod closes;
mod offers;
mod receives;
mod selects;
mod sends;

pub use closes::close;
pub use receives::receive;
pub use selects::select;
pub use sends::send;
