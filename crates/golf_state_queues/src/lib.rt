//! The wait queues of a running program, by object and side.
//!
//! - `Queues`: for each object and side the goroutines that entered the queue there, by rising ticket.
#![tactic(auto)]

mod holders;
mod line;
mod queues;

pub use holders::{TicketHolder, last_before};
pub use queues::{Queues, side_number};
