//! The state of a running program, which contracts see as the state of the plain machine.
//!
//! - `State`: globals, objects, goroutines, the finaliser queue, the output, and the recorded ending. It
//!   caches the list of the goroutines that run and the wait queues.
//! - `Runnable`: the goroutines that can run.
//! - `Waiting`, `Given`: a goroutine that waits on an object, and the values that it gets when it goes on.
//! - `Acting`: the goroutine whose turn it is.
//! - `advance_with`, `enter`, `return_frame` and their kin: changes of a goroutine's frames.
#![tactic(auto)]

mod actor;
mod calls;
mod cleared_slots;
mod equality;
mod finaliser_queue;
mod frames;
mod operands;
mod outcome;
mod places;
mod runnable;
mod state;
mod waiters;
mod wake_all;
mod wake_causes;

pub use actor::Acting;
pub use calls::{enter, enter_deferred, return_frame, unwind_caller};
pub use frames::{Given, Wakening, advance, advance_with, begin_return, defer, exchange, unwind};
pub use operands::{
    Reference, bool_in, int_in, last_operand, last_operands, last_three_operands, reference_in,
    text_in,
};
pub use outcome::{
    Outcome, block_at, block_on, carry_out, fault, make_onto, make_over, proceed, proceed_with,
};
pub use runnable::Runnable;
pub use state::State;
pub use waiters::Waiting;
pub use wake_causes::{Waking, received};
