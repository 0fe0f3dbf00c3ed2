//! The machine: the state before the first turn of a code, one turn, and turns in one batch.
//!
//! - `start`, `turn`: the opening state, and one step of it.
//! - `whose_turn`, `line_at`, `return_line`: who takes the next step, and at which line.
//! - `take_turns`: turns until the program prints, collects or ends.
#![tactic(auto)]

mod arithmetic;
mod batches;
mod finalisers;
mod frame_ends;
mod goroutine_turn;
mod inner_batches;
mod innermost_turns;
mod instructions;
mod new_frames;
mod numbers;
mod printed_lines;
mod structures;
mod turns;
mod values;
mod within;

pub use batches::take_turns;
pub use goroutine_turn::{line_at, return_line};
pub use numbers::Numbers;
pub use turns::{Turned, start, turn, whose_turn};
