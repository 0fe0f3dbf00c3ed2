//! Whether two parts of a state are the same: values, frames, goroutines, objects, channels, heaps.
//!
//! Each answer is true exactly when contracts see both parts as equal. Contracts do not see the room
//! that a frame has for further operands.
#![tactic(auto)]

mod frames;
mod goroutines;
mod heaps;
mod objects;
mod values;

pub use frames::{is_same_frame, same_frames};
pub use goroutines::{is_same_goroutine, is_same_mode};
pub use heaps::is_same_heap;
pub use objects::{is_same_channel, is_same_object};
pub use values::{is_same_value, same_values};
