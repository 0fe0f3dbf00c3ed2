//! The goroutine whose turn it is.
//!
//! A panic and a wait name the line of its instruction. The goroutine goes on at the place after it.

use golf_base::GoroutineId;

/// The goroutine whose turn it is, at an instruction.
#[derive(Clone, Copy, Debug, PartialEq, Eq)]
pub struct Acting {
    pub goroutine: GoroutineId,
    /// The line of the instruction.
    pub line: u32,
    /// The place after the instruction.
    pub after: u32,
}
