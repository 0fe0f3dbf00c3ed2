//! The base of every layer: numbers, lists, boxes, and the streams of the program.
//!
//! - `GoroutineId`, `ObjectId`: numbers that are given in order and never used again.
//! - `List`: a vector, which contracts see as a list.
//! - `Room`: a vector, which contracts see as a list with its spare room.
//! - `Boxed`: a box, which contracts see as its value.
//! - `Source`, `Sink`: the streams that a program reads from and writes to. Each has an
//!   implementation in memory and a real one.
//! - `Gate`: each marker passes it before each of its turns.
#![tactic(auto)]

mod boxed;
mod ids;
mod in_memory;
mod list;
mod room;
mod stdio;
mod streams;

pub use boxed::Boxed;
pub use ids::{GoroutineId, ObjectId};
pub use in_memory::{MemorySink, MemorySource};
pub use list::List;
pub use room::Room;
use std::alloc::{AllocError, AllocFailed};
pub use stdio::{StdErrSink, StdSink, StdSource, StreamSink, StreamSource};
pub use streams::{
    Failed, Gate, OpenGate, ReadError, Sink, Source, WriteFault, read_file, write_all,
};

/// Out of memory.
///
/// No clause ties this error to a cause. A call that returns it still says which state it leaves.
/// Tests show that it does not come if memory is ample.
#[derive(Clone, Copy, Debug, PartialEq, Eq)]
pub struct Memory;

impl From<AllocError> for Memory {
    fn from(_: AllocError) -> Self {
        Memory
    }
}

impl<T: Drop> From<AllocFailed<T>> for Memory {
    fn from(_: AllocFailed<T>) -> Self {
        Memory
    }
}
