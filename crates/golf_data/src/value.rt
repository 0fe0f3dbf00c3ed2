//! Values, and the objects to which they refer.
//!
//! A value is small and copied; an object is in the heap under a number. A channel holds its
//! buffer, and no waiters.

use golf_base::{List, ObjectId};
use golf_ring::Ring;

/// The content of a slot, an operand, a field, an element or a global. An `int` has 64 bits.
#[derive(Clone, Copy, Debug, PartialEq, Eq)]
pub enum Value {
    Int(i64),
    Bool(bool),
    /// A text, by its place in the code's table of texts.
    Text(u32),
    /// The one value of `struct{}`.
    Unit,
    Nil,
    Ref(ObjectId),
}

/// An object of the heap.
#[derive(Debug, Drop)]
pub enum Object {
    /// The fields, in the order in which the type declares them.
    Struct(List<Value>),
    /// The elements.
    Slice(List<Value>),
    Chan(Channel),
    /// Whether it is locked.
    Mutex(bool),
    /// The counter of a wait group.
    Group(i64),
    /// A reader and writer mutex: -1 if a writer holds it, else the number of readers that hold it.
    Rw(i64),
    /// A condition, with the mutex that it was made with, or with nil.
    Cond(Value),
}

/// A channel. It does not hold its waiters: each goroutine holds its own waits.
#[derive(Debug, Drop)]
pub struct Channel {
    /// How many values the buffer can hold; 0 for a channel without a buffer.
    pub capacity: u32,
    /// The values that were sent and not received, the oldest first.
    pub buffer: Ring<Value>,
    pub closed: bool,
    /// The value that a receive gives if the channel is closed and empty.
    pub zero: Value,
}
