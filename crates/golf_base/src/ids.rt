//! Numbers of goroutines and objects. They are given in order and never used again.

/// A goroutine's number. 0 is the finaliser goroutine, 1 runs `main`, and later goroutines follow
/// in order of creation. A number is never used again.
#[derive(Clone, Copy, Debug, PartialEq, Eq, PartialOrd, Ord)]
pub struct GoroutineId(pub u32);

/// An object's number, from 1 in order of creation. A number is never used again.
#[derive(Clone, Copy, Debug, PartialEq, Eq, PartialOrd, Ord)]
pub struct ObjectId(pub u32);
