//! The report of a collection, and the book of all collections so far.

ghost use Rattle.std.specs.Prelude.{◌≡◌, []};

use crate::goroutine::WaitKind;
use golf_base::{GoroutineId, List};
use std::alloc::Global;

/// A goroutine that can never run again, as a report lists it.
#[derive(Clone, Copy, Debug, PartialEq, Eq)]
pub struct Entry {
    pub goroutine: GoroutineId,
    pub wait: WaitKind,
    /// The line of the instruction that blocked.
    pub line: u32,
    /// The line where the goroutine was started.
    pub started: u32,
}

/// What one collection found and did.
#[derive(Debug, Drop)]
pub struct Report {
    /// The collection's number, from 1.
    pub number: u32,
    /// How many objects are live.
    pub marked: u32,
    /// The dead goroutines that no earlier collection reported, in rising number.
    pub reported: List<Entry>,
    /// How many dead goroutines the collection did not remove.
    pub kept: u32,
    /// How many goroutines this collection removed.
    pub reclaimed: u32,
    /// How many objects the collection left.
    pub objects: u32,
}

/// What all collections so far have reported.
#[derive(Debug, Drop)]
pub struct Book {
    /// How many collections there were.
    pub collections: u32,
    /// The goroutines that were reported, in that order.
    pub reported: List<GoroutineId>,
    /// The goroutines that were removed, in that order.
    pub reclaimed: List<GoroutineId>,
}

impl Book {
    /// Returns the book before the first collection: nothing reported, nothing reclaimed.
    pub fn new(alloc: Global) -> Book
        ensures { result ≡ record { collections = 0; reported = []; reclaimed = [] } }
    {
        Book {
            collections: 0,
            reported: List::new(alloc),
            reclaimed: List::new(alloc),
        }
    }
}
