//! Why the tour ends before its last station.

use golf_base::Memory;
use std::io;

/// Why the tour ends before its last station.
#[derive(Debug, Drop)]
pub(crate) enum TourFault {
    /// Out of memory.
    Memory,
    /// The file cannot be read, or is too long.
    Read,
    /// The file is no file of the language.
    Refused,
    /// The output failed.
    Io(io::Error),
}

impl From<Memory> for TourFault {
    fn from(_: Memory) -> Self {
        TourFault::Memory
    }
}

impl From<io::Error> for TourFault {
    fn from(fault: io::Error) -> Self {
        TourFault::Io(fault)
    }
}
