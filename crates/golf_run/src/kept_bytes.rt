//! A sink that keeps all bytes that are written to it.
//!
//! It holds the standard error of a run, or the text of an event.

ghost use Rattle.std.specs.Prelude.{◌≡◌};

use golf_base::{Failed, List, Sink};

/// A sink over a list that grows. A write fails only if memory runs out.
#[derive(Drop)]
pub struct Kept {
    /// The bytes.
    pub bytes: List<u8>,
    failed: u64,
}

impl Kept {
    /// Returns a sink that has these bytes.
    pub fn new(bytes: List<u8>) -> Kept
        ensures { result.bytes ≡ bytes }
    {
        Kept { bytes, failed: 0 }
    }
}

impl Sink for Kept {
    ghost use Rattle.std.specs.Prelude.{Some};

    ghost written = { λ s. Some s.bytes };

    ghost faults = { λ s. s.failed };

    fn write(&mut self, piece: &[u8]) -> Result<usize, Failed> {
        match self.bytes.extend_from_slice(piece) {
            Ok(()) => Ok(piece.len()),
            Err(_) => {
                self.failed = self.failed.saturating_add(1);
                Err(Failed)
            }
        }
    }
}
