//! The real streams: the trusted edge of the program.
//!
//! Contracts say nothing of their bytes. They say only that a count of faults rises at each call that fails.

ghost use Rattle.std.specs.Prelude.{None, ◌<◌, IfSome, length};
ghost use Rattle.std.specs.Counts.{IsPrefixLen};

use crate::streams::{Failed, Sink, Source, one_more};
use std::io::{Read, Stderr, Stdin, Stdout, Write};

/// A stream that bytes are read from. Its count of faults rises at each read that fails.
#[derive(Drop)]
pub struct StreamSource<R> {
    input: R,
    failed: u64,
}

/// Standard input.
pub type StdSource = StreamSource<Stdin>;

impl<R> StreamSource<R> {
    /// Returns a source that reads from this stream, and has met no fault yet.
    pub fn new(input: R) -> StreamSource<R> {
        StreamSource { input, failed: 0 }
    }
}

impl<R: Read> Source for StreamSource<R> {
    ghost left = { λ _. None };

    ghost faults = { λ s. s.failed };

    fn read(&mut self, into: &mut [u8]) -> Result<usize, Failed> {
        match self.input.read(into) {
            Ok(count) => Ok(count),
            Err(_) => {
                self.failed = one_more(self.failed);
                Err(Failed)
            }
        }
    }
}

// Writes a prefix of the piece and flushes. Returns how many bytes it wrote. Returns `None` if a call failed, or if
// nothing of a piece that is not empty was taken.
fn write_and_flush<W: Write>(output: &mut W, piece: &[u8]) -> Option<usize>
    ensures bound { IfSome result (λ n. IsPrefixLen n piece.now) }
    ensures some { IfSome result (λ n. 0 < length piece.now → 0 < n) }
{
    let count = output.write(piece).ok()?;
    output.flush().ok()?;
    if count == 0 && !piece.is_empty() {
        return None;
    }
    Some(count)
}

/// A stream that bytes are written to.
///
/// Its count of faults rises at each write or flush that fails. It also rises at each write that takes nothing of a
/// piece that is not empty.
#[derive(Drop)]
pub struct StreamSink<W> {
    output: W,
    failed: u64,
}

/// Standard output.
pub type StdSink = StreamSink<Stdout>;

/// Standard error.
pub type StdErrSink = StreamSink<Stderr>;

impl<W> StreamSink<W> {
    /// Returns a sink that writes to this stream, and has met no fault yet.
    pub fn new(output: W) -> StreamSink<W> {
        StreamSink { output, failed: 0 }
    }
}

impl<W: Write> Sink for StreamSink<W> {
    ghost written = { λ _. None };

    ghost faults = { λ s. s.failed };

    fn write(&mut self, piece: &[u8]) -> Result<usize, Failed> {
        match write_and_flush(&mut self.output, piece) {
            Some(count) => Ok(count),
            None => {
                self.failed = one_more(self.failed);
                Err(Failed)
            }
        }
    }
}
