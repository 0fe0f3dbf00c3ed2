//! The streams that a program reads from and writes to, and the gate that markers pass.
//!
//! The main word is the count of faults. A stream counts each call that fails, so that a caller
//! which reports a fault can be checked against the count.

ghost use Rattle.std.specs.Prelude.{◌≡◌, ◌<◌, ◌≤◌, List, ℕ, length, Option, IfOk, IsErrOf, OnOk};
ghost use Rattle.std.specs.Io.{ReadsAtMost, WritesAtMost};
ghost use Rattle.std.specs.Io.KnownBytes.{Appends, Consumes, IsAtEnd, ReadConsumes, WriteAppends};
ghost use Rattle.golf_base.specs.Causes.{next_fault, Rose, HasCause, ReadsSome, WritesPrefix};
ghost use Rattle.golf_base.specs.ReadCause.{ReadCause};
ghost use Rattle.golf_base.specs.declared.streams.ReadError.TheVariants as errors;

use crate::{List, Memory};
use std::alloc::Global;

/// A call of a source or a sink failed.
#[derive(Clone, Copy, Debug, PartialEq, Eq)]
pub struct Failed;

/// A sink failed.
#[derive(Clone, Copy, Debug, PartialEq, Eq)]
pub struct WriteFault;

/// Why a file could not be read.
#[derive(Clone, Copy, Debug, PartialEq, Eq)]
pub enum ReadError {
    ReadFault,
    TooLong,
    Memory,
}

impl From<Memory> for ReadError {
    ghost from_gives = { λ _ e. e ≡ errors.Memory };

    fn from(_: Memory) -> Self {
        ReadError::Memory
    }
}

impl From<Failed> for ReadError {
    ghost from_gives = { λ _ e. e ≡ errors.ReadFault };

    fn from(_: Failed) -> Self {
        ReadError::ReadFault
    }
}

impl From<Failed> for WriteFault {
    fn from(_: Failed) -> Self {
        WriteFault
    }
}

/// A stream that bytes are read from.
pub trait Source {
    /// The bytes that are left, if the source makes them known.
    ghost left: { Self → Option (List ℕ) };

    /// How often the source has failed.
    ghost faults: { Self → ℕ };

    /// Takes bytes from the front of those left and returns how many. It takes none only at the end
    /// of input or on `Err`.
    fn read(&mut self, into: &mut [u8]) -> Result<usize, Failed>
        requires { 0 < length into.old }
        ensures bound { ReadsAtMost result into.new }
        ensures bytes { ReadConsumes (left self.old) (left self.new) result into.new }
        ensures cause { HasCause (faults self.old) (faults self.new) result };
}

/// A stream that bytes are written to.
pub trait Sink {
    /// The bytes that were written, if the sink makes them known.
    ghost written: { Self → Option (List ℕ) };

    /// How often the sink has failed.
    ghost faults: { Self → ℕ };

    /// Appends a prefix of the piece and returns its length, which is 0 only if the piece is empty.
    fn write(&mut self, piece: &[u8]) -> Result<usize, Failed>
        ensures bound { WritesAtMost result piece.now }
        ensures some { IfOk result (λ n. 0 < length piece.now → 0 < n) }
        ensures bytes { WriteAppends (written self.old) (written self.new) result piece.now }
        ensures cause { HasCause (faults self.old) (faults self.new) result };
}

/// A call that each marker makes before each of its turns.
pub trait Gate {
    fn pass(&self, marker: u32, turn: u64);
}

/// A gate that does nothing.
#[derive(Clone, Copy, Debug)]
pub struct OpenGate;

impl Gate for OpenGate {
    fn pass(&self, _marker: u32, _turn: u64) {}
}

// Returns the count of faults after one more. The last value of the type stays as it is.
pub(crate) fn one_more(faults: u64) -> u64
    ensures next { result ≡ next_fault faults }
    ensures later { faults ≤ result }
    ensures rose { Rose faults result }
{
    faults.saturating_add(1)
}

/// Returns all bytes up to the end of input. If there are more than `limit` bytes it returns
/// `TooLong`.
pub fn read_file<S: Source>(
    alloc: Global,
    source: &mut S,
    limit: u32,
) -> Result<List<u8>, ReadError>
    // All bytes that were left, and no more than the limit.
    ensures ok { IfOk result (λ bytes. Consumes (S.left source.old) (S.left source.new) bytes) }
    ensures at_end { OnOk result (IsAtEnd (S.left source.new)) }
    ensures within { IfOk result (λ bytes. length bytes ≤ limit) }

    // `TooLong` is returned only if there were more bytes than the limit.
    ensures too_long { IsErrOf result ReadError.TooLong → ReadsSome (S.left source.old) (S.left source.new) limit }

    // The result is `ReadFault` only if the source has failed. Otherwise the count stays the same.
    ensures cause { ReadCause result (S.faults source.old) (S.faults source.new) }
    ensures later { S.faults source.old ≤ S.faults source.new }
{
    let mut bytes = List::new(alloc);
    let mut part = [0u8; 4096];
    while bytes.len() <= limit as usize {
        let count = source.read(&mut part)?;
        if count == 0 {
            return Ok(bytes);
        }
        bytes.extend_from_slice(&part[..count])?;
    }
    Err(ReadError::TooLong)
}

/// Writes the whole piece. On `Err` the sink has a prefix of it. It takes no memory.
pub fn write_all<K: Sink>(sink: &mut K, piece: &[u8]) -> Result<(), WriteFault>
    ensures ok { OnOk result (Appends (K.written sink.old) (K.written sink.new) piece.now) }
    ensures prefix { WritesPrefix (K.written sink.old) (K.written sink.new) piece.now }

    // An error comes only if the sink has failed. Without an error the count stays the same.
    ensures cause { HasCause (K.faults sink.old) (K.faults sink.new) result }
{
    let mut at = 0;
    while at < piece.len() {
        let (_, rest) = piece.split_at(at);
        at += sink.write(rest)?;
    }
    Ok(())
}
