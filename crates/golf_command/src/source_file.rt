//! Reads the file of a command line from the source.
//!
//! A file has at most 1,048,576 bytes (this runtime's rule).

ghost use Rattle.std.specs.Prelude.{IfOk};
ghost use Rattle.golf_data.specs.Places.{HasPlaces};
ghost use Rattle.golf_command.specs.Loads.{FailsSo, Fetches, Loads, LoadsTree};

use crate::ends::{end, refuse};
use golf_base::{List, ReadError, Sink, Source, read_file};
use golf_check::Checked;
use golf_data::Code;
use golf_reader::{judge, read};
use golf_run_texts::{LIMIT, NO_MEMORY, READ_FAULT, Status, TOO_LONG};
use std::alloc::Global;

// Reads the source to its end. If it cannot, it writes the reason, and returns the status.
fn fetch<S: Source, E: Sink>(alloc: Global, source: &mut S, err: &mut E) -> Result<List<u8>, Status>
    ensures fails { FailsSo result (S.left source.old) (S.faults source.old) (S.faults source.new) (E.written err.old) (E.written err.new) (E.faults err.old) (E.faults err.new) }
    ensures fetches { Fetches result (S.left source.old) (S.left source.new) (S.faults source.old) (S.faults source.new) (E.written err.old) (E.written err.new) (E.faults err.old) (E.faults err.new) }
{
    match read_file(alloc, source, LIMIT) {
        Ok(bytes) => Ok(bytes),
        Err(ReadError::ReadFault) => Err(end(err, READ_FAULT, Status::ReadFault)),
        Err(ReadError::TooLong) => Err(end(err, TOO_LONG, Status::Refused)),
        Err(ReadError::Memory) => Err(end(err, NO_MEMORY, Status::Memory)),
    }
}

/// Reads the source to its end, and returns the code of its file. If there is none, it writes a line with
/// the reason, and returns the status of the program.
///
/// The clause `loads` is for the command lines of `golf`. The clause `fails` says the same to a program
/// with other command lines.
pub fn load<S: Source, E: Sink>(alloc: Global, source: &mut S, err: &mut E) -> Result<Code, Status>
    ensures places { IfOk result HasPlaces }
    ensures fails { FailsSo result (S.left source.old) (S.faults source.old) (S.faults source.new) (E.written err.old) (E.written err.new) (E.faults err.old) (E.faults err.new) }
    ensures loads { Loads result (S.left source.old) (S.left source.new) (S.faults source.old) (S.faults source.new) (E.written err.old) (E.written err.new) (E.faults err.old) (E.faults err.new) }
{
    let bytes = match fetch(alloc, source, err) {
        Ok(bytes) => bytes,
        Err(status) => return Err(status),
    };
    match read(alloc, bytes.as_slice()) {
        Ok(code) => Ok(code),
        Err(refusal) => Err(refuse(alloc, err, refusal)),
    }
}

/// Reads the source to its end, and returns the typed tree of its file. If there is none, it writes a line
/// with the reason, and returns the status of the program.
pub(crate) fn load_tree<S: Source, E: Sink>(
    alloc: Global,
    source: &mut S,
    err: &mut E,
) -> Result<Checked, Status>
    ensures { LoadsTree result (S.left source.old) (S.left source.new) (S.faults source.old) (S.faults source.new) (E.written err.old) (E.written err.new) (E.faults err.old) (E.faults err.new) }
{
    let bytes = match fetch(alloc, source, err) {
        Ok(bytes) => bytes,
        Err(status) => return Err(status),
    };
    match judge(alloc, bytes.as_slice()) {
        Ok(checked) => Ok(checked),
        Err(refusal) => Err(refuse(alloc, err, refusal)),
    }
}
