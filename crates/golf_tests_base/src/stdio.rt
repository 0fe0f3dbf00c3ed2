//! Tests of the real streams, over a reader and a writer that take few bytes a call and fail at a given
//! call.

use crate::wanted::{holds, is};
use golf_base::{
    Failed, List, ReadError, Sink, Source, StreamSink, StreamSource, WriteFault, read_file,
    write_all,
};
use std::alloc::Global;
use std::io;
use std::io::{Read, Write};

/// A reader that gives at most `most` bytes a call. The call with the number `fails`, from 1, fails.
#[derive(Drop)]
struct Giver<'a> {
    left: &'a [u8],
    most: usize,
    calls: u32,
    fails: u32,
}

impl Read for Giver<'_> {
    fn read(&mut self, into: &mut [u8]) -> io::Result<usize> {
        self.calls = self.calls.saturating_add(1);
        if self.calls == self.fails {
            return Err(io::Error::from(io::ErrorKind::WouldBlock));
        }
        let count = self.most.min(into.len()).min(self.left.len());
        let (given, left) = self.left.split_at(count);
        into[..count].copy_from_slice(given);
        self.left = left;
        Ok(count)
    }
}

/// A writer that takes at most `most` bytes a call. The write and the flush with these numbers, from 1,
/// fail.
#[derive(Drop)]
struct Taker {
    taken: Vec<u8>,
    most: usize,
    writes: u32,
    fails: u32,
    flushes: u32,
    flush_fails: u32,
}

impl Write for Taker {
    fn write(&mut self, piece: &[u8]) -> io::Result<usize> {
        self.writes = self.writes.saturating_add(1);
        if self.writes == self.fails {
            return Err(io::Error::from(io::ErrorKind::WouldBlock));
        }
        let count = self.most.min(piece.len());
        self.taken.extend_from_slice(&piece[..count])?;
        Ok(count)
    }

    fn flush(&mut self) -> io::Result<()> {
        self.flushes = self.flushes.saturating_add(1);
        if self.flushes == self.flush_fails {
            return Err(io::Error::from(io::ErrorKind::WouldBlock));
        }
        Ok(())
    }
}

const TEN: &[u8] = b"0123456789";

fn reader_of(most: usize, fails: u32) -> Giver<'static> {
    Giver {
        left: TEN,
        most,
        calls: 0,
        fails,
    }
}

fn writer_of(alloc: Global, most: usize, fails: u32, flush_fails: u32) -> Taker {
    Taker {
        taken: Vec::new(alloc),
        most,
        writes: 0,
        fails,
        flushes: 0,
        flush_fails,
    }
}

// Reads ten bytes from a reader of at most `most` bytes a call. The call with the number `fails` fails,
// unless that is 0.
fn read_ten(alloc: Global, most: usize, fails: u32) -> Result<List<u8>, ReadError> {
    let mut source = StreamSource::new(reader_of(most, fails));
    read_file(alloc, &mut source, 10)
}

#[test]
fn a_source_goes_on_to_the_end_of_a_reader_that_gives_one_byte_a_call(rt: HostRuntime) {
    let bytes = read_ten(rt.alloc(), 1, 0).expect(&rt, "ten bytes fit");
    is(&rt, "the bytes", &bytes.as_slice(), &TEN);
}

// Ten calls give a byte each. The eleventh call would give the end.
#[test]
fn a_read_that_fails_is_no_end(rt: HostRuntime) {
    for before in 0..11u32 {
        let error = read_ten(rt.alloc(), 1, before + 1).err();
        holds(
            &rt,
            "a read fault",
            matches!(error, Some(ReadError::ReadFault)),
        );
    }
}

#[test]
fn after_a_read_that_failed_a_source_goes_on(rt: HostRuntime) {
    let mut source = StreamSource::new(reader_of(4, 2));
    let mut part = [0u8; 8];
    is(&rt, "the first read", &source.read(&mut part), &Ok(4));
    is(
        &rt,
        "the one that fails",
        &source.read(&mut part),
        &Err(Failed),
    );
    is(&rt, "the one after it", &source.read(&mut part), &Ok(4));
    is(&rt, "the bytes", &&part[..4], &&b"4567"[..]);
}

#[test]
fn a_short_write_counts_what_was_taken(rt: HostRuntime) {
    let mut writer = writer_of(rt.alloc(), 3, 0, 0);
    let mut sink = StreamSink::new(&mut writer);
    is(&rt, "a write of ten bytes", &sink.write(TEN), &Ok(3));
    is(
        &rt,
        "an empty piece is taken whole",
        &sink.write(b""),
        &Ok(0),
    );
}

// Writes ten bytes to a writer of one byte a call. Returns whether all were written, and the bytes that it
// took.
fn written(alloc: Global, fails: u32, flush_fails: u32) -> (Result<(), WriteFault>, Vec<u8>) {
    let mut writer = writer_of(alloc, 1, fails, flush_fails);
    let mut sink = StreamSink::new(&mut writer);
    let got = write_all(&mut sink, TEN);
    (got, writer.taken)
}

#[test]
fn all_is_written_to_a_writer_that_takes_one_byte_a_call(rt: HostRuntime) {
    let (got, taken) = written(rt.alloc(), 0, 0);
    is(&rt, "the writing", &got, &Ok(()));
    is(&rt, "the bytes", &taken.as_slice(), &TEN);
}

#[test]
fn a_write_that_fails_is_told_and_nothing_is_written_after_it(rt: HostRuntime) {
    for before in 0..10u32 {
        let (got, taken) = written(rt.alloc(), before + 1, 0);
        is(&rt, "the writing", &got, &Err(WriteFault));
        is(
            &rt,
            "the bytes",
            &taken.as_slice(),
            &&TEN[..before as usize],
        );
    }
}

#[test]
fn a_flush_that_fails_is_told_and_nothing_is_written_after_it(rt: HostRuntime) {
    for before in 0..10u32 {
        let (got, taken) = written(rt.alloc(), 0, before + 1);
        is(&rt, "the writing", &got, &Err(WriteFault));
        is(
            &rt,
            "the bytes",
            &taken.as_slice(),
            &&TEN[..before as usize + 1],
        );
    }
}

#[test]
fn a_write_that_takes_nothing_fails(rt: HostRuntime) {
    let mut writer = writer_of(rt.alloc(), 0, 0, 0);
    let mut sink = StreamSink::new(&mut writer);
    is(&rt, "a write", &sink.write(TEN), &Err(Failed));
    is(
        &rt,
        "a write of all",
        &write_all(&mut sink, TEN),
        &Err(WriteFault),
    );
}
