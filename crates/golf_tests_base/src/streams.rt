//! Tests of sources and sinks in memory, also of those that fail.

use crate::wanted::{holds, is};
use golf_base::{
    List, MemorySink, MemorySource, ReadError, Sink, Source, WriteFault, read_file, write_all,
};
use std::alloc::Global;
use std::test::Fail;

fn list_of<T: Copy>(alloc: Global, items: &[T]) -> Result<List<T>, Fail> {
    let mut list = List::new(alloc);
    list.extend_from_slice(items)?;
    Ok(list)
}

fn source(alloc: Global, bytes: &[u8], fail: &[u32]) -> Result<MemorySource, Fail> {
    let input = list_of(alloc, bytes)?;
    Ok(MemorySource::new(input, 4, list_of(alloc, fail)?))
}

fn sink(alloc: Global, room: u32, fail: &[u32]) -> Result<MemorySink, Fail> {
    Ok(MemorySink::new(alloc, room, 4, list_of(alloc, fail)?)?)
}

#[test]
fn a_file_is_read_to_its_end(rt: HostRuntime) -> Result<(), Fail> {
    let mut source = source(rt.alloc(), b"0123456789", &[])?;
    let bytes = read_file(rt.alloc(), &mut source, 10).expect(&rt, "ten bytes fit");
    is(
        &rt,
        "the bytes",
        &bytes.as_slice(),
        &b"0123456789".as_slice(),
    );
    Ok(())
}

#[test]
fn one_byte_more_than_the_limit_is_too_long(rt: HostRuntime) -> Result<(), Fail> {
    let mut source = source(rt.alloc(), b"0123456789", &[])?;
    let error = read_file(rt.alloc(), &mut source, 9).err();
    holds(
        &rt,
        "it is too long",
        matches!(error, Some(ReadError::TooLong)),
    );
    Ok(())
}

#[test]
fn a_call_that_fails_is_a_read_fault(rt: HostRuntime) -> Result<(), Fail> {
    let mut source = source(rt.alloc(), b"0123456789", &[2])?;
    let error = read_file(rt.alloc(), &mut source, 10).err();
    holds(
        &rt,
        "a read fault",
        matches!(error, Some(ReadError::ReadFault)),
    );
    let mut part = [0u8; 8];
    let third = source.read(&mut part);
    is(
        &rt,
        "the third call goes on where the first ended",
        &third,
        &Ok(4),
    );
    is(&rt, "the bytes", &&part[..4], &&b"4567"[..]);
    Ok(())
}

#[test]
fn a_sink_takes_so_many_bytes_a_call_and_so_many_in_all(rt: HostRuntime) -> Result<(), Fail> {
    let mut sink = sink(rt.alloc(), 6, &[])?;
    is(
        &rt,
        "a write of nine bytes",
        &sink.write(b"012345678"),
        &Ok(4),
    );
    is(
        &rt,
        "a write of all",
        &write_all(&mut sink, b"abc"),
        &Err(WriteFault),
    );
    is(&rt, "the bytes", &sink.written(), &b"0123ab".as_slice());
    is(
        &rt,
        "an empty piece needs no room",
        &sink.write(b""),
        &Ok(0),
    );
    Ok(())
}

#[test]
fn a_sink_fails_at_the_calls_that_were_named(rt: HostRuntime) -> Result<(), Fail> {
    let mut sink = sink(rt.alloc(), 100, &[2])?;
    is(
        &rt,
        "a write of all",
        &write_all(&mut sink, b"0123456789"),
        &Err(WriteFault),
    );
    is(&rt, "the bytes", &sink.written(), &b"0123".as_slice());
    is(&rt, "the next write", &write_all(&mut sink, b"ab"), &Ok(()));
    is(&rt, "all bytes", &sink.written(), &b"0123ab".as_slice());
    Ok(())
}
