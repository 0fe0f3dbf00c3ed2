//! Calls of the program over files in memory.

use golf_base::{Gate, List, MemorySink, MemorySource, OpenGate};
use golf_command::golf;
use golf_run_texts::{Status, USAGE};
use std::alloc::Global;
use std::process::Abort;
use std::str;
use std::sync::Wait;
use std::test::Fail;
use std::thread::Threads;

/// How many bytes a sink of the tests has room for.
const ROOM: u32 = 1_048_576;

/// The status of a call, and the two sinks after it.
#[derive(Drop)]
pub struct Outcome {
    pub status: Status,
    pub out: MemorySink,
    pub err: MemorySink,
}

/// How many bytes the source and the sinks give or take in one call, and the call of each that fails. Calls
/// count from 1, and 0 means that none fails.
#[derive(Clone, Copy)]
pub struct Ends {
    pub most: u32,
    pub source: u32,
    pub out: u32,
    pub err: u32,
}

impl Ends {
    /// Returns ends that do not fail.
    pub fn of(most: u32) -> Ends {
        Ends {
            most,
            source: 0,
            out: 0,
            err: 0,
        }
    }

    /// Returns the same ends, except that this call of the source fails.
    pub fn without_source(self, call: u32) -> Ends {
        Ends {
            most: self.most,
            source: call,
            out: self.out,
            err: self.err,
        }
    }

    /// Returns the same ends, except that these calls of the two sinks fail.
    pub fn without_sinks(self, out: u32, err: u32) -> Ends {
        Ends {
            most: self.most,
            source: self.source,
            out,
            err,
        }
    }
}

// A list of this one number, or the empty list if it is 0.
fn list_of(alloc: Global, call: u32) -> Result<List<u32>, Fail> {
    let mut list = List::new(alloc);
    if call != 0 {
        list.push(call)?;
    }
    Ok(list)
}

// The words of a line, which have spaces between.
fn words_of(alloc: Global, line: &str) -> Result<Vec<String>, Fail> {
    let mut words = Vec::new(alloc);
    for word in line.split_whitespace() {
        words.push(String::from_str(alloc, word)?)?;
    }
    Ok(words)
}

/// Calls the program with the words of this line, over a file in memory, with these ends. Its markers pass
/// the gate.
pub fn call<R: AllocGlobal + Threads + Wait + Sync, G: Gate + Sync>(
    rt: &R,
    line: &str,
    file: &[u8],
    ends: Ends,
    gate: &G,
) -> Result<Outcome, Fail> {
    let alloc = rt.alloc();
    let most = ends.most.max(1);
    let mut bytes = List::new(alloc);
    bytes.extend_from_slice(file)?;
    let mut source = MemorySource::new(bytes, most, list_of(alloc, ends.source)?);
    let mut out = MemorySink::new(alloc, ROOM, most, list_of(alloc, ends.out)?)?;
    let mut err = MemorySink::new(alloc, ROOM, most, list_of(alloc, ends.err)?)?;
    let words = words_of(alloc, line)?;
    let status = golf(rt, &words, &mut source, &mut out, &mut err, gate);
    Ok(Outcome { status, out, err })
}

/// Calls the program with the words of this line over this file, with ends that take four bytes a call and
/// do not fail.
pub fn run_with<R: AllocGlobal + Threads + Wait + Sync, G: Gate + Sync>(
    rt: &R,
    line: &str,
    file: &[u8],
    gate: &G,
) -> Result<Outcome, Fail> {
    call(rt, line, file, Ends::of(4), gate)
}

// Fails the test unless a call ended so and wrote these texts.
fn is_so(rt: &impl Abort, shows: &str, got: &Outcome, status: Status, out: &[u8], err: &[u8]) {
    assert!(rt; got.status == status, "{shows}");
    assert_eq!(rt; got.out.written(), out, "{shows}");
    assert_eq!(rt; got.err.written(), err, "{shows}");
}

/// Fails the test unless the program, with the words of this line over this file and with these ends, ends
/// so and writes these texts.
pub fn expect_ends<R: AllocGlobal + Abort + Threads + Wait + Sync>(
    rt: &R,
    line: &str,
    file: &[u8],
    ends: Ends,
    status: Status,
    out: &[u8],
    err: &[u8],
) -> Result<(), Fail> {
    let got = call(rt, line, file, ends, &OpenGate)?;
    let text = str::from_utf8(file).unwrap_or("bytes");
    is_so(rt, text, &got, status, out, err);
    Ok(())
}

/// Fails the test unless a run of this file ends so, and writes this output and these errors.
pub fn expect<R: AllocGlobal + Abort + Threads + Wait + Sync>(
    rt: &R,
    file: &str,
    status: Status,
    out: &str,
    err: &str,
) -> Result<(), Fail> {
    let (file, out, err) = (file.as_bytes(), out.as_bytes(), err.as_bytes());
    expect_ends(rt, "run", file, Ends::of(4), status, out, err)
}

/// The words of a command line and a file, the status of the program, and the texts that it writes.
#[derive(Clone, Copy)]
pub struct Row {
    /// The fact that the row shows.
    pub shows: &'static str,
    pub line: &'static str,
    pub file: &'static str,
    pub status: Status,
    pub out: &'static str,
    pub err: &'static str,
}

// Fails the test unless the program, with these ends, ends and writes as this row says.
fn expect_row<R: AllocGlobal + Abort + Threads + Wait + Sync>(
    rt: &R,
    row: &Row,
    ends: Ends,
) -> Result<(), Fail> {
    let got = call(rt, row.line, row.file.as_bytes(), ends, &OpenGate)?;
    let (out, err) = (row.out.as_bytes(), row.err.as_bytes());
    is_so(rt, row.shows, &got, row.status, out, err);
    Ok(())
}

/// Fails the test unless the program ends and writes as each of these rows says. Its ends take four bytes a
/// call and do not fail.
pub fn expect_rows<R: AllocGlobal + Abort + Threads + Wait + Sync>(
    rt: &R,
    rows: &[Row],
) -> Result<(), Fail> {
    for row in rows {
        expect_row(rt, row, Ends::of(4))?;
    }
    Ok(())
}

/// Fails the test unless the program ends and writes as each of these rows says, with the ends of the row.
pub fn expect_failing<R: AllocGlobal + Abort + Threads + Wait + Sync>(
    rt: &R,
    rows: &[(Ends, Row)],
) -> Result<(), Fail> {
    for (ends, row) in rows {
        expect_row(rt, row, *ends)?;
    }
    Ok(())
}

/// Fails the test unless each of these lines is no command line: the program says so, and reads nothing of
/// a source that fails.
pub fn expect_usage<R: AllocGlobal + Abort + Threads + Wait + Sync>(
    rt: &R,
    lines: &[&str],
) -> Result<(), Fail> {
    for line in lines {
        let ends = Ends::of(4).without_source(1);
        let got = call(rt, *line, b"", ends, &OpenGate)?;
        is_so(rt, *line, &got, Status::Usage, b"", USAGE);
    }
    Ok(())
}
