//! Calls of the program over files in memory.

use golf_base::{List, MemorySink, MemorySource};
use golf_explore_command::explorer;
use golf_run_texts::Status;
use std::alloc::Global;
use std::process::Abort;
use std::sync::Wait;
use std::test::Fail;
use std::thread::Threads;
use std::time::Clock;

/// How many bytes a sink of the tests has room for.
const ROOM: u32 = 65_536;

/// The note that a search of the default size writes before it begins.
pub const NOTE: &str = "at most 100000 states, about 501 MB of memory\n";

/// The call of the source and of each sink that fails, by its number from 1, or 0 if none fails.
#[derive(Clone, Copy)]
pub struct Failing {
    pub source: u32,
    pub out: u32,
    pub err: u32,
}

/// No call fails.
pub const NONE: Failing = Failing {
    source: 0,
    out: 0,
    err: 0,
};

/// The words of a command line and a file, the status of the program, and the texts that it writes.
#[derive(Clone, Copy)]
pub struct Row {
    /// The fact that the row shows.
    pub shows: &'static str,
    pub line: &'static str,
    pub file: &'static str,
    pub failing: Failing,
    pub status: Status,
    pub out: &'static str,
    pub err: &'static str,
}

// A list of this one number, or the empty list if it is 0.
fn list_of(alloc: Global, call: u32) -> Result<List<u32>, Fail> {
    let mut list = List::new(alloc);
    if call != 0 {
        list.push(call)?;
    }
    Ok(list)
}

/// Returns the words of a line, which have spaces between.
pub fn words_of(alloc: Global, line: &str) -> Result<Vec<String>, Fail> {
    let mut words = Vec::new(alloc);
    for word in line.split_whitespace() {
        words.push(String::from_str(alloc, word)?)?;
    }
    Ok(words)
}

/// Returns a source of a text that gives 64 bytes a call.
pub fn source_of(alloc: Global, text: &str, fail: u32) -> Result<MemorySource, Fail> {
    let mut bytes = List::new(alloc);
    bytes.extend_from_slice(text.as_bytes())?;
    Ok(MemorySource::new(bytes, 64, list_of(alloc, fail)?))
}

/// Returns a sink that takes 16 bytes a call.
pub fn sink_of(alloc: Global, fail: u32) -> Result<MemorySink, Fail> {
    Ok(MemorySink::new(alloc, ROOM, 16, list_of(alloc, fail)?)?)
}

/// Fails the test unless the program ends and writes as the row says. With `shows` it tells how far a search is.
pub fn expect_shown<R: AllocGlobal + Abort + Threads + Wait + Sync + Clock>(
    rt: &R,
    shows: bool,
    row: &Row,
) -> Result<(), Fail> {
    let alloc = rt.alloc();
    let mut source = source_of(alloc, row.file, row.failing.source)?;
    let mut out = sink_of(alloc, row.failing.out)?;
    let mut err = sink_of(alloc, row.failing.err)?;
    let words = words_of(alloc, row.line)?;
    let status = explorer(rt, &words, shows, &mut source, &mut out, &mut err);
    assert!(rt; status == row.status, "{}", row.shows);
    assert_eq!(rt; out.written(), row.out.as_bytes(), "{}", row.shows);
    assert_eq!(rt; err.written(), row.err.as_bytes(), "{}", row.shows);
    Ok(())
}

/// Fails the test unless the program ends and writes as the row says. It tells of no progress.
pub fn expect_row<R: AllocGlobal + Abort + Threads + Wait + Sync + Clock>(
    rt: &R,
    row: &Row,
) -> Result<(), Fail> {
    expect_shown(rt, false, row)
}

/// Fails the test unless the program ends and writes as each of these rows says.
pub fn expect_rows<R: AllocGlobal + Abort + Threads + Wait + Sync + Clock>(
    rt: &R,
    rows: &[Row],
) -> Result<(), Fail> {
    for row in rows {
        expect_row(rt, row)?;
    }
    Ok(())
}
