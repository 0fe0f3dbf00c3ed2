//! Tests of streams that fail, and of words that are no command line.

use crate::calls::{Ends, Row, expect_ends, expect_failing, expect_usage};
use crate::runs::basic::{EMPTY_MAIN, LEAK, LITERALS};
use crate::runs::worked::{POOL, POOL_ERRORS, POOL_OUT, POOL_RECOVERED};
use golf_run_texts::{READ_FAULT, Status};
use std::process::Abort;
use std::sync::Wait;
use std::test::Fail;
use std::thread::Threads;

// The first `length` bytes of a text, or all of it if it is shorter.
fn prefix(text: &str, length: usize) -> &[u8] {
    let bytes = text.as_bytes();
    let (prefix, _) = bytes.split_at(length.min(bytes.len()));
    prefix
}

// The pool has 753 bytes. The source gives them in 12 pieces and an end.
fn fails_to_read<R: AllocGlobal + Abort + Threads + Wait + Sync>(
    rt: &R,
    line: &str,
) -> Result<(), Fail> {
    for before in 0..13u32 {
        let ends = Ends::of(64).without_source(before + 1);
        let file = POOL.as_bytes();
        expect_ends(rt, line, file, ends, Status::ReadFault, b"", READ_FAULT)?;
    }
    Ok(())
}

#[test]
fn each_call_of_the_source_that_fails_is_a_read_fault(rt: HostRuntime) -> Result<(), Fail> {
    fails_to_read(&rt, "run")
}

#[test]
fn with_recovery_each_call_of_the_source_that_fails_is_a_read_fault(
    rt: HostRuntime,
) -> Result<(), Fail> {
    fails_to_read(&rt, "run --recover")
}

// The pool prints after its collection. The 7 bytes are written in 3 pieces.
fn fails_to_print<R: AllocGlobal + Abort + Threads + Wait + Sync>(
    rt: &R,
    line: &str,
    errors: &str,
) -> Result<(), Fail> {
    for before in 0..3u32 {
        let ends = Ends::of(3).without_sinks(before + 1, 0);
        let out = prefix(POOL_OUT, before as usize * 3);
        let (file, err) = (POOL.as_bytes(), errors.as_bytes());
        expect_ends(rt, line, file, ends, Status::WriteFault, out, err)?;
    }
    Ok(())
}

// The errors are a line of 67 bytes, written in 23 pieces, and one of 54 bytes, written in 18. Each line is
// its own write.
fn reported(before: u32) -> usize {
    if before < 23 {
        before as usize * 3
    } else {
        67 + (before as usize - 23) * 3
    }
}

fn fails_to_report<R: AllocGlobal + Abort + Threads + Wait + Sync>(
    rt: &R,
    line: &str,
    errors: &str,
) -> Result<(), Fail> {
    for before in 0..41u32 {
        let ends = Ends::of(3).without_sinks(0, before + 1);
        let err = prefix(errors, reported(before));
        let file = POOL.as_bytes();
        expect_ends(rt, line, file, ends, Status::WriteFault, b"", err)?;
    }
    Ok(())
}

#[test]
fn each_call_of_a_sink_that_fails_cuts_its_text(rt: HostRuntime) -> Result<(), Fail> {
    fails_to_print(&rt, "run", POOL_ERRORS)?;
    fails_to_report(&rt, "run", POOL_ERRORS)
}

#[test]
fn with_recovery_each_call_of_a_sink_that_fails_cuts_its_text(rt: HostRuntime) -> Result<(), Fail> {
    fails_to_print(&rt, "run --recover", POOL_RECOVERED)?;
    fails_to_report(&rt, "run --recover", POOL_RECOVERED)
}

// A read that fails in mid-stream.
const FAILED_READ: [(Ends, Row); 1] = [(
    Ends {
        most: 4,
        source: 2,
        out: 0,
        err: 0,
    },
    Row {
        shows: "the second read of an empty main fails",
        line: "run",
        file: EMPTY_MAIN,
        status: Status::ReadFault,
        out: "",
        err: "read fault\n",
    },
)];

#[test]
fn a_read_that_fails_is_told_alone(rt: HostRuntime) -> Result<(), Fail> {
    expect_failing(&rt, &FAILED_READ)
}

// The texts that are left after a failed write.
const FAILED_WRITES: [(Ends, Row); 7] = [
    (
        Ends {
            most: 4,
            source: 0,
            out: 2,
            err: 0,
        },
        Row {
            shows: "the second write of printed literals fails",
            line: "run",
            file: LITERALS,
            status: Status::WriteFault,
            out: "1 tr",
            err: "",
        },
    ),
    (
        Ends {
            most: 4,
            source: 0,
            out: 1,
            err: 0,
        },
        Row {
            shows: "the first write of the output fails",
            line: "run",
            file: LEAK,
            status: Status::WriteFault,
            out: "",
            err: "",
        },
    ),
    (
        Ends {
            most: 4,
            source: 0,
            out: 0,
            err: 3,
        },
        Row {
            shows: "the third write of the report fails",
            line: "run",
            file: LEAK,
            status: Status::WriteFault,
            out: "1\n",
            err: "collecti",
        },
    ),
    (
        Ends {
            most: 4,
            source: 0,
            out: 0,
            err: 19,
        },
        Row {
            shows: "the second write of the second line fails",
            line: "run --recover",
            file: LEAK,
            status: Status::WriteFault,
            out: "1\n",
            err: "collection 1: marked 0, reported 1, kept 0, reclaimed 1, objects 0\ngoro",
        },
    ),
    (
        Ends {
            most: 4,
            source: 0,
            out: 0,
            err: 2,
        },
        Row {
            shows: "the second write of a spent run fails",
            line: "run --turns=2",
            file: EMPTY_MAIN,
            status: Status::WriteFault,
            out: "",
            err: "stop",
        },
    ),
    (
        Ends {
            most: 4,
            source: 0,
            out: 0,
            err: 4,
        },
        Row {
            shows: "the fourth write of a refusal fails",
            line: "run",
            file: "package main",
            status: Status::WriteFault,
            out: "",
            err: "refused: lin",
        },
    ),
    (
        Ends {
            most: 4,
            source: 0,
            out: 0,
            err: 2,
        },
        Row {
            shows: "the second write of the usage fails",
            line: "",
            file: EMPTY_MAIN,
            status: Status::WriteFault,
            out: "",
            err: "usag",
        },
    ),
];

#[test]
fn nothing_is_written_after_a_write_that_failed(rt: HostRuntime) -> Result<(), Fail> {
    expect_failing(&rt, &FAILED_WRITES)
}

// Words that are no command line of the program.
const NO_LINES: [&str; 18] = [
    "",
    "Run",
    "run run",
    "run --markers 17",
    "run --recover --recover",
    "run --turns=0",
    "run --turns --",
    "run --turns=000000000000000000003",
    "generate 0",
    "run --threads",
    "run --threads 0",
    "run --threads=17",
    "run --threads=2 --threads=2",
    "run --threads=2 --recover",
    "run --why --why",
    "run --why=1",
    "generate 3 --why",
    "run --why --threads 2",
];

#[test]
fn words_that_are_no_line_are_refused_and_nothing_is_read(rt: HostRuntime) -> Result<(), Fail> {
    expect_usage(&rt, &NO_LINES)
}
