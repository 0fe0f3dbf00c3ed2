//! Tests of words that are no command line, of refused files, and of streams that fail.

use crate::answers::TWO_SENDERS;
use crate::calls::{Failing, NONE, NOTE, Row, expect_row, expect_rows};
use golf_run_texts::Status;
use std::test::Fail;

/// The usage of the program.
pub const USAGE: &str =
    "usage: golf-explore all [--states N] < FILE\n       golf-explore search [--preemptions K] [--states N] [--seconds S] [--for leak|panic|asleep] < FILE\n       golf-explore trace [--schedule S] [--turns N] [--every N] [--markers N] [--recover] [--why] < FILE\n       golf-explore trace --threads N < FILE\n       golf-explore --version\n";

// Words that are no command line of the program.
const MISUSED: [&str; 17] = [
    "",
    "run",
    "all all",
    "all --states",
    "all --states 0",
    "all --states 1000001",
    "all --states 5 --states 5",
    "search --preemptions 17",
    "search --for leaks",
    "search --states 0",
    "trace --threads 17",
    "trace --threads 2 --every 5",
    "trace --turns 0",
    "trace all",
    "--version all",
    "all --version",
    "--versions",
];

// The source fails if it is read.
#[test]
fn words_that_are_no_line_have_the_usage_and_read_nothing(rt: HostRuntime) -> Result<(), Fail> {
    for line in &MISUSED {
        let row = Row {
            shows: *line,
            line: *line,
            file: "",
            failing: Failing {
                source: 1,
                out: 0,
                err: 0,
            },
            status: Status::Usage,
            out: "",
            err: USAGE,
        };
        expect_row(&rt, &row)?;
    }
    Ok(())
}

// The source fails if it is read.
#[test]
fn the_version_is_told_and_nothing_is_read(rt: HostRuntime) -> Result<(), Fail> {
    for (out, status, got) in &[
        (0, Status::Clean, "golf-explore 1.0.0\n"),
        (1, Status::WriteFault, ""),
        (2, Status::WriteFault, "golf-explore 1.0"),
    ] {
        let row = Row {
            shows: *got,
            line: "--version",
            file: "",
            failing: Failing {
                source: 1,
                out: *out,
                err: 0,
            },
            status: *status,
            out: *got,
            err: "",
        };
        expect_row(&rt, &row)?;
    }
    Ok(())
}

// The call of the source and of the sinks that fails, the status, and the bytes that standard error got.
const FAULTS: [(Failing, Status, &str); 4] = [
    (
        Failing {
            source: 2,
            out: 0,
            err: 0,
        },
        Status::ReadFault,
        "read fault\n",
    ),
    (
        Failing {
            source: 0,
            out: 0,
            err: 1,
        },
        Status::WriteFault,
        "",
    ),
    (
        Failing {
            source: 0,
            out: 0,
            err: 2,
        },
        Status::WriteFault,
        "at most 100000 s",
    ),
    (
        Failing {
            source: 0,
            out: 1,
            err: 0,
        },
        Status::WriteFault,
        NOTE,
    ),
];

#[test]
fn each_call_that_fails_is_told_by_the_status(rt: HostRuntime) -> Result<(), Fail> {
    for (failing, status, got) in &FAULTS {
        let row = Row {
            shows: *got,
            line: "all",
            file: TWO_SENDERS,
            failing: *failing,
            status: *status,
            out: "",
            err: *got,
        };
        expect_row(&rt, &row)?;
    }
    Ok(())
}

const REFUSED: [Row; 3] = [
    Row {
        shows: "bytes that do not lex",
        line: "all",
        file: "package main\n$",
        failing: NONE,
        status: Status::Refused,
        out: "",
        err: "refused: line 2: byte 13\n",
    },
    Row {
        shows: "tokens that are no file",
        line: "all",
        file: "package main\nfunc main() {\n",
        failing: NONE,
        status: Status::Refused,
        out: "",
        err: "refused: line 2: syntax\n",
    },
    Row {
        shows: "a broken rule",
        line: "all",
        file: "package main\nfunc main() { x }\n",
        failing: NONE,
        status: Status::Refused,
        out: "",
        err: "refused: line 2: rule 3\n",
    },
];

#[test]
fn refused_files_are_told_with_their_line(rt: HostRuntime) -> Result<(), Fail> {
    expect_rows(&rt, &REFUSED)
}
