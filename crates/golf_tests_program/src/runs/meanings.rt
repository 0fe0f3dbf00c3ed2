//! Tests of the command line `meaning`: the number of functions that agree with their source, and the other
//! ends.

use crate::calls::{Ends, Row, expect_failing, expect_rows, expect_usage};
use crate::runs::basic::EMPTY_MAIN;
use crate::runs::worked::POOL;
use golf_run_texts::Status;
use std::test::Fail;

const AGREE: &str = "meaning: 5 functions agree\n";

// Files whose functions agree with their source.
const AGREEING: [Row; 5] = [
    Row {
        shows: "the five functions of the worker pool agree",
        line: "meaning",
        file: POOL,
        status: Status::Clean,
        out: AGREE,
        err: "",
    },
    Row {
        shows: "the five functions of the worker pool agree after the end of the options",
        line: "meaning --",
        file: POOL,
        status: Status::Clean,
        out: AGREE,
        err: "",
    },
    Row {
        shows: "a file of main alone has one function",
        line: "meaning",
        file: EMPTY_MAIN,
        status: Status::Clean,
        out: "meaning: 1 functions agree\n",
        err: "",
    },
    // A function that is made for `go` of a built-in operation does not count as a function of the file.
    Row {
        shows: "a file with a method and a deferred close has two functions",
        line: "meaning",
        file: "\
            package main\n\
            type T struct {\n\
            \tn int\n\
            }\n\
            func (t *T) up() {\n\
            \tt.n = t.n + 1\n\
            }\n\
            func main() {\n\
            \tc := make(chan int)\n\
            \tdefer close(c)\n\
            \tt := &T{n: 1}\n\
            \tt.up()\n\
            }\n",
        status: Status::Clean,
        out: "meaning: 2 functions agree\n",
        err: "",
    },
    // This file would run for ever.
    Row {
        shows: "nothing is run",
        line: "meaning",
        file: "\
            package main\n\
            import \"fmt\"\n\
            func main() {\n\
            \tfor {\n\
            \t\tfmt.Println(1)\n\
            \t}\n\
            }\n",
        status: Status::Clean,
        out: "meaning: 1 functions agree\n",
        err: "",
    },
];

#[test]
fn meaning_lines_tell_how_many_functions_agree(rt: HostRuntime) -> Result<(), Fail> {
    expect_rows(&rt, &AGREEING)
}

// Files that are refused.
const REFUSED: [Row; 2] = [
    Row {
        shows: "a file without main",
        line: "meaning",
        file: "package main",
        status: Status::Refused,
        out: "",
        err: "refused: line 1: rule 6\n",
    },
    Row {
        shows: "an empty file",
        line: "meaning",
        file: "",
        status: Status::Refused,
        out: "",
        err: "refused: line 1: syntax\n",
    },
];

#[test]
fn a_file_of_a_meaning_line_may_be_refused(rt: HostRuntime) -> Result<(), Fail> {
    expect_rows(&rt, &REFUSED)
}

// Calls of the source and of `out` that fail. The line has 27 bytes, and 27 calls write it.
const FAILING: [(Ends, Row); 4] = [
    (
        Ends {
            most: 64,
            source: 1,
            out: 0,
            err: 0,
        },
        Row {
            shows: "a source that fails is a read fault",
            line: "meaning",
            file: POOL,
            status: Status::ReadFault,
            out: "",
            err: "read fault\n",
        },
    ),
    (
        Ends {
            most: 1,
            source: 0,
            out: 1,
            err: 0,
        },
        Row {
            shows: "no byte is written",
            line: "meaning",
            file: POOL,
            status: Status::WriteFault,
            out: "",
            err: "",
        },
    ),
    (
        Ends {
            most: 1,
            source: 0,
            out: 9,
            err: 0,
        },
        Row {
            shows: "eight bytes are written",
            line: "meaning",
            file: POOL,
            status: Status::WriteFault,
            out: "meaning:",
            err: "",
        },
    ),
    (
        Ends {
            most: 1,
            source: 0,
            out: 27,
            err: 0,
        },
        Row {
            shows: "all but the newline is written",
            line: "meaning",
            file: POOL,
            status: Status::WriteFault,
            out: "meaning: 5 functions agree",
            err: "",
        },
    ),
];

#[test]
fn a_stream_that_fails_on_a_meaning_line_is_told(rt: HostRuntime) -> Result<(), Fail> {
    expect_failing(&rt, &FAILING)
}

// The program does not read the failing source.
#[test]
fn other_words_beside_meaning_read_nothing(rt: HostRuntime) -> Result<(), Fail> {
    expect_usage(&rt, &["meaning x", "meaning -- --"])
}
