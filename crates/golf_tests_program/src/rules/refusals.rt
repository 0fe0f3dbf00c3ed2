//! Tests of refused files, each with its line.

use crate::calls::{Ends, Outcome, Row, expect, expect_ends, expect_rows, run_with};
use crate::runs::worked::{POOL, POOL_ERRORS, POOL_OUT};
use golf_base::{List, OpenGate};
use golf_run_texts::{LIMIT, Status, TOO_LONG};
use std::sync::Wait;
use std::test::Fail;
use std::thread::Threads;

// Bodies of `main`, whose first line is line 4, that break a rule of types.
const BODIES: [(&str, &str); 7] = [
    ("\tfmt.Println(y)\n", "refused: line 4: rule 3\n"),
    ("\tx := 1\n\tx := 2\n", "refused: line 5: rule 24\n"),
    ("\tint := 1\n", "refused: line 4: rule 2\n"),
    ("\tfmt := 1\n", "refused: line 4: rule 2\n"),
    ("\t_ := 1\n", "refused: line 4: rule 2\n"),
    ("\tx := 9223372036854775808\n", "refused: line 4: rule 19\n"),
    ("\tx:=nil\n", "refused: line 4: rule 23\n"),
];

#[test]
fn bodies_of_main_are_refused_with_their_line(rt: HostRuntime) -> Result<(), Fail> {
    for &(body, line) in BODIES.iter() {
        let file = format!(in rt.alloc();
            "package main\nimport \"fmt\"\nfunc main() {{\n{body}}}\n"
        )?;
        expect(&rt, file.as_str(), Status::Refused, "", line)?;
    }
    Ok(())
}

// Files whose bytes do not lex.
const UNLEXED: [Row; 3] = [
    Row {
        shows: "a string without an end",
        line: "run",
        file: "package main\nfunc main() {\n\tx := \"ab",
        status: Status::Refused,
        out: "",
        err: "refused: line 3: byte 36\n",
    },
    Row {
        shows: "a number that begins with a zero",
        line: "run",
        file: "\
            package main\n\
            func main() {\n\
            \tx := 01\n\
            }\n",
        status: Status::Refused,
        out: "",
        err: "refused: line 3: byte 34\n",
    },
    Row {
        shows: "an escape that is none",
        line: "run",
        file: "\
            package main\n\
            func main() {\n\
            \tx := \"a\\q\"\n\
            }\n",
        status: Status::Refused,
        out: "",
        err: "refused: line 3: byte 36\n",
    },
];

#[test]
fn bytes_that_do_not_lex_are_refused_at_their_place(rt: HostRuntime) -> Result<(), Fail> {
    expect_rows(&rt, &UNLEXED)
}

// Files that have no syntax tree.
const UNPARSED: [Row; 3] = [
    Row {
        shows: "a function literal",
        line: "run",
        file: "\
            package main\n\
            func main() {\n\
            \tx := func() {\n\
            \t}\n\
            }\n",
        status: Status::Refused,
        out: "",
        err: "refused: line 2: syntax\n",
    },
    Row {
        shows: "a keyword that is no name",
        line: "run",
        file: "\
            package main\n\
            import \"fmt\"\n\
            func main() {\n\
            \tfor := 1\n\
            }\n",
        status: Status::Refused,
        out: "",
        err: "refused: line 3: syntax\n",
    },
    Row {
        shows: "no package",
        line: "run",
        file: "",
        status: Status::Refused,
        out: "",
        err: "refused: line 1: syntax\n",
    },
];

#[test]
fn tokens_that_are_no_file_are_refused_on_a_line(rt: HostRuntime) -> Result<(), Fail> {
    expect_rows(&rt, &UNPARSED)
}

// Files that break one rule of types, or two: the first one is named.
const BROKEN: [Row; 5] = [
    Row {
        shows: "no main",
        line: "run",
        file: "package main",
        status: Status::Refused,
        out: "",
        err: "refused: line 1: rule 6\n",
    },
    Row {
        shows: "a package that is not imported",
        line: "run",
        file: "\
            package main\n\
            func main() {\n\
            \tfmt.Println(1)\n\
            }\n",
        status: Status::Refused,
        out: "",
        err: "refused: line 3: rule 3\n",
    },
    Row {
        shows: "a text for an integer",
        line: "run",
        file: "\
            package main\n\
            func main() {\n\
            \tvar x int = \"a\"\n\
            }\n",
        status: Status::Refused,
        out: "",
        err: "refused: line 3: rule 9\n",
    },
    Row {
        shows: "a send on a channel that is received from",
        line: "run",
        file: "\
            package main\n\
            func main() {\n\
            \tc := make(<-chan int)\n\
            \tc <- 1\n\
            }\n",
        status: Status::Refused,
        out: "",
        err: "refused: line 4: rule 16\n",
    },
    Row {
        shows: "the first of two rules",
        line: "run",
        file: "\
            package main\n\
            func main() {\n\
            \tx := y\n\
            \tz()\n\
            }\n\
            var g = 1 + \"a\"\n",
        status: Status::Refused,
        out: "",
        err: "refused: line 3: rule 3\n",
    },
];

#[test]
fn the_first_broken_rule_is_named_with_its_line(rt: HostRuntime) -> Result<(), Fail> {
    expect_rows(&rt, &BROKEN)
}

#[test]
fn a_file_of_one_byte_more_than_the_limit_is_too_long(rt: HostRuntime) -> Result<(), Fail> {
    let mut file = List::new(rt.alloc());
    file.extend_with(LIMIT as usize + 1, b'a')?;
    expect_ends(
        &rt,
        "run",
        file.as_slice(),
        Ends::of(4),
        Status::Refused,
        b"",
        TOO_LONG,
    )
}

// Whether a text is exactly one line of a refusal.
fn is_refusal(text: &[u8]) -> bool {
    let newlines = text.iter().filter(|byte| **byte == b'\n').count();
    newlines == 1 && text.starts_with(b"refused: ") && text.ends_with(b"\n")
}

// Whether a run of this file writes exactly one line of a refusal.
fn is_refused<R: AllocGlobal + Threads + Wait + Sync>(rt: &R, file: &[u8]) -> Result<bool, Fail> {
    let Outcome { status, out, err } = run_with(rt, "run", file, &OpenGate)?;
    Ok(status == Status::Refused && out.written().is_empty() && is_refusal(err.written()))
}

// The first `length` bytes of the pool.
fn prefix(length: usize) -> &'static [u8] {
    let (prefix, _) = POOL.as_bytes().split_at(length.min(POOL.len()));
    prefix
}

#[test]
fn each_prefix_of_the_pool_is_refused_with_one_line(rt: HostRuntime) -> Result<(), Fail> {
    for length in 0..752 {
        assert!(rt; is_refused(&rt, prefix(length))?, "{length}");
    }
    Ok(())
}

// The pool has 753 bytes. Without its last newline it means the same.
const ENDS: [(usize, Status, &str, &str); 5] = [
    (752, Status::Found, POOL_OUT, POOL_ERRORS),
    (753, Status::Found, POOL_OUT, POOL_ERRORS),
    (0, Status::Refused, "", "refused: line 1: syntax\n"),
    (6, Status::Refused, "", "refused: line 1: syntax\n"),
    (12, Status::Refused, "", "refused: line 1: rule 6\n"),
];

#[test]
fn prefixes_of_the_pool_end_so(rt: HostRuntime) -> Result<(), Fail> {
    for &(length, status, out, err) in ENDS.iter() {
        let (out, err) = (out.as_bytes(), err.as_bytes());
        expect_ends(&rt, "run", prefix(length), Ends::of(4), status, out, err)?;
    }
    Ok(())
}
