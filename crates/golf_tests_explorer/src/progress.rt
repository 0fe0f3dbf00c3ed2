//! Tests of a search that takes long: the lines that tell how far it is, and the end of its time.

use crate::calls::{Failing, NONE, NOTE, Row, expect_row, expect_shown};
use golf_run_texts::Status;
use std::test::Fail;

// Two goroutines make one channel after another, so the states have no end.
const ENDLESS: &str =
    "package main\n\nfunc fill(stop chan bool) {\n\tfor {\n\t\tselect {\n\t\tcase <-stop:\n\t\t\treturn\n\t\tdefault:\n\t\t\tc := make(chan int, 1)\n\t\t\tc <- 1\n\t\t}\n\t}\n}\n\nfunc main() {\n\tstop := make(chan bool)\n\tfor n := 0; n < 2; n++ {\n\t\tgo fill(stop)\n\t}\n\tclose(stop)\n}\n";

const STOPPED: Row = Row {
    shows: "each 10,000 states are told",
    line: "all --states 21000",
    file: ENDLESS,
    failing: NONE,
    status: Status::Spent,
    out: "stopped: more than 21000 states\n",
    err: "at most 21000 states, about 106 MB of memory\n10000 states so far\n20000 states so far\n",
};

#[test]
fn a_search_tells_how_far_it_is(rt: HostRuntime) -> Result<(), Fail> {
    expect_shown(&rt, true, &STOPPED)
}

const CUT: Row = Row {
    shows: "a line that cannot be written ends the search",
    line: "search --states 21000",
    file: ENDLESS,
    failing: Failing {
        source: 0,
        out: 0,
        err: 4,
    },
    status: Status::WriteFault,
    out: "",
    err: "at most 21000 states, about 106 MB of memory\n",
};

#[test]
fn a_line_of_progress_that_fails_ends_the_search(rt: HostRuntime) -> Result<(), Fail> {
    expect_shown(&rt, true, &CUT)
}

// One goroutine makes one channel after another. A state has all channels made before it, so 100,000 states take longer
// than a second.
const TIMED: Row = Row {
    shows: "a search ends with its time",
    line: "search --seconds 1",
    file: "package main\n\nfunc main() {\n\tfor {\n\t\tc := make(chan int)\n\t\tc = nil\n\t}\n}\n",
    failing: NONE,
    status: Status::Spent,
    out: "stopped: after 1 seconds\n",
    err: NOTE,
};

#[test]
fn a_search_ends_with_its_time(rt: HostRuntime) -> Result<(), Fail> {
    expect_row(&rt, &TIMED)
}
