//! Tests of runs by options: schedules, added collections, and recovery.

use crate::calls::{Outcome, Row, expect_rows, run_with};
use crate::runs::basic::EMPTY_MAIN;
use golf_base::OpenGate;
use golf_run_texts::Status;
use std::str;
use std::sync::Wait;
use std::test::Fail;
use std::thread::Threads;

// Runs of an empty `main` with schedules, numbers of turns, a seed and markers.
const ROWS: [Row; 6] = [
    Row {
        shows: "two choices are spent",
        line: "run --schedule choices:0,0",
        file: EMPTY_MAIN,
        status: Status::Spent,
        out: "",
        err: "stopped after 2 turns\n",
    },
    Row {
        shows: "three choices are enough",
        line: "run --schedule choices:0,0,1",
        file: EMPTY_MAIN,
        status: Status::Clean,
        out: "",
        err: "",
    },
    Row {
        shows: "two turns are spent",
        line: "run --turns 2",
        file: EMPTY_MAIN,
        status: Status::Spent,
        out: "",
        err: "stopped after 2 turns\n",
    },
    Row {
        shows: "three turns are enough",
        line: "run --turns 3",
        file: EMPTY_MAIN,
        status: Status::Clean,
        out: "",
        err: "",
    },
    Row {
        shows: "three turns in twenty digits are enough",
        line: "run --turns=00000000000000000003 --",
        file: EMPTY_MAIN,
        status: Status::Clean,
        out: "",
        err: "",
    },
    Row {
        shows: "a seed and markers",
        line: "run --schedule=seed:0 --markers=002 --",
        file: EMPTY_MAIN,
        status: Status::Clean,
        out: "",
        err: "",
    },
];

#[test]
fn turns_and_choices_are_spent_or_enough(rt: HostRuntime) -> Result<(), Fail> {
    expect_rows(&rt, &ROWS)
}

// Runs with added collections.
const ADDED: [Row; 2] = [
    Row {
        shows: "asleep with a collection after each turn",
        line: "run --every 1",
        file: "\
            package main\n\
            func main() {\n\
            \tc := make(chan int)\n\
            \t<-c\n\
            }\n",
        status: Status::Crashed,
        out: "",
        err: r"collection 1: marked 0, reported 0, kept 0, reclaimed 0, objects 0
collection 2: marked 0, reported 0, kept 0, reclaimed 0, objects 0
collection 3: marked 1, reported 0, kept 0, reclaimed 0, objects 1
collection 4: marked 1, reported 0, kept 0, reclaimed 0, objects 1
collection 5: marked 1, reported 0, kept 0, reclaimed 0, objects 1
fatal error: all goroutines are asleep - deadlock!
",
    },
    // The turns are the call of `main`, the collection, and two returns. The last return ends the program,
    // so no collection is added after it.
    Row {
        shows: "a collection of the program comes before the one that is added",
        line: "run --every=1",
        file: "\
            package main\n\
            import \"runtime\"\n\
            func main() {\n\
            \truntime.GC()\n\
            }\n",
        status: Status::Clean,
        out: "",
        err: r"collection 1: marked 0, reported 0, kept 0, reclaimed 0, objects 0
collection 2: marked 0, reported 0, kept 0, reclaimed 0, objects 0
collection 3: marked 0, reported 0, kept 0, reclaimed 0, objects 0
collection 4: marked 0, reported 0, kept 0, reclaimed 0, objects 0
",
    },
];

#[test]
fn collections_are_added_after_turns(rt: HostRuntime) -> Result<(), Fail> {
    expect_rows(&rt, &ADDED)
}

// Each of 10,000 goroutines holds 65,536 integers and waits for ever.
const HOLDERS: &str = "\
    package main\n\
    func hold(a []int, c chan int) {\n\
    \t<-c\n\
    \ta[0] = 1\n\
    }\n\
    func main() {\n\
    \tfor i := 0; i < 10000; i++ {\n\
    \t\tgo hold(make([]int, 65536), make(chan int))\n\
    \t}\n\
    }\n";

// How many collections kept no goroutine and left at most two objects.
fn empty_collections(text: &str) -> usize {
    text.lines()
        .filter(|line| {
            line.starts_with("collection ")
                && line.contains(", kept 0, ")
                && (line.ends_with(", objects 0")
                    || line.ends_with(", objects 1")
                    || line.ends_with(", objects 2"))
        })
        .count()
}

// Whether 160 collections reported and reclaimed all holders, before this last line.
fn are_taken_back(errors: &[u8], last: &str) -> bool {
    let Ok(text) = str::from_utf8(errors) else {
        return false;
    };
    let reported = text
        .lines()
        .filter(|line| line.ends_with(": chan receive at line 3, started at line 8"))
        .count();
    empty_collections(text) == 160 && reported == 10_000 && text.ends_with(last)
}

// Whether a run of the holders with these words ends so, prints nothing, and reclaims all holders, before
// this last line.
fn takes_back<R: AllocGlobal + Threads + Wait + Sync>(
    rt: &R,
    line: &str,
    wanted: Status,
    last: &str,
) -> Result<bool, Fail> {
    let Outcome { status, out, err } = run_with(rt, line, HOLDERS.as_bytes(), &OpenGate)?;
    let ended = status == wanted && out.written().is_empty();
    Ok(ended && are_taken_back(err.written(), last))
}

#[test]
fn memory_is_taken_back(rt: HostRuntime) -> Result<(), Fail> {
    let line = "run --every 1000 --recover --turns=160009";
    let found = takes_back(&rt, line, Status::Found, "\n")?;
    let line = "run --every 1000 --recover --turns=160008";
    let last = "\nstopped after 160008 turns\n";
    let spent = takes_back(&rt, line, Status::Spent, last)?;
    assert!(rt; found && spent, "found: {found}, spent: {spent}");
    Ok(())
}
