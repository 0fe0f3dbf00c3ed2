//! Tests of runs by threads: their history, its repetition by written choices, and their endings.

use crate::calls::{Ends, Outcome, Row, expect_ends, expect_failing, expect_rows, run_with};
use crate::rounds::RoundGate;
use crate::runs::basic::{EMPTY_MAIN, LEAK};
use crate::runs::worked::{CHOICE, POOL};
use golf_base::OpenGate;
use golf_run_texts::Status;
use golf_tests_support::{CountingGate, MeetingGate};
use std::alloc::Global;
use std::str;
use std::test::Fail;

const ENDLESS: &str = "\
    package main\n\
    func main() {\n\
    \tfor {\n\
    \t}\n\
    }\n";

// Runs by threads that are the same each time.
const ROWS: [Row; 3] = [
    Row {
        shows: "one thread on an empty main takes three turns",
        line: "run --threads 1",
        file: EMPTY_MAIN,
        status: Status::Clean,
        out: "",
        err: "history: 0,1,2\n",
    },
    Row {
        shows: "one thread chooses the second case of a select",
        line: "run --threads=001 --",
        file: CHOICE,
        status: Status::Clean,
        out: "second 1\n",
        err: "history: 0,1,2,3,4,5,6,7,8,9,10,11,12,13,14,15,16\n",
    },
    Row {
        shows: "a file that threads do not run is refused",
        line: "run --threads 2",
        file: "package main",
        status: Status::Refused,
        out: "",
        err: "refused: line 1: rule 6\n",
    },
];

#[test]
fn runs_by_threads_tell_their_history(rt: HostRuntime) -> Result<(), Fail> {
    expect_rows(&rt, &ROWS)
}

// The errors before the line of the history, and the numbers of that line.
fn split_history(errors: &[u8]) -> Result<(&str, &str), Fail> {
    let Ok(text) = str::from_utf8(errors) else {
        return Err(Fail::new("no text"));
    };
    match text.rsplit_once("history: ") {
        Some((before, numbers)) => Ok((before, numbers.trim_end())),
        None => Err(Fail::new("no history")),
    }
}

// The command line for a run with these numbers as choices.
fn again(alloc: Global, numbers: &str) -> Result<String, Fail> {
    Ok(format!(in alloc; "run --schedule choices:{numbers}")?)
}

#[test]
fn a_history_of_four_threads_can_be_run_again(rt: HostRuntime) -> Result<(), Fail> {
    let first = run_with(&rt, "run --threads 4", POOL.as_bytes(), &OpenGate)?;
    let (errors, numbers) = split_history(first.err.written())?;
    let line = again(rt.alloc(), numbers)?;
    expect_ends(
        &rt,
        line.as_str(),
        POOL.as_bytes(),
        Ends::of(4),
        first.status,
        first.out.written(),
        errors.as_bytes(),
    )
}

#[test]
fn threads_of_the_program_step_at_the_same_time(rt: HostRuntime) -> Result<(), Fail> {
    let gate = MeetingGate::new();
    let Outcome { out, .. } = run_with(&rt, "run --threads 2", LEAK.as_bytes(), &gate)?;
    assert!(rt; gate.both_seen() && out.written() == "1\n".as_bytes());
    Ok(())
}

// How many numbers a list has.
fn count_of(numbers: &str) -> u64 {
    let mut count = 1;
    for byte in numbers.as_bytes() {
        if *byte == b',' && count < 1_000_000 {
            count += 1;
        }
    }
    count
}

// A worker comes to its turn 1 after it has taken a turn of the program.
#[test]
fn each_of_four_threads_of_the_program_takes_a_turn(rt: HostRuntime) -> Result<(), Fail> {
    let gate = RoundGate::new(4, 1);
    let Outcome { err, .. } = run_with(&rt, "run --threads 4", POOL.as_bytes(), &gate)?;
    let (_, numbers) = split_history(err.written())?;
    assert!(rt; gate.all_met());
    assert!(rt; gate.passes().checked_sub(count_of(numbers)) == Some(4));
    Ok(())
}

// The history has three numbers.
#[test]
fn each_of_four_threads_passes_the_gate_on_an_empty_main(rt: HostRuntime) -> Result<(), Fail> {
    let gate = CountingGate::new();
    let _ = run_with(&rt, "run --threads 4", EMPTY_MAIN.as_bytes(), &gate)?;
    assert!(rt; gate.passes() == 7);
    Ok(())
}

// The errors with the numbers from 0 to 99,999. The only goroutine takes each turn, and its place among one
// is always 0.
fn endless_errors(alloc: Global) -> Result<String, Fail> {
    let mut text = String::from_str(alloc, "stopped after 100000 turns\nhistory: 0")?;
    for number in 1..100_000u32 {
        text.push_str(format!(in alloc; ",{number}")?.as_str())?;
    }
    text.push_str("\n")?;
    Ok(text)
}

#[test]
fn threads_stop_after_a_hundred_thousand_turns(rt: HostRuntime) -> Result<(), Fail> {
    let (file, err) = (ENDLESS.as_bytes(), endless_errors(rt.alloc())?);
    let (line, ends) = ("run --threads 2", Ends::of(4));
    expect_ends(&rt, line, file, ends, Status::Spent, b"", err.as_bytes())
}

// Calls of the source and of the sinks that fail. The output is `1` and a newline, and two calls write it.
const FAILING: [(Ends, Row); 4] = [
    (
        Ends {
            most: 64,
            source: 1,
            out: 0,
            err: 0,
        },
        Row {
            shows: "a source that fails before threads run is a read fault",
            line: "run --threads 2",
            file: POOL,
            status: Status::ReadFault,
            out: "",
            err: "read fault\n",
        },
    ),
    (
        Ends {
            most: 1,
            source: 0,
            out: 1,
            err: 0,
        },
        Row {
            shows: "the first write of the output fails",
            line: "run --threads 1",
            file: LEAK,
            status: Status::WriteFault,
            out: "",
            err: "",
        },
    ),
    (
        Ends {
            most: 1,
            source: 0,
            out: 2,
            err: 0,
        },
        Row {
            shows: "the second write of the output fails",
            line: "run --threads 1",
            file: LEAK,
            status: Status::WriteFault,
            out: "1",
            err: "",
        },
    ),
    (
        Ends {
            most: 1,
            source: 0,
            out: 0,
            err: 12,
        },
        Row {
            shows: "the twelfth write of the report fails",
            line: "run --threads 1",
            file: LEAK,
            status: Status::WriteFault,
            out: "1\n",
            err: "collection ",
        },
    ),
];

#[test]
fn nothing_is_written_after_a_failed_call_of_threads(rt: HostRuntime) -> Result<(), Fail> {
    expect_failing(&rt, &FAILING)
}
