//! Tests of how the markers of the program pass their gate.

use crate::calls::{Outcome, Row, expect_rows, run_with};
use crate::rounds::RoundGate;
use crate::runs::reasons::TWO_ROUNDS;
use crate::runs::worked::{CYCLE, CYCLE_ERRORS, FINALISED_HELD};
use golf_base::Gate;
use golf_run_texts::Status;
use golf_tests_support::{MeetingGate, StealingGate};
use std::sync::Wait;
use std::test::Fail;
use std::thread::Threads;

// The only global is a slice of four channels.
const GLOBALS_IN_A_SLICE: &str = "\
    package main\n\
    import \"runtime\"\n\
    var s = []chan int{make(chan int), make(chan int), make(chan int), make(chan int)}\n\
    func main() {\n\
    \truntime.GC()\n\
    }\n";

// Whether a run of this file is clean and writes these errors.
fn is_clean<R: AllocGlobal + Threads + Wait + Sync, G: Gate + Sync>(
    rt: &R,
    file: &str,
    errors: &str,
    gate: &G,
) -> Result<bool, Fail> {
    let Outcome { status, err, .. } = run_with(rt, "run --markers 2", file.as_bytes(), gate)?;
    Ok(status == Status::Clean && err.written() == errors.as_bytes())
}

#[test]
fn the_program_marks_with_two_markers_at_once(rt: HostRuntime) -> Result<(), Fail> {
    let gate = MeetingGate::new();
    let line = "collection 1: marked 2, reported 0, kept 0, reclaimed 0, objects 2\n";
    let clean = is_clean(&rt, TWO_ROUNDS, line, &gate)?;
    assert!(rt; clean && gate.both_seen());
    Ok(())
}

#[test]
fn the_markers_of_the_program_share_their_work(rt: HostRuntime) -> Result<(), Fail> {
    let gate = StealingGate::new(1, 1);
    let line = "collection 1: marked 5, reported 0, kept 0, reclaimed 0, objects 5\n";
    let clean = is_clean(&rt, GLOBALS_IN_A_SLICE, line, &gate)?;
    assert!(rt; clean && gate.both_seen());
    Ok(())
}

#[test]
fn sixteen_markers_of_the_program_mark_at_once(rt: HostRuntime) -> Result<(), Fail> {
    let gate = RoundGate::new(16, 0);
    let _ = run_with(&rt, "run --markers 16", TWO_ROUNDS.as_bytes(), &gate)?;
    assert!(rt; gate.all_met());
    Ok(())
}

// How often the gate is passed: once for each marked object and each awake sleeper, and once more by each
// marker. The second marking of a collection does not pass it.
const SIXTEEN: [(&str, &str, u64); 4] = [
    ("run --markers 16", TWO_ROUNDS, 20),
    ("run --markers 16 --recover", TWO_ROUNDS, 20),
    ("run --markers 16", FINALISED_HELD, 16),
    ("run --markers 16 --recover", FINALISED_HELD, 16),
];

#[test]
fn each_of_sixteen_markers_of_the_program_passes_the_gate(rt: HostRuntime) -> Result<(), Fail> {
    for (line, file, wanted) in SIXTEEN.iter() {
        let gate = RoundGate::new(16, 0);
        let _ = run_with(&rt, *line, file.as_bytes(), &gate)?;
        assert!(rt; gate.passes() == *wanted, "{line}: {wanted}");
    }
    Ok(())
}

// Runs by one, two and sixteen markers.
const COUNTS: [Row; 3] = [
    Row {
        shows: "one marker",
        line: "run --markers 1",
        file: CYCLE,
        status: Status::Found,
        out: "",
        err: CYCLE_ERRORS,
    },
    Row {
        shows: "two markers mark alike",
        line: "run --markers 2",
        file: CYCLE,
        status: Status::Found,
        out: "",
        err: CYCLE_ERRORS,
    },
    Row {
        shows: "sixteen markers mark alike",
        line: "run --markers 16",
        file: CYCLE,
        status: Status::Found,
        out: "",
        err: CYCLE_ERRORS,
    },
];

#[test]
fn marker_counts_agree(rt: HostRuntime) -> Result<(), Fail> {
    expect_rows(&rt, &COUNTS)
}
