//! Tests of generated files.

use crate::calls::{Outcome, Row, expect_rows, run_with};
use golf_command_sample::sample_file;
use golf_run_texts::Status;
use golf_tests_support::CountingGate;
use std::sync::Wait;
use std::test::Fail;
use std::thread::Threads;

// How often the gate is passed in a call with these words over this file, or `None` if the call reports no
// goroutine.
fn passes<R: AllocGlobal + Threads + Wait + Sync>(
    rt: &R,
    line: &str,
    file: &[u8],
) -> Result<Option<u64>, Fail> {
    let gate = CountingGate::new();
    let Outcome { status, .. } = run_with(rt, line, file, &gate)?;
    if status == Status::Found {
        Ok(Some(gate.passes()))
    } else {
        Ok(None)
    }
}

// Generated files, and their summary lines.
const ROWS: [Row; 3] = [
    Row {
        shows: "a file of 1",
        line: "generate 1",
        file: "",
        status: Status::Found,
        out: "generated 1: lines 29, collections 1, reported 1, kept 0, reclaimed 1, objects 0\n",
        err: "",
    },
    Row {
        shows: "a file of 5",
        line: "generate 5",
        file: "",
        status: Status::Found,
        out: "generated 5: lines 65, collections 1, reported 3, kept 0, reclaimed 3, objects 4\n",
        err: "",
    },
    Row {
        shows: "a file of 5000",
        line: "generate 5000",
        file: "",
        status: Status::Found,
        out: "generated 5000: lines 45020, collections 1, reported 2500, kept 0, reclaimed 2500, objects 5000\n",
        err: "",
    },
];

#[test]
fn generated_files_are_summed_up(rt: HostRuntime) -> Result<(), Fail> {
    expect_rows(&rt, &ROWS)
}

// The markers scan 100 marked objects and 50 awake sleepers, and each marker passes the gate once more.
#[test]
fn all_markers_scan_a_generated_file(rt: HostRuntime) -> Result<(), Fail> {
    let file = sample_file(rt.alloc(), 100)?;
    let four = passes(&rt, "generate 100", b"")?;
    let one = passes(&rt, "run --markers 1", file.as_slice())?;
    let sixteen = passes(&rt, "run --markers 16", file.as_slice())?;
    let recovering = passes(&rt, "run --markers 16 --recover", file.as_slice())?;
    assert!(rt; four == Some(154) && one == Some(151));
    assert!(rt; sixteen == Some(166) && recovering == Some(166));
    Ok(())
}
