//! Runs a code, and writes nothing.
//!
//! It returns the status, the totals of the reports, and the last line.

ghost use Rattle.std.specs.Prelude.{None, IfOk};
ghost use Rattle.golf_data.specs.Places.{HasPlaces};
ghost use Rattle.golf_run_schedules.specs.Options.{IsWithinLimits};
ghost use Rattle.golf_run.specs.IsRunSummary.{IsRunSummary};

use crate::turns::go_through;
use crate::written_run::{last_line, status_by};
use golf_base::{Failed, Gate, List, Memory, Sink};
use golf_data::Code;
use golf_run_schedules::RunOptions;
use golf_run_texts::{Status, Totals};
use std::alloc::Global;
use std::thread::Threads;

/// The summary of a run.
#[derive(Debug, Drop)]
pub struct RunSummary {
    /// The status with which the program ends.
    pub status: Status,
    /// The totals of the reports of its collections.
    pub totals: Totals,
    /// The last line.
    pub line: List<u8>,
}

// A sink that drops all bytes.
#[derive(Drop)]
struct Nowhere;

impl Sink for Nowhere {
    ghost written = { λ _. None };

    ghost faults = { λ _. 0 };

    fn write(&mut self, piece: &[u8]) -> Result<usize, Failed> {
        Ok(piece.len())
    }
}

/// Runs the code by the options as `run` does, but writes nothing. Returns the summary of the run.
pub fn survey<R: Threads + Sync, G: Gate + Sync>(
    rt: &R,
    alloc: Global,
    code: &Code,
    options: RunOptions,
    gate: &G,
) -> Result<RunSummary, Memory>
    requires places { HasPlaces code.now }
    requires limits { IsWithinLimits options }
    ensures { IfOk result (λ outcome. IsRunSummary outcome code.now options) }
{
    let mut out = Nowhere;
    let mut err = Nowhere;
    // A write to nowhere does not fail.
    let course = match go_through(rt, alloc, code, options, &mut out, &mut err, gate) {
        Ok(course) => course,
        Err(_) => return Err(Memory),
    };
    let line = last_line(alloc, code.texts.as_slice(), course.turns, course.ending)?;
    Ok(RunSummary {
        status: status_by(course.totals.reported != 0, course.ending),
        totals: course.totals,
        line,
    })
}
