//! Runs a code, and writes its output, its reports and its last line.

ghost use Rattle.std.specs.Prelude.{◌≡◌, IfOk};
ghost use Rattle.golf_data.specs.Places.{HasPlaces};
ghost use Rattle.golf_run_schedules.specs.Options.{IsWithinLimits};
ghost use Rattle.golf_run_texts.specs.Texts.{last_line as last_line_of};
ghost use Rattle.golf_run_texts.specs.Output.{status_by as status_by_of};
ghost use Rattle.golf_run.specs.HasRun.{HasRun, sinks};

use crate::fault::RunFault;
use crate::turns::go_through;
use golf_base::{Gate, List, Memory, Sink, write_all};
use golf_data::{Code, Ending};
use golf_run_schedules::RunOptions;
use golf_run_texts::{Status, ending_line, stopped_line};
use std::alloc::Global;
use std::thread::Threads;

/// Returns the last line of a run of `turns` turns. It is empty if the program returned.
pub fn last_line(
    alloc: Global,
    texts: &[List<u8>],
    turns: u32,
    ending: Option<Ending>,
) -> Result<List<u8>, Memory>
    ensures { IfOk result (λ line. line ≡ last_line_of texts.now turns ending) }
{
    match ending {
        Some(ending) => ending_line(alloc, texts, ending),
        None => stopped_line(alloc, turns),
    }
}

/// Returns the status of a run. A run that returned is `Found` if goroutines were reported, and else
/// `Clean`.
pub fn status_by(reported: bool, ending: Option<Ending>) -> Status
    ensures { result ≡ status_by_of reported ending }
{
    match ending {
        Some(Ending::Returned) if reported => Status::Found,
        Some(Ending::Returned) => Status::Clean,
        Some(Ending::Panicked { .. } | Ending::Asleep) => Status::Crashed,
        None => Status::Spent,
    }
}

/// Runs the code by the options, and returns how the program ends. It writes to the sinks in this order:
///
/// - After each turn its output goes to `out`.
/// - After each collection its lines go to `err`, each line by its own write.
/// - At the end the last line goes to `err`.
///
/// After a write that failed it writes nothing. If memory runs out, no write is cut. The marking of each
/// collection passes the gate.
pub fn run<R: Threads + Sync, O: Sink, E: Sink, G: Gate + Sync>(
    rt: &R,
    alloc: Global,
    code: &Code,
    options: RunOptions,
    out: &mut O,
    err: &mut E,
    gate: &G,
) -> Result<Status, RunFault>
    requires places { HasPlaces code.now }
    requires limits { IsWithinLimits options }
    ensures { HasRun result code.now options
        (sinks (O.written out.old) (O.faults out.old) (E.written err.old) (E.faults err.old))
        (sinks (O.written out.new) (O.faults out.new) (E.written err.new) (E.faults err.new)) }
{
    let course = go_through(rt, alloc, code, options, out, err, gate)?;
    let line = last_line(alloc, code.texts.as_slice(), course.turns, course.ending)?;
    write_all(err, line.as_slice())?;
    Ok(status_by(course.totals.reported != 0, course.ending))
}
