//! Writes the lines of a collection, one by one.
//!
//! Each line is its own write. If memory runs out, no line is cut.

ghost use Rattle.std.specs.Prelude.{◌<◌, ◌++◌, [], ◌∷◌, IfOk, IfSome, None, map, slice_get, unwrap_or};
ghost use Rattle.golf_model.specs.Graph.{sleeper_count};
ghost use Rattle.golf_model.specs.Presence.{IsWhole};
ghost use Rattle.golf_why.specs.Explanations.{reached_at, reached_from, IsExplanation};
ghost use Rattle.golf_run_texts.specs.Texts.{entry_line as entry_line_of, reached_line as reached_line_of};
ghost use Rattle.golf_run_texts.specs.Texts.{report_lines};
ghost use Rattle.golf_run.specs.Lines.{HasWritten};
ghost use Rattle.golf_run.specs.Told.{explained_lines, ExplainsIf};

use crate::fault::RunFault;
use golf_base::{List, Memory, Sink, write_all};
use golf_data::{Entry, Report};
use golf_run_texts::{certificate_line, entry_line, reached_line, report_line};
use golf_state::State;
use golf_why::Explanation;
use std::alloc::Global;

/// Returns the explanation of a state, if it is asked for.
pub(crate) fn explanation(
    alloc: Global,
    why: bool,
    state: &State,
) -> Result<Option<Explanation>, Memory>
    requires { IsWhole state.now }
    ensures { IfOk result (ExplainsIf why state.now) }
{
    if !why {
        return Ok(None);
    }
    Ok(Some(Explanation::new(alloc, state)?))
}

// Writes the line of a reported goroutine.
fn write_entry<E: Sink>(alloc: Global, entry: &Entry, err: &mut E) -> Result<(), RunFault>
    ensures { HasWritten result (entry_line_of entry.now ∷ []) (E.written err.old) (E.written err.new) (E.faults err.old) (E.faults err.new) }
{
    let line = entry_line(alloc, entry)?;
    write_all(err, line.as_bytes())?;
    Ok(())
}

// Writes a line for each reported goroutine.
fn write_entries<E: Sink>(alloc: Global, entries: &[Entry], err: &mut E) -> Result<(), RunFault>
    ensures { HasWritten result (map entry_line_of entries.now) (E.written err.old) (E.written err.new) (E.faults err.old) (E.faults err.new) }
{
    for entry in entries {
        write_entry(alloc, entry, err)?;
    }
    Ok(())
}

// Writes the lines of a report.
fn write_report<E: Sink>(alloc: Global, report: &Report, err: &mut E) -> Result<(), RunFault>
    ensures { HasWritten result (report_lines report.now) (E.written err.old) (E.written err.new) (E.faults err.old) (E.faults err.new) }
{
    let line = report_line(alloc, report)?;
    write_all(err, line.as_slice())?;
    write_entries(alloc, report.reported.as_slice(), err)
}

// Writes the line of this blocked goroutine, if it is live.
fn write_sleeper<E: Sink>(
    alloc: Global,
    why: &Explanation,
    sleeper: u32,
    err: &mut E,
) -> Result<(), RunFault>
    requires ready { IsExplanation why.now }
    requires sleeper { sleeper < sleeper_count why.now.graph }
    ensures { HasWritten result (map reached_line_of (reached_at why.now.graph sleeper (unwrap_or (slice_get why.now.sleeper_entries sleeper) None))) (E.written err.old) (E.written err.new) (E.faults err.old) (E.faults err.new) }
{
    let Some(reached) = why.reached(alloc, sleeper)? else {
        return Ok(());
    };
    let line = reached_line(alloc, &reached)?;
    write_all(err, line.as_slice())?;
    Ok(())
}

// Writes a line for each live goroutine that waits.
fn write_reached<E: Sink>(alloc: Global, why: &Explanation, err: &mut E) -> Result<(), RunFault>
    requires { IsExplanation why.now }
    ensures { HasWritten result (map reached_line_of (reached_from why.now.graph 0 why.now.sleeper_entries)) (E.written err.old) (E.written err.new) (E.faults err.old) (E.faults err.new) }
{
    for sleeper in 0..why.sleepers() {
        write_sleeper(alloc, why, sleeper, err)?;
    }
    Ok(())
}

// Writes the lines of an explanation, if there is one.
fn write_why<E: Sink>(
    alloc: Global,
    number: u32,
    why: &Option<Explanation>,
    err: &mut E,
) -> Result<(), RunFault>
    requires { IfSome why.now IsExplanation }
    ensures { HasWritten result (explained_lines number why.now) (E.written err.old) (E.written err.new) (E.faults err.old) (E.faults err.new) }
{
    let Some(why) = why.as_ref() else {
        return Ok(());
    };
    let line = certificate_line(alloc, number, why.places())?;
    write_all(err, line.as_slice())?;
    write_reached(alloc, why, err)
}

/// Writes the lines of a collection: its report, and then the explanation of the state, if there is one.
pub(crate) fn write_told<E: Sink>(
    alloc: Global,
    report: &Report,
    why: &Option<Explanation>,
    err: &mut E,
) -> Result<(), RunFault>
    requires { IfSome why.now IsExplanation }
    ensures { HasWritten result (report_lines report.now ++ explained_lines report.now.number why.now) (E.written err.old) (E.written err.new) (E.faults err.old) (E.faults err.new) }
{
    write_report(alloc, report, err)?;
    write_why(alloc, report.number, why, err)
}
