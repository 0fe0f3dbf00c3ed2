//! The turns and collections of a run, and the writes of each.
//!
//! The output of a turn goes to `out`, and the lines of a collection go to `err`.

ghost use Rattle.std.specs.Prelude.{◌≡◌, ◌<◌, ◌-◌, ◌≤◌, ◌^◌};
ghost use Rattle.golf_data.specs.Places.{HasPlaces};
ghost use Rattle.golf_model.specs.Presence.{IsWhole};
ghost use Rattle.golf_reclaim.specs.RunBook.{AreGone};
ghost use Rattle.golf_run_schedules.specs.Options.{IsWithinLimits};
ghost use Rattle.golf_run.specs.PendingEvents.{pending_left};
ghost use Rattle.golf_run.specs.EventBatches.{HasAdvanced};
ghost use Rattle.golf_run.specs.Told.{HasTold, totals_by};
ghost use Rattle.golf_run.specs.HasRun.{sinks};
ghost use Rattle.golf_run.specs.HasGone.{HasGone};

use crate::collection_lines::{explanation, write_told};
use crate::fault::RunFault;
use crate::pending_events::PendingEvents;
use golf_base::{Gate, OpenGate, Sink, write_all};
use golf_data::{Code, Ending, Report};
use golf_machine::{Turned, start, take_turns};
use golf_reclaim::{CollectOptions, Ledger, collect, sets_finalisers};
use golf_run_schedules::{Events, RunOptions};
use golf_run_texts::Totals;
use golf_state::State;
use std::alloc::Global;
use std::thread::Threads;

/// The result of the events of a run.
#[derive(Clone, Copy)]
pub(crate) struct Course {
    /// How many turns there were.
    pub turns: u32,
    pub ending: Option<Ending>,
    pub totals: Totals,
}

// The totals: the counts of the book, and those of its last report.
fn totals_after(book: &Ledger, report: &Report) -> Totals
    ensures { result ≡ totals_by book.now report.now }
{
    Totals {
        collections: book.collections(),
        reported: book.reported().len() as u64,
        kept: report.kept,
        reclaimed: book.reclaimed().len() as u64,
        objects: report.objects,
    }
}

/// The options of the collections of a run.
#[derive(Clone, Copy)]
pub(crate) struct Manner {
    pub collecting: CollectOptions,
    /// Whether each collection writes its certificate, and the ways to live goroutines that wait.
    pub why: bool,
}

/// Collects, and writes the lines of the collection. Returns the totals of all reports so far.
pub(crate) fn tell<R: Threads + Sync, E: Sink, G: Gate + Sync>(
    rt: &R,
    alloc: Global,
    how: Manner,
    state: &mut State,
    book: &mut Ledger,
    err: &mut E,
    gate: &G,
) -> Result<Totals, RunFault>
    requires whole { IsWhole state.old }
    requires gone { AreGone book.old state.old }
    requires count { book.old.collections < 2 ^ 32 - 1 }
    requires some { 0 < how.collecting.markers }
    requires few { how.collecting.markers ≤ 16 }
    ensures { HasTold how.collecting.recover how.collecting.sets_finalisers how.why result state.old state.new book.old book.new (E.written err.old) (E.written err.new) (E.faults err.old) (E.faults err.new) }
{
    let why = explanation(alloc, how.why, state)?;
    let report = collect(rt, alloc, state, book, how.collecting, gate, &OpenGate)?;
    write_told(alloc, &report, &why, err)?;
    Ok(totals_after(book, &report))
}

// Takes turns until the run must act, and writes the output of the last one. Or it takes the collection
// that comes next. Returns whether a collection follows, or `None` if the program has ended or no event is
// left.
fn advance<O: Sink>(
    alloc: Global,
    code: &Code,
    coming: &mut PendingEvents,
    state: &mut State,
    out: &mut O,
) -> Result<Option<bool>, RunFault>
    requires places { HasPlaces code.now }
    ensures { HasAdvanced result code.now state.old state.new (pending_left coming.old) (pending_left coming.new) coming.old.events.done coming.new.events.done
        (O.written out.old) (O.written out.new) (O.faults out.old) (O.faults out.new) }
{
    if state.ending().is_some() {
        return Ok(None);
    }
    let Some(turned) = take_turns(alloc, code, state, coming)? else {
        return Ok(if coming.take_collection() {
            Some(true)
        } else {
            None
        });
    };
    write_all(out, state.output())?;
    state.clear_output();
    match turned {
        Turned::WantsCollection => Ok(Some(true)),
        Turned::Went | Turned::Ended(_) => Ok(Some(false)),
    }
}

// Goes over the events of a run. After each turn it writes the output to `out`. After each collection it
// writes the lines to `err`, one by one.
pub(crate) fn go_through<R: Threads + Sync, O: Sink, E: Sink, G: Gate + Sync>(
    rt: &R,
    alloc: Global,
    code: &Code,
    options: RunOptions,
    out: &mut O,
    err: &mut E,
    gate: &G,
) -> Result<Course, RunFault>
    requires places { HasPlaces code.now }
    requires limits { IsWithinLimits options }
    ensures { HasGone result code.now options
        (sinks (O.written out.old) (O.faults out.old) (E.written err.old) (E.faults err.old))
        (sinks (O.written out.new) (O.faults out.new) (E.written err.new) (E.faults err.new)) }
{
    let how = Manner {
        collecting: CollectOptions {
            markers: options.markers,
            recover: options.recover,
            sets_finalisers: sets_finalisers(code),
        },
        why: options.why,
    };
    let events = Events::new(options.schedule, options.turns, options.every);
    let mut coming = PendingEvents::new(events);
    let mut state = start(alloc, code)?;
    let mut book = Ledger::new(alloc);
    let mut totals = Totals {
        collections: 0,
        reported: 0,
        kept: 0,
        reclaimed: 0,
        objects: 0,
    };
    while let Some(collects) = advance(alloc, code, &mut coming, &mut state, out)? {
        if collects {
            totals = tell(rt, alloc, how, &mut state, &mut book, err, gate)?;
        }
    }
    Ok(Course {
        turns: coming.turns_done(),
        ending: state.ending(),
        totals,
    })
}
