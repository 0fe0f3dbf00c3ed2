//! Runs a code, and tells each of its turns.
//!
//! The line of a turn goes to standard error, before the lines of the collection that follows it.

ghost use Rattle.std.specs.Prelude.{◌≡◌, ◌<◌, ◌≤◌, ◌-◌, ◌^◌, None, option_map, IfOk};
ghost use Rattle.golf_data.specs.Places.{HasPlaces};
ghost use Rattle.golf_model.specs.State.{ending};
ghost use Rattle.golf_model.specs.Presence.{IsWhole};
ghost use Rattle.golf_model.specs.Runs.{Event as EventOf};
ghost use Rattle.golf_reclaim.specs.RunBook.{AreGone};
ghost use Rattle.golf_run_schedules.specs.Events.{events_left, event_of};
ghost use Rattle.golf_run_schedules.specs.Options.{IsWithinLimits};
ghost use Rattle.golf_run.specs.HasRun.{sinks};
ghost use Rattle.golf_run.specs.TraceWrites.{HasTraced};
ghost use Rattle.golf_run.specs.Traced.{ComesNext, HasHappened, HasFollowed, HasGoneTraced};

use crate::fault::RunFault;
use crate::kept_bytes::Kept;
use crate::turn_lines::Before;
use crate::turns::{Course, Manner, tell};
use crate::written_run::{last_line, status_by};
use golf_base::{Gate, List, Memory, Sink, write_all};
use golf_data::Code;
use golf_machine::{Turned, start, turn};
use golf_reclaim::{CollectOptions, Ledger, sets_finalisers};
use golf_run_schedules::{Event, Events, RunOptions};
use golf_run_texts::{Status, Totals};
use golf_state::State;
use std::alloc::Global;
use std::thread::Threads;

// The line of an event's turn, and whether a collection follows the event.
#[derive(Drop)]
struct Happened {
    line: List<u8>,
    collects: bool,
}

// The reports so far.
#[derive(Drop)]
struct Accounts {
    book: Ledger,
    totals: Totals,
}

// The next event, or `None` if the program has ended or no event is left.
fn next_event(events: &mut Events, state: &State) -> Option<Event>
    ensures { ComesNext (option_map event_of result) state.now (events_left events.old) (events_left events.new) events.old.done events.new.done }
{
    if state.ending().is_some() {
        return None;
    }
    events.next()
}

// Takes a turn, which is the one of this count from 1, and writes its output.
fn take<O: Sink>(
    alloc: Global,
    code: &Code,
    state: &mut State,
    count: u32,
    number: u64,
    out: &mut O,
) -> Result<Happened, RunFault>
    requires places { HasPlaces code.now }
    requires goes { ending state.old ≡ None }
    ensures { HasHappened result count code.now (EventOf.Turn number) state.old state.new (O.written out.old) (O.written out.new) (O.faults out.old) (O.faults out.new) }
{
    let before = Before::new(alloc, code, state, number)?;
    let turned = turn(alloc, code, state, number)?;
    let line = before.line(alloc, count, state)?;
    write_all(out, state.output())?;
    state.clear_output();
    match turned {
        Turned::WantsCollection => Ok(Happened {
            line,
            collects: true,
        }),
        Turned::Went | Turned::Ended(_) => Ok(Happened {
            line,
            collects: false,
        }),
    }
}

// Takes the turn of an event, if it is one. `count` turns have been given with it.
fn happen<O: Sink>(
    alloc: Global,
    code: &Code,
    state: &mut State,
    count: u32,
    event: Event,
    out: &mut O,
) -> Result<Happened, RunFault>
    requires places { HasPlaces code.now }
    requires goes { ending state.old ≡ None }
    ensures { HasHappened result count code.now (event_of event) state.old state.new (O.written out.old) (O.written out.new) (O.faults out.old) (O.faults out.new) }
{
    match event {
        Event::Turn(number) => take(alloc, code, state, count, number, out),
        Event::Collect => Ok(Happened {
            line: List::new(alloc),
            collects: true,
        }),
    }
}

// Does the collection that follows an event, if one does, and returns the text of the event.
fn follow<R: Threads + Sync, G: Gate + Sync>(
    rt: &R,
    alloc: Global,
    how: Manner,
    state: &mut State,
    accounts: &mut Accounts,
    happened: Happened,
    gate: &G,
) -> Result<List<u8>, Memory>
    requires whole { IsWhole state.old }
    requires gone { AreGone accounts.old.book state.old }
    requires count { accounts.old.book.collections < 2 ^ 32 - 1 }
    requires some { 0 < how.collecting.markers }
    requires few { how.collecting.markers ≤ 16 }
    ensures { IfOk result (HasFollowed how.collecting.recover how.collecting.sets_finalisers how.why happened state.old state.new accounts.old accounts.new) }
{
    if !happened.collects {
        return Ok(happened.line);
    }
    let mut text = Kept::new(happened.line);
    match tell(rt, alloc, how, state, &mut accounts.book, &mut text, gate) {
        Ok(totals) => accounts.totals = totals,
        // A write to memory fails only if memory has run out.
        Err(_) => return Err(Memory),
    }
    Ok(text.bytes)
}

// Goes over the events of a run. For each it writes the output of its turn to `out`, and its text to `err`.
fn go_over<R: Threads + Sync, O: Sink, E: Sink, G: Gate + Sync>(
    rt: &R,
    alloc: Global,
    code: &Code,
    options: RunOptions,
    out: &mut O,
    err: &mut E,
    gate: &G,
) -> Result<Course, RunFault>
    requires places { HasPlaces code.now }
    requires limits { IsWithinLimits options }
    ensures { HasGoneTraced result code.now options
        (sinks (O.written out.old) (O.faults out.old) (E.written err.old) (E.faults err.old))
        (sinks (O.written out.new) (O.faults out.new) (E.written err.new) (E.faults err.new)) }
{
    let how = Manner {
        collecting: CollectOptions {
            markers: options.markers,
            recover: options.recover,
            sets_finalisers: sets_finalisers(code),
        },
        why: options.why,
    };
    let mut events = Events::new(options.schedule, options.turns, options.every);
    let mut state = start(alloc, code)?;
    let mut accounts = Accounts {
        book: Ledger::new(alloc),
        totals: Totals {
            collections: 0,
            reported: 0,
            kept: 0,
            reclaimed: 0,
            objects: 0,
        },
    };
    while let Some(event) = next_event(&mut events, &state) {
        let happened = happen(alloc, code, &mut state, events.turns_done(), event, out)?;
        let text = follow(rt, alloc, how, &mut state, &mut accounts, happened, gate)?;
        write_all(err, text.as_slice())?;
    }
    Ok(Course {
        turns: events.turns_done(),
        ending: state.ending(),
        totals: accounts.totals,
    })
}

/// Runs the code by the options as `run` does, and tells each turn. It writes to the sinks in this order:
///
/// - After each turn its output goes to `out`. Then a line goes to `err`: the count of the turn, who takes it, at
///   which line of the source, and whom it starts, blocks, ends or wakes. The lines of a collection that
///   follows go to `err` in the same write.
/// - At the end the last line goes to `err`.
///
/// The time of a turn is linear in the goroutines that can run.
pub fn trace<R: Threads + Sync, O: Sink, E: Sink, G: Gate + Sync>(
    rt: &R,
    alloc: Global,
    code: &Code,
    options: RunOptions,
    out: &mut O,
    err: &mut E,
    gate: &G,
) -> Result<Status, RunFault>
    requires places { HasPlaces code.now }
    requires limits { IsWithinLimits options }
    ensures { HasTraced result code.now options
        (sinks (O.written out.old) (O.faults out.old) (E.written err.old) (E.faults err.old))
        (sinks (O.written out.new) (O.faults out.new) (E.written err.new) (E.faults err.new)) }
{
    let course = go_over(rt, alloc, code, options, out, err, gate)?;
    let line = last_line(alloc, code.texts.as_slice(), course.turns, course.ending)?;
    write_all(err, line.as_slice())?;
    Ok(status_by(course.totals.reported != 0, course.ending))
}
