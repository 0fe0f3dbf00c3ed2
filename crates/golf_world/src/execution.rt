//! The program that passes step: its state, its book of reports, and the history of its turns.
//!
//! The invariant: state, book and reports are those of the run of the history's entries.

ghost use Rattle.std.specs.Prelude.{◌≡◌, ◌+◌, ◌<◌, ◌≤◌, ◌++◌, [], IfOk, OnErr, None, length, option_to_list};
ghost use Rattle.golf_data.specs.Places.{HasPlaces};
ghost use Rattle.golf_model.specs.State.{ending as ending_of, runnable, start as start_of};
ghost use Rattle.golf_world.specs.History.{most_entries, number_at};
ghost use Rattle.golf_world.specs.Steps.{DoesTurn};

use crate::history::{History, HistoryEntry, MOST_ENTRIES, Stepped};
use crate::rule::WorldName;
use crate::turn_with_collection::turn_and_collect;
use golf_base::{Memory, Room};
use golf_data::{Code, Report};
use golf_reclaim::Ledger;
use golf_state::State;
use std::alloc::Global;
use std::marker::{Model, PhantomData};
use std::thread::Threads;

/// The state after the entries so far. Contracts see it as the entries.
#[derive(Drop)]
pub(crate) struct Execution<W: WorldName> {
    state: State,
    book: Ledger,
    entries: Room<HistoryEntry>,
    reports: Room<Report>,
    of: PhantomData<W>,
}

impl<W: WorldName> Model for Execution<W> {
    ghost use Rattle.std.specs.Prelude.{List};
    ghost use Rattle.golf_world.specs.declared.history.HistoryEntry.{HistoryEntry};
    ghost use Rattle.golf_world.specs.History.{IsExecution};

    ghost Value = { List HistoryEntry };

    ghost view = { λ c. c.entries.items };

    ghost invariant = { λ c. IsExecution W.code W.passes c.state c.book c.entries.items c.reports.items };
}

// How many goroutines can run.
fn how_many(state: &State) -> u64
    ensures { result ≡ length (runnable state.now) }
{
    state.runnable_count() as u64
}

// The number with which a pass takes the turn at a place, if `count` goroutines can run.
fn number_of(pass: u32, at: usize, count: u64) -> u64
    requires some { 0 < count }
    requires few { count ≤ most_entries + 2 }
    requires at { at < most_entries }
    ensures { result ≡ number_at pass at count }
{
    (pass as u64 + at as u64) % count + count * at as u64
}

// Adds the report, if there is one.
fn add_report(reports: &mut Room<Report>, report: Option<Report>)
    requires { 0 < reports.old.spare }
    ensures { reports.new.items ≡ reports.old.items ++ option_to_list report }
{
    if let Some(report) = report {
        reports.push_ready(report);
    }
}

impl<W: WorldName> Execution<W> {
    ghost use Rattle.golf_world.specs.History.{after, reports_after, IsHistory};

    /// Returns the execution without an entry.
    pub(crate) fn new(alloc: Global, state: State) -> Execution<W>
        requires state { state ≡ start_of W.code }
        requires places { HasPlaces W.code }
        ensures { result ≡ [] }
    {
        Execution {
            state,
            book: Ledger::new(alloc),
            entries: Room::new(alloc),
            reports: Room::new(alloc),
            of: PhantomData,
        }
    }

    /// Takes a turn of this pass and adds its entry, unless the program has ended or the history is full.
    /// On `Err`, which is `Memory`, nothing has changed.
    pub(crate) fn take_turn<R: Threads + Sync>(
        &mut self,
        rt: &R,
        alloc: Global,
        code: &Code,
        pass: u32,
    ) -> Result<Stepped, Memory>
        requires code { code.now ≡ W.code }
        requires pass { pass < W.passes }
        ensures ok { IfOk result (λ s. DoesTurn W.code pass s self.old self.new) }
        ensures unchanged { OnErr result (self.new ≡ self.old) }
        ensures goes { OnErr result (ending_of (after W.code self.old) ≡ None) }
        ensures few { OnErr result (length self.old < most_entries) }
    {
        if let Some(ending) = self.state.ending() {
            return Ok(Stepped::Ended(ending));
        }
        let at = self.entries.len();
        if at >= MOST_ENTRIES {
            return Ok(Stepped::Spent);
        }
        self.entries.reserve(1)?;
        self.reports.reserve(1)?;
        let count = how_many(&self.state);
        let number = number_of(pass, at, count);
        let goroutine = self.state.runnable_at((number % count) as usize);
        let report = turn_and_collect(rt, alloc, code, &mut self.state, &mut self.book, number)?;
        add_report(&mut self.reports, report);
        self.entries.push_ready(HistoryEntry { pass, number });
        Ok(Stepped::Turned {
            at: at as u32,
            goroutine,
            number,
        })
    }

    /// Returns the state and the history.
    pub(crate) fn into_parts(self) -> (State, History)
        ensures entries { result.1.entries ≡ self }
        ensures state { result.0 ≡ after W.code result.1.entries }
        ensures reports { result.1.reports ≡ reports_after W.code result.1.entries }
        ensures history { IsHistory W.code W.passes result.1.entries }
        ensures few { length result.1.entries ≤ most_entries }
    {
        let Execution {
            state,
            book: _,
            entries,
            reports,
            of: _,
        } = self;
        let history = History {
            entries: entries.into_list(),
            reports: reports.into_list(),
        };
        (state, history)
    }
}
