//! The visited states, found by their hashes.
//!
//! A row of the table has the visits with the same upper bits of the hash, the latest one first.

ghost use Rattle.std.specs.Prelude.{◌≡◌, [], ◌<◌, ◌^◌, Some, length, slice_get, IfOk, IfSome, OnOk, OnErr};
ghost use Rattle.golf_explore_laws.specs.After.{silent};
ghost use Rattle.golf_explore.specs.AlikeStates.{HasOneAt};
ghost use Rattle.golf_explore.specs.VisitLists.{states, HasPushed};

use crate::alike_states::count_as_one;
use golf_base::{List, Memory};
use golf_state::State;
use std::alloc::Global;

/// The turns that led to a visit from an earlier one.
#[derive(Drop)]
pub(crate) struct Came {
    /// The place of the visit in which the first turn began.
    pub(crate) parent: u32,
    /// The numbers of the turns.
    pub(crate) numbers: List<u64>,
}

/// The way of a turn of a visit to the visit of the state after it.
#[derive(Clone, Copy, Debug, PartialEq, Eq)]
pub(crate) struct Edge {
    /// The place of the visit that it leads to.
    pub(crate) to: u32,
    /// How many turns it has: the turn itself, and the frame-local ones after it.
    pub(crate) turns: u64,
}

/// A visited state.
#[derive(Drop)]
pub(crate) struct Visit {
    pub(crate) state: State,
    /// The turns that led to it, or `None` for the opening state.
    pub(crate) came: Option<Came>,
    /// The hash of the state, by which it is found.
    pub(crate) hash: u64,
    /// The place of the visit before it in its row. For the first one of the row it is past the end.
    pub(crate) before: u32,
}

/// The visits in order, and a table of rows by hash.
///
/// Only the running time of a search depends on hashes and rows.
#[derive(Drop)]
pub(crate) struct Visits {
    pub(crate) list: List<Visit>,
    /// For each row the place of its last visit.
    pub(crate) rows: List<u32>,
}

/// How many rows the table has: one for each value of the upper 16 bits of a hash.
const ROWS: usize = 1 << 16;

// The row of a hash.
fn row_of(hash: u64) -> usize {
    (hash >> 48) as usize
}

impl Visits {
    /// Returns a table without a visit.
    pub(crate) fn new(alloc: Global) -> Result<Visits, Memory>
        ensures { IfOk result (λ visits. visits.list ≡ []) }
    {
        let mut rows = List::new(alloc);
        rows.extend_with(ROWS, u32::MAX)?;
        Ok(Visits {
            list: List::new(alloc),
            rows,
        })
    }

    // The place of the last visit of a row. For an empty row it is past the end.
    fn last_of(&self, row: usize) -> u32 {
        self.rows.as_slice().get(row).copied().unwrap_or(u32::MAX)
    }

    /// Returns the place of the visit of the state, or `None`. The hash is its own. Output is not compared.
    pub(crate) fn find(
        &self,
        alloc: Global,
        state: &State,
        hash: u64,
    ) -> Result<Option<u32>, Memory>
        ensures { IfOk result (λ found. IfSome found (λ at. slice_get (states self.now.list) at ≡ Some (silent state.now))) }
    {
        let mut at = self.last_of(row_of(hash));
        for _ in 0..self.list.len() {
            let Some(visit) = self.list.as_slice().get(at as usize) else {
                return Ok(None);
            };
            if visit.hash == hash && visit.state.is(state, alloc)? {
                return Ok(Some(at));
            }
            at = visit.before;
        }
        Ok(None)
    }

    /// Returns the place of a visit whose state counts as one with this state, or `None`. The hash is that of alike
    /// states. Output is not compared.
    pub(crate) fn find_alike(
        &self,
        alloc: Global,
        state: &State,
        hash: u64,
    ) -> Result<Option<u32>, Memory>
        ensures { IfOk result (λ found. IfSome found (HasOneAt (states self.now.list) (silent state.now))) }
    {
        let mut at = self.last_of(row_of(hash));
        for _ in 0..self.list.len() {
            let Some(visit) = self.list.as_slice().get(at as usize) else {
                return Ok(None);
            };
            if visit.hash == hash && count_as_one(alloc, state, &visit.state)? {
                return Ok(Some(at));
            }
            at = visit.before;
        }
        Ok(None)
    }

    /// Returns a copy of the state of the visit at this place, without its output.
    pub(crate) fn copy_of(&self, alloc: Global, at: u32) -> Result<State, Memory>
        requires { at < length self.now.list }
        ensures { IfOk result (λ state. slice_get (states self.now.list) at ≡ Some state) }
    {
        let mut state = self.list.as_slice()[at as usize].state.copy(alloc)?;
        state.clear_output();
        Ok(state)
    }

    /// Adds a visit at the end. On `Err` the list is unchanged.
    pub(crate) fn push(&mut self, state: State, came: Option<Came>, hash: u64) -> Result<(), Memory>
        requires { length self.old.list < 2 ^ 32 }
        ensures ok { OnOk result (HasPushed self.old.list self.new.list state came) }
        ensures err { OnErr result (self.new.list ≡ self.old.list) }
    {
        let row = row_of(hash);
        let before = self.last_of(row);
        let at = self.list.len() as u32;
        self.list.push(Visit {
            state,
            came,
            hash,
            before,
        })?;
        if row < self.rows.len() {
            self.rows.set(row, at);
        }
        Ok(())
    }
}
