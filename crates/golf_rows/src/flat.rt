//! Rows that lie one after another in one list.
//!
//! The invariant: no row ends before the row before it, and none past the members. Members after
//! the end of the last row belong to no row.

ghost use Rattle.std.specs.Prelude.{◌≡◌, ◌+◌, ◌<◌, ◌++◌, ◌∷◌, [], IfOk, OnErr, OnOk, Some, length, slice_get};
ghost use Rattle.std.specs.Prelude.{slice_index_or, take};

use golf_base::{List, Memory};
use std::alloc::Global;
use std::marker::Model;

/// Rows of numbers, added at the end. Contracts see the list of the rows.
///
/// The members of all rows lie in one list, and a second list says where each row ends. A row takes
/// four bytes, and four more for each member. There are fewer than 2^32 members.
#[derive(Debug, Drop)]
pub struct FlatRows {
    ends: List<u32>,
    members: List<u32>,
}

impl Model for FlatRows {
    ghost use Rattle.std.specs.Prelude.{List, ℕ, length};
    ghost use Rattle.golf_rows.specs.Ends.{rows_from, AreEnds};

    ghost Value = { List (List ℕ) };

    ghost view = { λ r. rows_from 0 r.ends r.members };

    ghost invariant = { λ r. AreEnds 0 r.ends (length r.members) };
}

// Returns where the row at a place begins, which is where the row before it ends.
#[inline(always)]
fn start_of(ends: &[u32], at: usize) -> usize
    ensures { result ≡ slice_index_or (0 ∷ ends.now) at 0 }
{
    if at == 0 {
        return 0;
    }
    match ends.get(at - 1) {
        Some(end) => *end as usize,
        None => 0,
    }
}

// Returns where `count` members from `start` on end, or `Memory` if a `u32` cannot hold the place.
fn end_after(start: usize, count: usize) -> Result<u32, Memory>
    ensures { IfOk result (λ end. end ≡ start + count) }
{
    let end = start.checked_add(count).ok_or(Memory)?;
    if end > u32::MAX as usize {
        return Err(Memory);
    }
    Ok(end as u32)
}

impl FlatRows {
    ghost use Rattle.golf_rows.specs.Ends.{rows_from, AreEnds};

    /// Returns the rows of these members. `ends` says where each of them ends.
    pub(crate) fn of(ends: List<u32>, members: List<u32>) -> FlatRows
        requires { AreEnds 0 ends (length members) }
        ensures { result ≡ rows_from 0 ends members }
    {
        FlatRows { ends, members }
    }

    /// Returns no rows. It takes no memory.
    pub fn new(alloc: Global) -> FlatRows
        ensures { result ≡ [] }
    {
        FlatRows {
            ends: List::new(alloc),
            members: List::new(alloc),
        }
    }

    /// Returns how many rows there are.
    pub fn len(&self) -> usize
        ensures { result ≡ length self.now }
    {
        self.ends.len()
    }

    /// Returns the members of the row at a place.
    #[inline(always)]
    pub fn row(&self, at: usize) -> &[u32]
        requires { at < length self.now }
        ensures { slice_get self.now at ≡ Some result.now }
    {
        let ends = self.ends.as_slice();
        let (before, _) = self.members.as_slice().split_at(ends[at] as usize);
        let (_, row) = before.split_at(start_of(ends, at));
        row
    }

    /// Adds a row at the end. On `Err` the rows are unchanged.
    ///
    /// `Memory` also comes if there would be 2^32 members or more.
    pub fn push(&mut self, row: &[u32]) -> Result<(), Memory>
        ensures ok { OnOk result (self.new ≡ self.old ++ row.now ∷ []) }
        ensures err { OnErr result (self.new ≡ self.old) }
    {
        let start = start_of(self.ends.as_slice(), self.ends.len());
        let end = end_after(start, row.len())?;
        self.members.truncate(start);
        self.members.extend_from_slice(row)?;
        self.ends.push(end)?;
        Ok(())
    }

    /// Drops the rows from place `n` on.
    pub fn truncate(&mut self, n: usize)
        ensures { self.new ≡ take n self.old }
    {
        self.ends.truncate(n);
    }
}
