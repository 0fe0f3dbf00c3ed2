//! The inverse of rows: for each number the rows that have it as a member.
//!
//! The members are counted first, and then filled into rows that have exactly the room that they
//! need.

ghost use Rattle.std.specs.Prelude.{◌≡◌, ◌+◌, ◌<◌, ◌^◌, ℕ, IfOk, OnOk, length, slice_index_or};
ghost use Rattle.golf_theory.specs.Membership.{Every};
ghost use Rattle.golf_rows.specs.Rows.{row_of, IsInverseBelow};
ghost use Rattle.golf_rows.specs.Rooms.{in_rows, occurrences};

use crate::flat::FlatRows;
use crate::rooms::{RoomyRows, sum};
use golf_base::{List, Memory};
use std::alloc::Global;

// Adds one to the count of each member of a row, once per occurrence.
fn count_row(counts: &mut List<u32>, row: &[u32]) -> Result<(), Memory>
    requires { Every (λ n. n < length counts.old) row.now }
    ensures length { length counts.new ≡ length counts.old }
    ensures counts { OnOk result ((n : ℕ) → slice_index_or counts.new n 0 ≡ slice_index_or counts.old n 0 + occurrences n row.now) }
{
    for number in row {
        let at = *number as usize;
        let count = sum(counts.as_slice()[at], 1)?;
        counts.set(at, count);
    }
    Ok(())
}

// Returns how often each number below `count` is a member.
fn counts_of(alloc: Global, rows: &FlatRows, count: u32) -> Result<List<u32>, Memory>
    requires { Every (Every (λ n. n < count)) rows.now }
    ensures length { IfOk result (λ counts. length counts ≡ count) }
    ensures counts { IfOk result (λ counts. (n : ℕ) → slice_index_or counts n 0 ≡ in_rows n rows.now) }
{
    let mut counts = List::new(alloc);
    counts.extend_with(count as usize, 0)?;
    for at in 0..rows.len() {
        count_row(&mut counts, rows.row(at))?;
    }
    Ok(counts)
}

/// Returns for each number below `count` the places of the rows that have it as a member. The
/// caller knows that all members are below `count`.
///
/// Members are counted first, so that each row of the answer takes exactly the room that it needs.
/// `Memory` also comes if there are 2^32 members or more.
pub fn inverse(alloc: Global, rows: &FlatRows, count: u32) -> Result<FlatRows, Memory>
    requires below { Every (Every (λ n. n < count)) rows.now }
    requires few { length rows.now < 2 ^ 32 }
    ensures { IfOk result (IsInverseBelow (length rows.now) count (row_of rows.now)) }
{
    let counts = counts_of(alloc, rows, count)?;
    let mut inverse = RoomyRows::new(alloc, counts.as_slice())?;
    for at in 0..rows.len() {
        inverse.add_to_all(at as u32, rows.row(at));
    }
    Ok(inverse.into_flat())
}
