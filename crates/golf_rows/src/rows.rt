//! Rows that gain members one at a time, each in a list of its own.
//!
//! `flat.rt` has the rows that lie in one list and cannot gain members.

ghost use Rattle.std.specs.Prelude.{◌≡◌, ◌<◌, ℕ, IfOk, OnOk, length};
ghost use Rattle.golf_theory.specs.Membership.{In, Every};
ghost use Rattle.golf_rows.specs.Rows.{row_of, AddsTo};

use golf_base::{List, Memory};
use std::alloc::Global;

/// Returns `count` rows without members.
pub fn empty_rows(alloc: Global, count: u32) -> Result<List<List<u32>>, Memory>
    ensures length { IfOk result (λ rows. length rows ≡ count) }
    ensures empty { IfOk result (λ rows. (n s : ℕ) → In s (row_of rows n) → ⊥) }
{
    let mut rows = List::new(alloc);
    for _ in 0..count {
        rows.push(List::new(alloc))?;
    }
    Ok(rows)
}

// Adds a member to the row of a number.
fn add(rows: &mut List<List<u32>>, member: u32, number: u32) -> Result<(), Memory>
    requires { number < length rows.old }
    ensures length { length rows.new ≡ length rows.old }
    ensures ok { OnOk result (AddsTo (λ n. n ≡ number) member rows.old rows.new) }
{
    let row = rows.item_mut(number as usize);
    row.push(member)?;
    Ok(())
}

/// Adds a member to the rows of these numbers. On `Err` some of them may have it.
pub fn add_to_all(rows: &mut List<List<u32>>, member: u32, numbers: &[u32]) -> Result<(), Memory>
    requires { Every (λ n. n < length rows.old) numbers.now }
    ensures length { length rows.new ≡ length rows.old }
    ensures ok { OnOk result (AddsTo (λ n. In n numbers.now) member rows.old rows.new) }
{
    for number in numbers {
        add(rows, member, *number)?;
    }
    Ok(())
}
