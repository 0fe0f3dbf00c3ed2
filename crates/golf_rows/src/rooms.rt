//! Rows that are filled, each up to its own fixed room.
//!
//! The invariant: the next member of a row goes into the room of that row, and no room ends past
//! the members.

ghost use Rattle.std.specs.Prelude.{◌≡◌, ◌+◌, ◌<◌, ◌≤◌, ℕ, IfOk, length, map};
ghost use Rattle.golf_theory.specs.Membership.{In};
ghost use Rattle.golf_rows.specs.Rows.{AddsTo};
ghost use Rattle.golf_rows.specs.Rooms.{given, occurrences, room_for, spare_at};

use crate::flat::FlatRows;
use golf_base::{List, Memory};
use std::alloc::Global;
use std::marker::Model;

/// Rows of numbers that lie in one list, each with a fixed room. Contracts see for each row its
/// members and how many more it can take.
#[derive(Drop)]
pub(crate) struct RoomyRows {
    ends: List<u32>,
    nexts: List<u32>,
    members: List<u32>,
}

impl Model for RoomyRows {
    ghost use Rattle.std.specs.Prelude.{List, ℕ, ◌<◌, ◌^◌, length};
    ghost use Rattle.golf_base.specs.Roomy.{Roomy};
    ghost use Rattle.golf_rows.specs.Rooms.{roomy_from, AreRooms};

    ghost Value = { List (Roomy ℕ) };

    ghost view = { λ r. roomy_from 0 r.ends r.nexts r.members };

    ghost invariant = { λ r. AreRooms 0 r.ends r.nexts (length r.members) × (length r.members < 2 ^ 32) };
}

/// Returns the sum, or `Memory` if a `u32` cannot hold it.
pub(crate) fn sum(x: u32, y: u32) -> Result<u32, Memory>
    ensures { IfOk result (λ z. z ≡ x + y) }
{
    let sum = x.checked_add(y).ok_or(Memory)?;
    Ok(sum)
}

impl RoomyRows {
    /// Returns empty rows, each with the room given for it.
    ///
    /// `Memory` also comes if all rooms together are 2^32 members or more.
    pub(crate) fn new(alloc: Global, rooms: &[u32]) -> Result<RoomyRows, Memory>
        ensures { IfOk result (λ rows. rows ≡ map room_for rooms.now) }
    {
        let mut ends = List::new(alloc);
        let mut nexts = List::new(alloc);
        let mut end: u32 = 0;
        for room in rooms {
            nexts.push(end)?;
            end = sum(end, *room)?;
            ends.push(end)?;
        }
        let mut members = List::new(alloc);
        members.extend_with(end as usize, 0)?;
        Ok(RoomyRows {
            ends,
            nexts,
            members,
        })
    }

    // Adds a member to the row of a number. The caller knows that the row has room for it.
    fn add(&mut self, number: usize, member: u32)
        requires { 0 < spare_at self.old number }
        ensures { self.new ≡ given self.old number member }
    {
        let next = self.nexts.as_slice()[number];
        self.members.set(next as usize, member);
        self.nexts.set(number, next + 1);
    }

    /// Adds a member to the rows of these numbers. The caller knows that the rows have room for it.
    pub(crate) fn add_to_all(&mut self, member: u32, numbers: &[u32])
        requires { (n : ℕ) → occurrences n numbers.now ≤ spare_at self.old n }
        ensures length { length self.new ≡ length self.old }
        ensures room { (n : ℕ) → spare_at self.new n + occurrences n numbers.now ≡ spare_at self.old n }
        ensures added { AddsTo (λ n. In n numbers.now) member (map (λ row. row.items) self.old) (map (λ row. row.items) self.new) }
    {
        for number in numbers {
            self.add(*number as usize, member);
        }
    }

    /// Returns the rows. The caller knows that they are full.
    pub(crate) fn into_flat(self) -> FlatRows
        requires { (n : ℕ) → spare_at self n ≡ 0 }
        ensures { result ≡ map (λ row. row.items) self }
    {
        let RoomyRows {
            ends,
            nexts: _,
            members,
        } = self;
        FlatRows::of(ends, members)
    }
}
