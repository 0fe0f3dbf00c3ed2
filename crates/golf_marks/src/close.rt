//! From the mark words to flags and numbers.
//!
//! They are read after the marking, when no thread writes the words any more.

ghost use Rattle.std.specs.Prelude.{◌^◌, ◌≡◌, ◌<◌, ◌≤◌, ◌+◌, ◌*◌, ◌==◌, ◌↔◌, ℕ, [], length, slice_index_or, false};
ghost use Rattle.std.specs.List.Sorted.{IsStrictlyIncreasing};
ghost use Rattle.std.specs.Mem.Slots.{slots_items, slots_len, IsFull};
ghost use Rattle.golf_theory.specs.Membership.{In};
ghost use Rattle.golf_marks.specs.Bits.{bit_at};
ghost use Rattle.golf_marks.specs.Flags.{IsSet};

use crate::bits::bit;
use atomic_table::Closed;
use golf_base::{List, Room};
use std::alloc::Global;

// Sets the flags: for each place from `first` on whether it is marked.
pub(crate) fn fill(closed: &Closed<(), Global>, first: usize, mut flags: List<bool>) -> List<bool>
    requires within { first + length flags ≤ 64 * slots_len closed.now.words }
    requires small { first + length flags < 2 ^ 32 }
    requires full { IsFull closed.now.words }
    ensures length { length result ≡ length flags }
    ensures flags { (k : ℕ) → k < length flags → slice_index_or result k false ≡ (bit_at (slots_items closed.now.words) (first + k) == 1) }
{
    for i in 0..flags.len() {
        let place = first + i;
        flags.set(i, bit(closed.word(place / 64), place) == 1);
    }
    flags
}

/// Returns the numbers of the true flags, in rising order, in a room that holds them. It takes no memory.
pub fn numbers_of(flags: &[bool], room: Room<u32>) -> List<u32>
    requires empty { room.items ≡ [] }
    requires room { length flags.now ≤ room.spare }
    requires small { length flags.now < 2 ^ 32 }
    ensures rising { IsStrictlyIncreasing result }
    ensures members { (n : ℕ) → In n result ↔ IsSet flags.now n }
{
    let mut numbers = room;
    for (number, flag) in flags.iter().enumerate() {
        if *flag {
            numbers.push_ready(number as u32);
        }
    }
    numbers.into_list()
}
