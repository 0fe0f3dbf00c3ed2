//! A map from numbers, in blocks.
//!
//! The invariant: the blocks are in order, no block is empty, and the count is that of all entries.

ghost use Rattle.std.specs.Prelude.{◌≡◌, ◌==◌, [], None, Some, IsSome, not, length, option_map, slice_get, OnOk};
ghost use Rattle.std.specs.Prelude.{OnErr};
ghost use Rattle.std.specs.Borrow.{sem};
ghost use Rattle.golf_theory.specs.Maps.{find, insert, only, rank, IsRising};
ghost use Rattle.golf_theory.specs.Flags.{kept};
ghost use Rattle.golf_blocks.specs.Blocks.{entries_in};

use crate::blocks::Block;
use crate::counts::count_entries;
use crate::insertions::put_in;
use crate::removals::{retain_from, take_from};
use crate::spots::{Spot, guess, spot_of};
use crate::successors::next_in;
use golf_base::Memory;
use std::alloc::Global;
use std::marker::Model;

/// Entries, each a key and a value, in rising order of the keys.
///
/// They are in blocks of at most 512. `put` and `take` cost two binary searches, and move at most the
/// other entries of the block. They move the later blocks only if they split or remove a block.
/// A call that answers `Memory` leaves the map unchanged.
#[derive(Debug, Drop)]
pub struct BlockMap<V> {
    blocks: Vec<Block<V>>,
    count: usize,
    // where `get_mut` found a key last
    near: Spot,
}

impl<V> Model for BlockMap<V> {
    ghost use Rattle.std.specs.Prelude.{ℕ, List};
    ghost use Rattle.std.specs.Coded.{coded_list, coded×, coded_ℕ};

    ghost Value = { List (ℕ × V) };

    ghost coded = { coded_list (coded× coded_ℕ V.code) };

    ghost use Rattle.golf_blocks.specs.Inside.{entries_of, AreEntries};

    ghost view = { entries_of };

    ghost invariant = { AreEntries };
}

impl<V: Drop> BlockMap<V> {
    ghost use Rattle.golf_blocks.specs.Loans.{lends_value};

    /// Returns the empty map. It takes no memory.
    pub fn new(alloc: Global) -> BlockMap<V>
        ensures { result ≡ [] }
    {
        BlockMap {
            blocks: Vec::new(alloc),
            count: 0,
            near: guess(0),
        }
    }

    /// Returns how many entries there are.
    pub fn count(&self) -> usize
        ensures { result ≡ length self.now }
    {
        self.count
    }

    /// Lends the value of the key, or answers `None`. It looks first at the spot that the key has if all
    /// keys from 0 on are there, and then where `get_mut` found a key last.
    #[inline(always)]
    pub fn get(&self, key: u32) -> Option<&V>
        ensures { option_map (λ r. r.now) result ≡ find key self.now }
    {
        let blocks = self.blocks.as_slice();
        let spot = spot_of(blocks, self.near, key)?;
        Some(&blocks[spot.block].entries[spot.index].1)
    }

    /// Lends the value of a key that is there, which the caller may change. It looks first where `get`
    /// does.
    #[inline(always)]
    pub fn get_mut(&mut self, key: u32) -> &mut V
        requires { IsSome (find key self.old) }
        ensures* lends { sem 𝓛 (lends_value V.row self.entry key result) }
        ensures here { find key self.old ≡ Some result.now }
    {
        match spot_of(self.blocks.as_slice(), self.near, key) {
            Some(spot) => {
                self.near = spot;
                &mut self.blocks[spot.block].entries[spot.index].1
            }
            None => unreachable!(),
        }
    }

    /// Sets the value of a key that has none.
    pub fn put(&mut self, key: u32, value: V) -> Result<(), Memory>
        requires { find key self.old ≡ None }
        ensures ok { OnOk result (self.new ≡ insert key value self.old) }
        ensures err { OnErr result (self.new ≡ self.old) }
    {
        put_in(&mut self.blocks, key, value)?;
        self.count += 1;
        Ok(())
    }

    /// Removes the entry of the key, if it is there. It takes no memory.
    pub fn take(&mut self, key: u32)
        ensures { self.new ≡ only (λ p. not (p == key)) self.old }
    {
        let gone = take_from(&mut self.blocks, key);
        self.count -= gone;
    }

    /// Returns the least key from this one on, or `None`.
    pub fn next(&self, key: u32) -> Option<u32>
        ensures next { result ≡ option_map (λ e. e.0) (slice_get self.now (rank key self.now)) }
        ensures rises { IsRising self.now }
    {
        next_in(self.blocks.as_slice(), key)
    }

    /// Returns the blocks of the entries, in rising order of key.
    pub fn blocks(&self) -> &[Block<V>]
        ensures entries { entries_in result.now ≡ self.now }
        ensures rises { IsRising self.now }
    {
        self.blocks.as_slice()
    }

    /// Keeps the entries whose flag is true. The flags are in rising order of the keys.
    /// It takes no memory.
    pub fn retain(&mut self, stays: &[bool])
        requires { length stays.now ≡ length self.old }
        ensures { self.new ≡ kept stays.now self.old }
    {
        retain_from(&mut self.blocks, stays);
        self.count = count_entries(self.blocks.as_slice());
    }
}
