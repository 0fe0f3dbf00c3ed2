//! The numbers of the goroutines that run.
//!
//! The invariant: the blocks are in order, and the sums and the count are those of the blocks.

ghost use Rattle.std.specs.Prelude.{◌≡◌, ◌<◌, ◌/◌, ◌^◌, ℕ, [], true, length, option_map, slice_get, OnOk};
ghost use Rattle.golf_theory.specs.Membership.{In};
ghost use Rattle.golf_state_goroutines.specs.Goroutines.{IsNone};
ghost use Rattle.golf_state_goroutines.specs.RunLists.{runs_with, runs_without, has_place};

use crate::block_list::{add_block, close_blocks, is_open};
use crate::run_blocks::{RunBlock, block_of, start, stop};
use crate::sums::recount;
use crate::walks::{empty_all, running_at};
use golf_base::{GoroutineId, Memory};
use golf_blocks::BlockMap;
use std::alloc::Global;
use std::marker::Model;

/// The numbers of the goroutines that run, in rising order.
///
/// They are in blocks by number. Each block has room for its 256 numbers beforehand, so only `open` takes
/// memory. For each 64 blocks the list keeps how many goroutines run there.
#[derive(Debug, Drop)]
pub struct RunList {
    blocks: Vec<RunBlock>,
    sums: Vec<usize>,
    count: usize,
    limit: usize,
}

impl Model for RunList {
    ghost use Rattle.golf_state_goroutines.specs.RunLists.{Runners};

    ghost Value = { Runners };

    ghost use Rattle.golf_state_goroutines.specs.InsideRuns.{runs_of, IsRunList};

    ghost view = { runs_of };

    ghost invariant = { IsRunList };
}

impl RunList {
    /// Returns the empty list. It takes no memory.
    pub fn new(alloc: Global) -> RunList
        ensures { result ≡ record { numbers = []; keys = [] } }
    {
        RunList {
            blocks: Vec::new(alloc),
            sums: Vec::new(alloc),
            count: 0,
            limit: 16,
        }
    }

    /// Returns how many goroutines run.
    #[inline(always)]
    pub fn count(&self) -> usize
        ensures { result ≡ length self.now.numbers }
    {
        self.count
    }

    /// Returns the goroutine at this place among those that run, or `None`.
    #[inline(always)]
    pub fn at(&self, k: usize) -> Option<GoroutineId>
        ensures { option_map (λ g. g.0) result ≡ slice_get self.now.numbers k }
    {
        if let Some(block) = self.blocks.as_slice().first() {
            if k < block.running.len() {
                return Some(block.running[k]);
            }
        }
        running_at(self.blocks.as_slice(), self.sums.as_slice(), k)
    }

    /// Makes room for the 256 numbers from 256 times the key on. On `Err` there is the room of before.
    pub fn open(&mut self, key: u32) -> Result<(), Memory>
        requires { key < 2 ^ 24 }
        ensures numbers { self.new.numbers ≡ self.old.numbers }
        ensures opened { OnOk result (In key self.new.keys) }
        ensures keys { (k : ℕ) → In k self.old.keys → In k self.new.keys }
    {
        let at = block_of(self.blocks.as_slice(), key);
        if is_open(self.blocks.as_slice(), at, key) {
            return Ok(());
        }
        add_block(&mut self.blocks, &mut self.sums, at, key)
    }

    /// Removes this number, if it is there. It takes no memory.
    #[inline(always)]
    pub fn stop(&mut self, number: u32)
        ensures { self.new ≡ runs_without number self.old }
    {
        let at = block_of(self.blocks.as_slice(), number / 256);
        if at >= self.blocks.len() {
            return;
        }
        let gone = stop(&mut self.blocks[at], number);
        self.sums[at / 64] -= gone;
        self.count -= gone;
    }

    /// Adds this number, for which there is room, and which is not there. It takes no memory.
    #[inline(always)]
    pub fn start(&mut self, number: u32)
        requires room { In (number / 256) self.old.keys }
        requires none { IsNone number self.old.numbers }
        ensures { self.new ≡ runs_with number self.old }
    {
        let at = block_of(self.blocks.as_slice(), number / 256);
        start(&mut self.blocks[at], number);
        self.sums[at / 64] += 1;
        self.count += 1;
    }

    /// Removes all numbers. The room stays. It takes no memory.
    pub fn clear(&mut self)
        ensures { self.new ≡ record self.old { numbers = [] } }
    {
        empty_all(&mut self.blocks);
        recount(self.blocks.as_slice(), &mut self.sums);
        self.count = 0;
    }

    /// Gives back the room of those blocks for which no number is there, and in which no goroutine runs.
    pub fn close<V: Drop>(&mut self, places: &BlockMap<V>)
        ensures numbers { self.new.numbers ≡ self.old.numbers }
        ensures keys { (k : ℕ) → In k self.old.keys → has_place k places.now ≡ true → In k self.new.keys }
    {
        close_blocks(&mut self.blocks, &mut self.sums, places);
        self.limit = self.blocks.len() * 2 + 16;
    }

    /// Does what `close` does if there are more than twice as many blocks as it left last, and 16 more.
    #[inline(always)]
    pub fn close_if_crowded<V: Drop>(&mut self, places: &BlockMap<V>)
        ensures numbers { self.new.numbers ≡ self.old.numbers }
        ensures keys { (k : ℕ) → In k self.old.keys → has_place k places.now ≡ true → In k self.new.keys }
    {
        if self.blocks.len() > self.limit {
            self.close(places);
        }
    }
}
