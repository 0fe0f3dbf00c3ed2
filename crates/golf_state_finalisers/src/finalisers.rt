//! All finalisers of a running program.
//!
//! They are the entries of a block map.

ghost use Rattle.std.specs.Prelude.{◌≡◌, ◌==◌, [], None, not, length, IfOk, OnOk, OnErr};
ghost use Rattle.golf_theory.specs.Maps.{find, insert, only, IsRising};
ghost use Rattle.golf_theory.specs.Flags.{kept, left_out};
ghost use Rattle.golf_model.specs.Collections.{queued};

use crate::walks::{list_pairs, put_all, unflagged_in};
use golf_base::{List, Memory};
use golf_blocks::BlockMap;
use golf_data::Queued;
use std::alloc::Global;
use std::marker::Model;

/// All finalisers, each an object and a function, in rising order of the objects' numbers.
///
/// They are in blocks of at most 512. `put` and `take` cost two binary searches, and move at most the
/// other finalisers of the block. They move the later blocks only if they split or remove a block.
/// A call that answers `Memory` leaves the finalisers unchanged.
#[derive(Debug, Drop)]
pub struct Finalisers {
    entries: BlockMap<u32>,
}

impl Model for Finalisers {
    ghost use Rattle.std.specs.Prelude.{ℕ, List};

    ghost Value = { List (ℕ × ℕ) };

    ghost view = { λ s. s.entries };
}

impl Finalisers {
    /// Returns the empty `Finalisers`. It takes no memory.
    pub fn new(alloc: Global) -> Finalisers
        ensures { result ≡ [] }
    {
        Finalisers {
            entries: BlockMap::new(alloc),
        }
    }

    /// Returns how many finalisers there are.
    pub fn count(&self) -> usize
        ensures { result ≡ length self.now }
    {
        self.entries.count()
    }

    /// Returns the function of the object's finaliser, or `None`.
    pub fn function_of(&self, object: u32) -> Option<u32>
        ensures { result ≡ find object self.now }
    {
        self.entries.get(object).copied()
    }

    /// Sets the finaliser of an object that has none.
    pub fn put(&mut self, object: u32, function: u32) -> Result<(), Memory>
        requires { find object self.old ≡ None }
        ensures ok { OnOk result (self.new ≡ insert object function self.old) }
        ensures err { OnErr result (self.new ≡ self.old) }
    {
        self.entries.put(object, function)
    }

    /// Removes the object's finaliser, if it has one. It takes no memory.
    pub fn take(&mut self, object: u32)
        ensures { self.new ≡ only (λ p. not (p == object)) self.old }
    {
        self.entries.take(object);
    }

    /// Returns a copy of the finalisers, which is equal.
    pub fn copy(&self, alloc: Global) -> Result<Finalisers, Memory>
        requires { IsRising self.now }
        ensures { IfOk result (λ copy. copy ≡ self.now) }
    {
        let pairs = self.list(alloc)?;
        let mut entries = BlockMap::new(alloc);
        put_all(&mut entries, pairs.as_slice())?;
        Ok(Finalisers { entries })
    }

    /// Returns all finalisers in rising order of their objects' numbers.
    pub fn list(&self, alloc: Global) -> Result<List<(u32, u32)>, Memory>
        ensures { IfOk result (λ pairs. pairs ≡ self.now) }
    {
        list_pairs(alloc, self.entries.blocks())
    }

    /// Returns the entries of the finaliser queue for the finalisers whose flag is false. The flags are
    /// in rising order of the objects' numbers.
    pub fn unflagged(&self, alloc: Global, stays: &[bool]) -> Result<List<Queued>, Memory>
        requires { length stays.now ≡ length self.now }
        ensures { IfOk result (λ entries. entries ≡ queued (left_out stays.now self.now)) }
    {
        unflagged_in(alloc, self.entries.blocks(), stays)
    }

    /// Keeps the finalisers whose flag is true. The flags are in rising order of the objects' numbers.
    /// It takes no memory.
    pub fn retain(&mut self, stays: &[bool])
        requires { length stays.now ≡ length self.old }
        ensures { self.new ≡ kept stays.now self.old }
    {
        self.entries.retain(stays);
    }
}
