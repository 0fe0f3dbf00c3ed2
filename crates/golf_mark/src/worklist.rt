//! The marker's own worklist.
//!
//! No other marker sees it. The marker mostly scans places from its end, and shares places from its front.

ghost use Rattle.std.specs.Prelude.{◌≡◌, ◌+◌, ◌<◌, ◌≤◌, ◌∷◌, ◌++◌, [], IfOk, MatchOption, length};
ghost use Rattle.golf_marks.specs.Batches.{batched};
ghost use Rattle.golf_mark.specs.UnderWay.{IsTaken};

use golf_base::Memory;
use golf_marks::Batch;
use std::alloc::Global;
use std::marker::Model;

/// From this many places on, `take` takes the first one.
const MANY: usize = 64;

/// A list of places that grows at its end, and shrinks at its end and at its front.
///
/// Places taken from the front are only skipped. Their room comes back when the list is cleared.
#[derive(Drop)]
pub(crate) struct Worklist {
    places: Vec<u32>,
    skipped: usize,
}

impl Model for Worklist {
    ghost use Rattle.std.specs.Prelude.{ℕ, ◌-◌, ◌≤◌, drop, length, vec_capacity, vec_len};
    ghost use Rattle.std.specs.Coded.{coded_ℕ};
    ghost use Rattle.golf_base.specs.Roomy.{Roomy, roomy_code};

    ghost Value = { Roomy ℕ };

    ghost coded = { roomy_code coded_ℕ };

    ghost view = { λ s. record { items = drop s.skipped s.places.items; spare = vec_capacity s.places - vec_len s.places } };

    ghost invariant = { λ s. s.skipped ≤ length s.places.items };
}

impl Worklist {
    /// Returns the empty list, with room for `room` places.
    pub(crate) fn new(alloc: Global, room: usize) -> Result<Worklist, Memory>
        ensures items { IfOk result (λ s. s.items ≡ []) }
        ensures room { IfOk result (λ s. room ≤ s.spare) }
    {
        Ok(Worklist {
            places: Vec::with_capacity(alloc, room)?,
            skipped: 0,
        })
    }

    pub(crate) fn len(&self) -> usize
        ensures { result ≡ length self.now.items }
    {
        self.places.len() - self.skipped
    }

    pub(crate) fn as_slice(&self) -> &[u32]
        ensures { result.now ≡ self.now.items }
    {
        &self.places.as_slice()[self.skipped..]
    }

    /// Adds a place at the end. The list has room for it.
    pub(crate) fn push(&mut self, place: u32)
        requires { 0 < self.old.spare }
        ensures items { self.new.items ≡ self.old.items ++ place ∷ [] }
        ensures spare { self.new.spare + 1 ≡ self.old.spare }
    {
        self.places.push_reserved(place);
    }

    /// Adds the places of a batch at the end, in rising order. The list has room for them.
    #[inline(always)]
    pub(crate) fn push_all(&mut self, batch: Batch)
        requires { length (batched batch) ≤ self.old.spare }
        ensures items { self.new.items ≡ self.old.items ++ batched batch }
        ensures spare { self.new.spare + length (batched batch) ≡ self.old.spare }
    {
        let mut batch = batch;
        while let Some(place) = batch.pop() {
            self.push(place);
        }
    }

    /// Takes the last place, or returns `None`.
    pub(crate) fn pop(&mut self) -> Option<u32>
        ensures items { MatchOption result ((self.old.items ≡ []) × (self.new ≡ self.old)) (λ last. self.old.items ≡ self.new.items ++ last ∷ []) }
        ensures spare { self.old.spare ≤ self.new.spare }
    {
        if self.places.len() == self.skipped {
            return None;
        }
        self.places.pop()
    }

    /// Takes the first place, or returns `None`.
    pub(crate) fn shift(&mut self) -> Option<u32>
        ensures items { MatchOption result ((self.old.items ≡ []) × (self.new ≡ self.old)) (λ first. self.old.items ≡ first ∷ self.new.items) }
        ensures spare { self.new.spare ≡ self.old.spare }
    {
        let first = self.places.as_slice().get(self.skipped).copied()?;
        self.skipped += 1;
        Some(first)
    }

    /// Takes the last place, or the first one if there are many, or returns `None`.
    ///
    /// The last place is near the places that were scanned before it. If there are many, the next places are
    /// known early, and their rows can be fetched side by side.
    #[inline(always)]
    pub(crate) fn take(&mut self) -> Option<u32>
        ensures items { MatchOption result ((self.old.items ≡ []) × (self.new ≡ self.old)) (λ place. IsTaken place self.old.items self.new.items) }
        ensures spare { self.old.spare ≤ self.new.spare }
    {
        if self.len() < MANY {
            self.pop()
        } else {
            self.shift()
        }
    }

    /// Drops all places.
    pub(crate) fn clear(&mut self)
        ensures items { self.new.items ≡ [] }
        ensures spare { self.old.spare ≤ self.new.spare }
    {
        self.places.clear();
        self.skipped = 0;
    }
}
