//! A vector of which contracts also see how many items it can still take without memory.
//!
//! The main word is `spare`, that number. A caller that reserves room first can add items by
//! `push_ready`, which cannot fail.

ghost use Rattle.std.specs.Prelude.{◌≡◌, [], ◌∷◌, ◌++◌, ◌+◌, ◌-◌, ◌<◌, ◌≤◌, ◌↔◌, length, remove, slice_get, take};
ghost use Rattle.std.specs.Prelude.{IsTrue, MatchOption, OnOk, OnErr, IfOk};
ghost use Rattle.std.specs.Borrow.{Lends, sem, Array};
ghost use Rattle.golf_base.specs.contracts.room.Room.{the_row};
ghost use Rattle.golf_base.specs.Roomy.{with_overwritten};

use crate::{List, Memory};
use std::alloc::Global;
use std::marker::Model;

/// A vector of which contracts see the items and one more number, `spare`. It says how many items
/// the vector can still take without memory.
///
/// Only `with_room`, `push` and `reserve` take memory. Only `push_ready` and `push` lower `spare`.
#[derive(Debug, Drop)]
pub struct Room<T> {
    inner: Vec<T>,
}

impl<T> Model for Room<T> {
    ghost use Rattle.std.specs.Prelude.{List, ◌-◌, vec_len, vec_capacity};
    ghost use Rattle.golf_base.specs.Roomy.{Roomy, roomy_code};

    ghost Value = { Roomy T };

    ghost coded = { roomy_code T.code };

    ghost view = { λ r. record { items = r.inner.items; spare = vec_capacity r.inner - vec_len r.inner } };
}

impl<T> Room<T> {
    /// Returns a vector without items and without room. It takes no memory.
    pub fn new(alloc: Global) -> Room<T>
        ensures items { result.items ≡ [] }
        ensures spare { result.spare ≡ 0 }
    {
        Room {
            inner: Vec::new(alloc),
        }
    }

    /// Returns a vector without items, with room for at least `count`.
    pub fn with_room(alloc: Global, count: usize) -> Result<Room<T>, Memory>
        ensures items { IfOk result (λ room. room.items ≡ []) }
        ensures spare { IfOk result (λ room. count ≤ room.spare) }
    {
        Ok(Room {
            inner: Vec::with_capacity(alloc, count)?,
        })
    }

    /// Returns the number of items.
    pub fn len(&self) -> usize
        ensures { result ≡ length self.now.items }
    {
        self.inner.len()
    }

    /// Returns whether there is no item.
    pub fn is_empty(&self) -> bool
        ensures { IsTrue result ↔ (self.now.items ≡ []) }
    {
        self.inner.is_empty()
    }

    /// Returns how many items the vector can still take without memory.
    pub fn spare(&self) -> usize
        ensures { result ≡ self.now.spare }
    {
        self.inner.capacity() - self.inner.len()
    }

    /// Lends the items for reading.
    pub fn as_slice(&self) -> &[T]
        ensures { result.now ≡ self.now.items }
    {
        self.inner.as_slice()
    }

    /// Lends the items. A write to the loan is a write to the vector.
    pub fn as_mut_slice(&mut self) -> &mut [T]
        ensures* writes_back { sem 𝓛 (Lends (the_row T.row) (Array T.row 0) self.entry result (with_overwritten self.old)) }
        ensures value { result.now ≡ self.old.items }
    {
        self.inner.as_mut_slice()
    }

    /// Takes the last item and returns it, or `None` if there is none. Its room becomes spare.
    pub fn pop(&mut self) -> Option<T>
        ensures items { MatchOption result ((self.old.items ≡ []) × (self.new.items ≡ [])) (λ last. self.old.items ≡ self.new.items ++ last ∷ []) }
        ensures spare { self.new.spare + length self.new.items ≡ self.old.spare + length self.old.items }
    {
        self.inner.pop()
    }

    /// Takes the item at a place and returns it. The later items move up by one place.
    pub fn remove(&mut self, at: usize) -> T
        requires { at < length self.old.items }
        ensures item { slice_get self.old.items at ≡ Some result }
        ensures rest { self.new.items ≡ remove self.old.items at }
        ensures spare { self.new.spare ≡ self.old.spare + 1 }
    {
        self.inner.remove(at)
    }

    /// Makes `spare` at least `more`. The items stay the same. On `Err` `spare` stays the same,
    /// too.
    pub fn reserve(&mut self, more: usize) -> Result<(), Memory>
        ensures items { self.new.items ≡ self.old.items }
        ensures spare { self.old.spare ≤ self.new.spare }
        ensures ok { OnOk result (more ≤ self.new.spare) }
        ensures err { OnErr result (self.new.spare ≡ self.old.spare) }
    {
        self.inner.reserve(more)?;
        Ok(())
    }

    /// Returns the items as a `List`. They stay where they lie in memory.
    pub fn into_list(self) -> List<T>
        ensures { result ≡ self.items }
    {
        let Room { inner } = self;
        List::from_vec(inner)
    }
}

impl<T: Drop> Room<T> {
    /// Drops all items and keeps their room.
    pub fn clear(&mut self)
        ensures items { self.new.items ≡ [] }
        ensures spare { self.new.spare ≡ self.old.spare + length self.old.items }
    {
        self.inner.clear();
    }

    /// Drops the items from place `n` on and keeps their room.
    pub fn truncate(&mut self, n: usize)
        ensures items { self.new.items ≡ take n self.old.items }
        ensures spare { self.new.spare + length self.new.items ≡ self.old.spare + length self.old.items }
    {
        self.inner.truncate(n);
    }

    /// Adds an item at the end. The caller knows that there is room for it.
    #[inline(always)]
    pub fn push_ready(&mut self, value: T)
        requires { 0 < self.old.spare }
        ensures items { self.new.items ≡ self.old.items ++ value ∷ [] }
        ensures spare { self.new.spare + 1 ≡ self.old.spare }
    {
        self.inner.push_reserved(value);
    }

    /// Adds an item at the end. On `Err` the items are unchanged.
    pub fn push(&mut self, value: T) -> Result<(), Memory>
        ensures ok { OnOk result (self.new.items ≡ self.old.items ++ value ∷ []) }
        ensures err { OnErr result (self.new.items ≡ self.old.items) }
        ensures spare { self.old.spare ≤ self.new.spare + 1 }
    {
        self.inner.push(value)?;
        Ok(())
    }
}
