//! The blocks around a place, the innermost first.
//!
//! The list is kept in memory with the first item last, so that its front grows and shrinks at the
//! end.

ghost use Rattle.std.specs.Prelude.{◌≡◌, ◌∷◌, [], slice_get, slice_set, MatchOption, OnOk};

use golf_base::{List, Memory};
use std::alloc::Global;
use std::marker::Model;

/// A list that grows and shrinks at its front. Contracts see its items, the first one first.
#[derive(Drop)]
pub struct Nesting<T> {
    last_first: List<T>,
}

impl<T> Model for Nesting<T> {
    ghost use Rattle.std.specs.Prelude.{List, reverse};
    ghost use Rattle.std.specs.Coded.{coded_list};

    ghost Value = { List T };

    ghost coded = { coded_list T.code };

    ghost view = { λ s. reverse s.last_first };
}

impl<T> Nesting<T> {
    /// Returns an empty nesting.
    pub fn new(alloc: Global) -> Nesting<T>
        ensures { result ≡ [] }
    {
        Nesting {
            last_first: List::new(alloc),
        }
    }

    /// Takes the first item and returns it, or `None` if there is none.
    pub fn pop(&mut self) -> Option<T>
        ensures { MatchOption result ((self.old ≡ []) × (self.new ≡ [])) (λ first. self.old ≡ first ∷ self.new) }
    {
        self.last_first.pop()
    }
}

impl<T: Drop> Nesting<T> {
    /// Adds an item at the front. On `Err` nothing is said of the items.
    pub fn push(&mut self, item: T) -> Result<(), Memory>
        ensures { OnOk result (self.new ≡ item ∷ self.old) }
    {
        self.last_first.push(item)?;
        Ok(())
    }
}

impl<T: Copy> Nesting<T> {
    /// Returns the item at a place, counted from the front, or `None`.
    pub fn get(&self, at: usize) -> Option<T>
        ensures { result ≡ slice_get self.now at }
    {
        let items = self.last_first.as_slice();
        if at < items.len() {
            Some(items[items.len() - 1 - at])
        } else {
            None
        }
    }

    /// Replaces the item at a place, if there is one.
    pub fn set(&mut self, at: usize, item: T)
        ensures { self.new ≡ slice_set self.old at item }
    {
        let count = self.last_first.len();
        if at < count {
            self.last_first.set(count - 1 - at, item);
        }
    }
}
