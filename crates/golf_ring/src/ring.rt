//! A queue in memory.
//!
//! The items lie in a ring, which is made for the first of them: a queue that stays empty is one word. The view
//! is the list of the items, the oldest first. No clause speaks of the room or of where the first item lies.

ghost use Rattle.std.specs.Prelude.{◌≡◌, [], ◌∷◌, ◌++◌, ◌<◌, ◌↔◌, List, drop, length, slice_get, IsTrue, MatchOption};
ghost use Rattle.std.specs.Prelude.{OnOk, OnErr};

use golf_base::{Boxed, Memory};
use std::alloc::Global;
use std::collections::VecDeque;
use std::marker::Model;

/// A queue that contracts see as the list of its items, the oldest first.
///
/// An item is added at the end, and the first item is taken, at a cost that does not depend on the
/// length. Only `push` takes memory. It does so only if the queue was never that long before.
#[derive(Debug, Drop)]
pub struct Ring<T> {
    items: Option<Boxed<VecDeque<T>>>,
    alloc: Global,
}

impl<T> Model for Ring<T> {
    ghost use Rattle.std.specs.Prelude.{List};
    ghost use Rattle.std.specs.Coded.{coded_list};
    ghost use Rattle.std.specs.VecDeque.{deque_items};
    ghost use Rattle.golf_ring.specs.Rings.{items_in};

    ghost Value = { List T };

    ghost coded = { coded_list T.code };

    ghost view = { λ r. items_in deque_items r.items };
}

impl<T> Ring<T> {
    /// Returns the empty queue. It takes no memory.
    pub fn new(alloc: Global) -> Ring<T>
        ensures { result ≡ [] }
    {
        Ring { items: None, alloc }
    }

    /// Returns how many items there are.
    pub fn len(&self) -> usize
        ensures { result ≡ length self.now }
    {
        match &self.items {
            Some(items) => items.get().len(),
            None => 0,
        }
    }

    /// Returns whether there are no items.
    pub fn is_empty(&self) -> bool
        ensures { IsTrue result ↔ (self.now ≡ []) }
    {
        match &self.items {
            Some(items) => items.get().is_empty(),
            None => true,
        }
    }

    /// Returns the items in two slices, the older ones in the first. Either may be empty.
    pub fn as_slices(&self) -> (&[T], &[T])
        ensures { result.0.now ++ result.1.now ≡ self.now }
    {
        match &self.items {
            Some(items) => items.get().as_slices(),
            None => (&[], &[]),
        }
    }
}

impl<T: Copy> Ring<T> {
    /// Returns the oldest item, or `None` if there are no items.
    #[inline(always)]
    pub fn first(&self) -> Option<T>
        ensures value { result ≡ slice_get self.now 0 }
        ensures cases { MatchOption result (self.now ≡ []) (λ x. (rest : List T) × (self.now ≡ x ∷ rest)) }
    {
        match &self.items {
            Some(items) => items.get().front().copied(),
            None => None,
        }
    }
}

impl<T: Drop> Ring<T> {
    /// Adds an item at the end. On `Err` the queue is unchanged.
    #[inline(always)]
    pub fn push(&mut self, item: T) -> Result<(), Memory>
        ensures ok { OnOk result (self.new ≡ self.old ++ item ∷ []) }
        ensures err { OnErr result (self.new ≡ self.old) }
    {
        match &mut self.items {
            Some(items) => items.get_mut().push_back(item)?,
            None => {
                let mut items = VecDeque::new(self.alloc);
                items.push_back(item)?;
                self.items = Some(Boxed::new(self.alloc, items)?);
            }
        }
        Ok(())
    }

    /// Drops the first item, if there is one.
    #[inline(always)]
    pub fn drop_first(&mut self)
        ensures { self.new ≡ drop 1 self.old }
    {
        if let Some(items) = &mut self.items {
            let _ = items.get_mut().pop_front();
        }
    }

    /// Drops the first item, and adds one at the end. It takes no memory.
    #[inline(always)]
    pub fn shift(&mut self, item: T)
        requires { 0 < length self.old }
        ensures { self.new ≡ drop 1 self.old ++ item ∷ [] }
    {
        if let Some(items) = &mut self.items {
            let _ = items.get_mut().pop_front();
            items.get_mut().push_back_reserved(item);
        }
    }
}
