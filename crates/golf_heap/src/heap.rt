//! The objects of a program by number.
//!
//! The invariant: the numbers of the entries rise, from 1 up to the last number that was given. Each entry
//! has the key of a slot, and the slot has that number. The slab has no other slots.

ghost use Rattle.std.specs.Prelude.{◌≡◌, ◌+◌, ◌++◌, ◌<◌, [], length, is_some, IsSome, option_map, slice_get, Some, IfOk};
ghost use Rattle.std.specs.Prelude.{OnOk, OnErr};
ghost use Rattle.std.specs.Borrow.{sem};
ghost use Rattle.golf_theory.specs.Maps.{find, keys, rank, Rises};
ghost use Rattle.golf_heap.specs.Objects.{IsNumbered, appended, made, replaced};
ghost use Rattle.golf_heap.specs.Kept.{gathered, keyed};
ghost use Rattle.golf_theory.specs.Flags.{kept};
ghost use Rattle.golf_heap.specs.Loans.{LendsObject};

use crate::places::{ObjectKey, copied_at, free, key_of, narrowed, rank_of};
use golf_base::{Memory, ObjectId};
use golf_blocks::close_up;
use golf_data::Object;
use slab::Slab;
use std::alloc::Global;
use std::marker::Model;

/// The objects that are there, and the last number that was given. Numbers are given from 1 in order of
/// making, and no number is used again.
///
/// The objects are in a slab. Its keys are used again, and no caller sees them. An object is found at the
/// index of its number if no object before it was freed, and else by a binary search. Only `make`
/// and `copy` take memory.
#[derive(Debug, Drop)]
pub struct Heap {
    slots: Slab<(u32, Object)>,
    places: Vec<ObjectKey>,
    last: u32,
}

impl Model for Heap {
    ghost use Rattle.golf_heap.specs.Objects.{NumberedObjects};
    ghost use Rattle.golf_heap.specs.Kept.{gathered, IsStored};

    ghost Value = { NumberedObjects };

    ghost view = { λ h. record { objects = gathered h.slots h.places.items; last = h.last } };

    ghost invariant = { λ h. IsStored h.slots h.places.items h.last };
}

impl Heap {
    /// Returns the heap without an object. It takes no memory.
    pub fn new(alloc: Global) -> Heap
        ensures { result ≡ record { objects = []; last = 0 } }
    {
        Heap {
            slots: Slab::new(alloc),
            places: Vec::new(alloc),
            last: 0,
        }
    }

    /// Gives the object the next number, and returns that number. The error is `Memory`, also if all
    /// numbers are used up. On `Err` the heap is unchanged, and the object is dropped.
    pub fn make(&mut self, object: Object) -> Result<ObjectId, Memory>
        ensures number { IfOk result (λ id. id.0 ≡ self.old.last + 1) }
        ensures ok { OnOk result (self.new ≡ made object self.old) }
        ensures err { OnErr result (self.new ≡ self.old) }
    {
        let number = self.last.checked_add(1).ok_or(Memory)?;
        self.append(number, object)?;
        Ok(ObjectId(number))
    }

    // Gives the object this number, which is above the last one. On `Err` the heap is unchanged.
    fn append(&mut self, number: u32, object: Object) -> Result<(), Memory>
        requires { self.old.last < number }
        ensures ok { OnOk result (self.new ≡ appended number object self.old) }
        ensures err { OnErr result (self.new ≡ self.old) }
    {
        self.slots.reserve(1)?;
        let vacant = self.slots.vacant_key();
        let key = narrowed(vacant)?;
        self.places.push(ObjectKey { number, key })?;
        self.slots.insert_reserved((number, object));
        self.last = number;
        Ok(())
    }

    // Adds copies of the objects of these places, whose numbers are above the last one.
    fn append_copies(
        &mut self,
        alloc: Global,
        slots: &Slab<(u32, Object)>,
        places: &[ObjectKey],
    ) -> Result<(), Memory>
        requires { Rises (self.old.last + 1) (keyed places.now) }
        ensures { OnOk result (self.new.objects ≡ self.old.objects ++ gathered slots.now places.now) }
    {
        for place in places {
            let object = copied_at(alloc, slots, place.key as usize)?;
            self.append(place.number, object)?;
        }
        Ok(())
    }

    /// Returns a copy of the heap, which is equal: each object has its number.
    pub fn copy(&self, alloc: Global) -> Result<Heap, Memory>
        ensures { IfOk result (λ copy. copy ≡ self.now) }
    {
        let mut copy = Heap::new(alloc);
        copy.append_copies(alloc, &self.slots, self.places.as_slice())?;
        copy.last = self.last;
        Ok(copy)
    }

    /// Returns whether the object is there.
    pub fn holds(&self, id: ObjectId) -> bool
        ensures { result ≡ is_some (find id.0 self.now.objects) }
    {
        self.get(id).is_some()
    }

    /// Returns how many objects there are.
    pub fn count(&self) -> u32
        ensures count { result ≡ length self.now.objects }
        ensures numbers { IsNumbered self.now }
    {
        let _last = self.last;
        self.places.len() as u32
    }

    /// Returns the last number that was given, or 0 if none was.
    pub fn last(&self) -> u32
        ensures last { result ≡ self.now.last }
        ensures numbers { IsNumbered self.now }
    {
        self.last
    }

    /// Returns the object of this number, or `None`.
    #[inline(always)]
    pub fn get(&self, id: ObjectId) -> Option<&Object>
        ensures { option_map (λ x. x.now) result ≡ find id.0 self.now.objects }
    {
        let key = key_of(self.places.as_slice(), id.0)?;
        let slot = self.slots.get(key)?;
        Some(&slot.1)
    }

    /// Lends the object of this number, which the caller may change or replace.
    #[inline(always)]
    pub fn get_mut(&mut self, id: ObjectId) -> &mut Object
        requires { IsSome (find id.0 self.old.objects) }
        ensures* writes_back { sem 𝓛 (LendsObject self.entry id.0 result) }
        ensures value { find id.0 self.old.objects ≡ Some result.now }
        ensures numbers { IsNumbered self.old }
    {
        let at = rank_of(self.places.as_slice(), id.0);
        let key = self.places[at].key as usize;
        let slot = &mut self.slots[key];
        &mut slot.1
    }

    /// Replaces the object of this number. If there is no object of this number, nothing changes.
    #[inline(always)]
    pub fn put(&mut self, id: ObjectId, object: Object)
        ensures { self.new ≡ replaced id.0 object self.old }
    {
        if self.holds(id) {
            *self.get_mut(id) = object;
        }
    }

    /// Keeps the objects whose flag is true. The flags are in rising order of number. It takes no memory.
    pub fn retain(&mut self, keep: &[bool])
        requires { length keep.now ≡ length self.old.objects }
        ensures { self.new ≡ record self.old { objects = kept keep.now self.old.objects } }
    {
        free(&mut self.slots, self.places.as_slice(), keep);
        close_up(&mut self.places, keep);
    }

    /// Returns how many objects have a smaller number.
    pub fn rank(&self, id: ObjectId) -> u32
        ensures { result ≡ rank id.0 self.now.objects }
    {
        let _last = self.last;
        rank_of(self.places.as_slice(), id.0) as u32
    }

    /// Returns the number of the object of this rank.
    pub fn at(&self, rank: u32) -> ObjectId
        requires { rank < length self.now.objects }
        ensures { slice_get (keys self.now.objects) rank ≡ Some result.0 }
    {
        ObjectId(self.places.as_slice()[rank as usize].number)
    }
}
