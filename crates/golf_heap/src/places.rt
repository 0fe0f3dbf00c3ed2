//! Where each object is in the slab.
//!
//! The places are in rising order of number. Each has a number and the key of its slot.

ghost use Rattle.std.specs.Prelude.{◌≡◌, ◌+◌, length, None, IfOk, IfSome};
ghost use Rattle.slab.specs.Slab.{get, slab_len, ContainsKey, Updates};
ghost use Rattle.golf_theory.specs.Maps.{find, Rises, rank};
ghost use Rattle.golf_theory.specs.Flags.{kept};
ghost use Rattle.golf_heap.specs.Kept.{HoldsPlaces, gathered, keyed, object_in};

use golf_base::Memory;
use golf_data::Object;
use slab::Slab;
use std::alloc::Global;

/// The number of an object, and the key of its slot.
#[derive(Clone, Copy, Debug)]
pub struct ObjectKey {
    pub number: u32,
    pub key: u32,
}

// The index of the object of this number, if the object is there and no object before it was freed.
#[inline(always)]
fn index_of(places: &[ObjectKey], number: u32) -> Option<usize>
    requires { Rises 1 (keyed places.now) }
    ensures { IfSome result (λ at. at ≡ rank number (keyed places.now)) }
{
    let index = (number as usize).checked_sub(1)?;
    let place = places.get(index)?;
    if place.number == number {
        Some(index)
    } else {
        None
    }
}

/// Returns how many places have a smaller number.
#[inline(always)]
pub fn rank_of(places: &[ObjectKey], number: u32) -> usize
    requires { Rises 1 (keyed places.now) }
    ensures { result ≡ rank number (keyed places.now) }
{
    match index_of(places, number) {
        Some(at) => at,
        None => places.partition_point(|place| place.number < number),
    }
}

/// Returns the key of the object of this number, or `None`.
#[inline(always)]
pub fn key_of(places: &[ObjectKey], number: u32) -> Option<usize>
    requires { Rises 1 (keyed places.now) }
    ensures { result ≡ find number (keyed places.now) }
{
    let place = places.get(rank_of(places, number))?;
    if place.number == number {
        Some(place.key as usize)
    } else {
        None
    }
}

/// Returns the key as the places keep it. `Memory` if it is too high.
pub fn narrowed(key: usize) -> Result<u32, Memory>
    ensures { IfOk result (λ narrow. narrow ≡ key) }
{
    match u32::try_from(key) {
        Ok(narrow) => Ok(narrow),
        Err(_) => Err(Memory),
    }
}

/// Returns a copy of the object of a key.
pub fn copied_at(alloc: Global, slots: &Slab<(u32, Object)>, key: usize) -> Result<Object, Memory>
    ensures { IfOk result (λ copy. copy ≡ object_in (get slots.now key)) }
{
    match slots.get(key) {
        Some(slot) => slot.1.copy(alloc),
        None => Ok(Object::Mutex(false)),
    }
}

/// Removes from the slab the objects of the places whose flag is false.
pub fn free(slots: &mut Slab<(u32, Object)>, places: &[ObjectKey], keep: &[bool])
    requires flags { length keep.now ≡ length places.now }
    requires rises { Rises 1 (keyed places.now) }
    requires held { HoldsPlaces slots.old places.now }
    requires only { slab_len slots.old ≡ length places.now }
    ensures same { gathered slots.new (kept keep.now places.now) ≡ kept keep.now (gathered slots.old places.now) }
    ensures held { HoldsPlaces slots.new (kept keep.now places.now) }
    ensures only { slab_len slots.new ≡ length (kept keep.now places.now) }
{
    let mut at = places.len();
    while at > 0 {
        at -= 1;
        if !keep[at] {
            empty(slots, places[at].key as usize);
        }
    }
}

// Drops the object of a key.
fn empty(slots: &mut Slab<(u32, Object)>, key: usize)
    requires { ContainsKey slots.old key }
    ensures updates { Updates slots.old slots.new key None }
    ensures len { slab_len slots.new + 1 ≡ slab_len slots.old }
{
    slots.remove(key);
}
