//! Tests of objects by number.

use crate::places_after_turns::holds;
use golf_base::{Memory, ObjectId};
use golf_data::Object;
use golf_heap::Heap;
use std::alloc::Global;
use std::test::Fail;

// Whether an object gets the next number although the first object was freed.
fn counts_on(alloc: Global) -> Result<bool, Memory> {
    let mut heap = Heap::new(alloc);
    let first = heap.make(Object::Mutex(false))?;
    let there = heap.holds(first) && heap.count() == 1;
    heap.retain(&[false]);
    let second = heap.make(Object::Mutex(true))?;
    let numbers = first == ObjectId(1) && second == ObjectId(2) && heap.last() == 2;
    let left = !heap.holds(first) && heap.count() == 1;
    if heap.count() == 0 {
        return Ok(false);
    }
    Ok(there && numbers && left && heap.rank(second) == 0 && heap.at(0) == second)
}

#[test]
fn numbers_are_never_used_again(rt: HostRuntime) -> Result<(), Fail> {
    holds(&rt, counts_on(rt.alloc())?)
}

fn is_locked(object: Option<&Object>) -> bool {
    matches!(object, Some(Object::Mutex(true)))
}

// Whether an object that is there is replaced, and no object is made under another number.
fn is_replaced(alloc: Global) -> Result<bool, Memory> {
    let mut heap = Heap::new(alloc);
    let first = heap.make(Object::Mutex(false))?;
    heap.put(first, Object::Mutex(true));
    heap.put(ObjectId(7), Object::Mutex(true));
    Ok(is_locked(heap.get(first)) && heap.get(ObjectId(7)).is_none())
}

#[test]
fn an_object_is_replaced(rt: HostRuntime) -> Result<(), Fail> {
    holds(&rt, is_replaced(rt.alloc())?)
}
