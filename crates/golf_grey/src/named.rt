//! Makes a deque that knows its two numbers: its capacity, and the bound of its places.
//!
//! A rule cannot have numbers that come at run time. So the owner pushes the two numbers, and takes them
//! out again before it pushes any place.

ghost use Rattle.std.specs.Prelude.{◌≡◌, ◌+◌, ◌≤◌, [], IfOk};
ghost use Rattle.crossbeam_deque.specs.Handles.{worker_capacity, worker_flavor, worker_index, worker_view};
ghost use Rattle.golf_grey.specs.Rule.{all_parts, first_view, grey};

use crate::rule::{Name, Owner, Push, Take};
use golf_base::Memory;
use std::alloc::Global;

// Tells the deque how many pushes it takes, and that its places are below `places`.
fn name(owner: &mut Owner, capacity: u32, places: u32)
    requires flavor { worker_flavor owner.old ≡ 0 }
    requires view { worker_view owner.old ≡ first_view }
    requires room { worker_index owner.old + 2 ≤ worker_capacity owner.old }
    ensures flavor { worker_flavor owner.new ≡ 0 }
    ensures view { worker_view owner.new ≡ grey all_parts 1 places capacity [] [] }
    ensures index { worker_index owner.new ≤ worker_index owner.old + 2 }
    ensures room { worker_capacity owner.old ≤ worker_capacity owner.new }
{
    match owner.push_as::<Push>(capacity) {
        Ok(()) => {}
        Err(_) => unreachable!(),
    }
    match owner.push_as::<Push>(places) {
        Ok(()) => {}
        Err(_) => unreachable!(),
    }
    match owner.pop_as::<Take>() {
        Some(_) => {}
        None => unreachable!(),
    }
    match owner.pop_as::<Name>() {
        Some(_) => {}
        None => unreachable!(),
    }
}

// Makes the owner of a new deque, with room for `capacity` pushes.
pub(crate) fn make_owner(alloc: Global, capacity: u32, places: u32) -> Result<Owner, Memory>
    ensures flavor { IfOk result (λ w. worker_flavor w ≡ 0) }
    ensures view { IfOk result (λ w. worker_view w ≡ grey all_parts 1 places capacity [] []) }
    ensures index { IfOk result (λ w. worker_index w ≤ 2) }
    ensures room { IfOk result (λ w. capacity + 2 ≤ worker_capacity w) }
{
    let mut owner = Owner::fifo_as(alloc, capacity as usize + 2)?;
    name(&mut owner, capacity, places);
    Ok(owner)
}
