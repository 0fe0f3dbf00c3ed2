//! Copies of lists and objects. A copy is equal, and has no room to spare.

ghost use Rattle.std.specs.Prelude.{◌≡◌, ◌++◌, IfOk, OnOk};

use crate::value::{Channel, Object, Value};
use golf_base::{List, Memory};
use golf_ring::Ring;
use std::alloc::Global;

/// Returns a list of these items, with room for no more.
pub fn copied_list<T: Copy>(alloc: Global, items: &[T]) -> Result<List<T>, Memory>
    ensures { IfOk result (λ copy. copy ≡ items.now) }
{
    let mut copy = List::from_vec(Vec::with_capacity(alloc, items.len())?);
    copy.extend_from_slice(items)?;
    Ok(copy)
}

// Adds these values at the end of the queue.
fn push_all(queue: &mut Ring<Value>, values: &[Value]) -> Result<(), Memory>
    ensures { OnOk result (queue.new ≡ queue.old ++ values.now) }
{
    for value in values {
        queue.push(*value)?;
    }
    Ok(())
}

// Returns a copy of the queue.
fn copied_queue(alloc: Global, queue: &Ring<Value>) -> Result<Ring<Value>, Memory>
    ensures { IfOk result (λ copy. copy ≡ queue.now) }
{
    let mut copy = Ring::new(alloc);
    let (older, newer) = queue.as_slices();
    push_all(&mut copy, older)?;
    push_all(&mut copy, newer)?;
    Ok(copy)
}

// Returns a copy of the channel.
fn copied_channel(alloc: Global, channel: &Channel) -> Result<Channel, Memory>
    ensures { IfOk result (λ copy. copy ≡ channel.now) }
{
    let buffer = copied_queue(alloc, &channel.buffer)?;
    Ok(Channel {
        capacity: channel.capacity,
        buffer,
        closed: channel.closed,
        zero: channel.zero,
    })
}

impl Object {
    /// Returns a copy, which is equal. Only fields, elements and the values in a buffer take memory.
    pub fn copy(&self, alloc: Global) -> Result<Object, Memory>
        ensures { IfOk result (λ copy. copy ≡ self.now) }
    {
        match self {
            Object::Struct(fields) => Ok(Object::Struct(copied_list(alloc, fields.as_slice())?)),
            Object::Slice(elements) => {
                Ok(Object::Slice(copied_list(alloc, elements.as_slice())?))
            }
            Object::Chan(channel) => Ok(Object::Chan(copied_channel(alloc, channel)?)),
            Object::Mutex(is_locked) => Ok(Object::Mutex(*is_locked)),
            Object::Group(count) => Ok(Object::Group(*count)),
            Object::Rw(count) => Ok(Object::Rw(*count)),
            Object::Cond(mutex) => Ok(Object::Cond(*mutex)),
        }
    }
}
