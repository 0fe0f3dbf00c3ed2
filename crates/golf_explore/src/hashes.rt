//! Hashes of states. Only the running time of a search depends on them.
//!
//! A hash covers globals, objects and goroutines. It does not cover output.

use golf_base::{GoroutineId, Memory};
use golf_data::{Frame, Goroutine, Mode, Object, Value};
use golf_heap::Heap;
use golf_state::State;
use std::alloc::Global;

// A hash of a hash and one more word.
pub(crate) fn mix(hash: u64, word: u64) -> u64 {
    (hash ^ word).wrapping_mul(6_364_136_223_846_793_005)
}

pub(crate) fn mix_value(hash: u64, value: Value) -> u64 {
    match value {
        Value::Int(n) => mix(mix(hash, 1), n.unsigned_abs()),
        Value::Bool(false) => mix(hash, 2),
        Value::Bool(true) => mix(hash, 3),
        Value::Text(text) => mix(mix(hash, 4), text as u64),
        Value::Unit => mix(hash, 5),
        Value::Nil => mix(hash, 6),
        Value::Ref(object) => mix(mix(hash, 7), object.0 as u64),
    }
}

// One value after another. Two parts of a list, one after the other, give the same hash as the whole list.
fn mix_part(hash: u64, values: &[Value]) -> u64 {
    let mut mixed = hash;
    for value in values {
        mixed = mix_value(mixed, *value);
    }
    mixed
}

pub(crate) fn mix_values(hash: u64, values: &[Value]) -> u64 {
    mix_part(mix(hash, values.len() as u64), values)
}

// Deferred calls are only counted.
fn mix_frame(hash: u64, frame: &Frame) -> u64 {
    let place = mix(mix(hash, frame.function as u64), frame.at as u64);
    let deferred = mix(place, frame.deferred.as_slice().len() as u64);
    mix_values(
        mix_values(deferred, frame.values.slots()),
        frame.values.operands(),
    )
}

pub(crate) fn mix_frames(hash: u64, frames: &[Frame]) -> u64 {
    let mut mixed = mix(hash, frames.len() as u64);
    for frame in frames {
        mixed = mix_frame(mixed, frame);
    }
    mixed
}

fn mix_goroutine(hash: u64, goroutine: &Goroutine) -> u64 {
    let waits = match goroutine.mode {
        Mode::Running => mix(hash, 0),
        Mode::Blocked { ticket, .. } => mix(mix(hash, 1), ticket),
    };
    mix_frames(waits, goroutine.frames.as_slice())
}

fn mix_object(hash: u64, object: &Object) -> u64 {
    match object {
        Object::Struct(fields) => mix_values(hash, fields.as_slice()),
        Object::Slice(elements) => mix_values(hash, elements.as_slice()),
        Object::Chan(channel) => {
            let (first, second) = channel.buffer.as_slices();
            let closed = mix(hash, channel.closed as u64);
            let counted = mix(closed, channel.buffer.len() as u64);
            mix_part(mix_part(counted, first), second)
        }
        Object::Mutex(is_locked) => mix(hash, *is_locked as u64),
        Object::Group(count) => mix(hash, count.unsigned_abs()),
        Object::Rw(holders) => mix(hash, holders.unsigned_abs()),
        Object::Cond(mutex) => mix_value(hash, *mutex),
    }
}

pub(crate) fn mix_heap(hash: u64, heap: &Heap) -> u64 {
    let mut mixed = mix(hash, heap.last() as u64);
    for rank in 0..heap.count() {
        let id = heap.at(rank);
        if let Some(object) = heap.get(id) {
            mixed = mix_object(mix(mixed, id.0 as u64), object);
        }
    }
    mixed
}

fn mix_goroutines(hash: u64, state: &State, goroutines: &[GoroutineId]) -> u64 {
    let mut mixed = hash;
    for g in goroutines {
        if let Some(goroutine) = state.goroutine(*g) {
            mixed = mix_goroutine(mix(mixed, g.0 as u64), goroutine);
        }
    }
    mixed
}

/// Returns a hash of a state. It does not depend on the output.
pub(crate) fn hash_of(alloc: Global, state: &State) -> Result<u64, Memory> {
    let goroutines = state.goroutines(alloc)?;
    let globals = mix_values(0, state.globals());
    let objects = mix_heap(globals, state.heap());
    Ok(mix_goroutines(objects, state, goroutines.as_slice()))
}
