//! Hashes that are the same for alike states. Only the running time of a search depends on them.
//!
//! The hash of a goroutine covers neither its number nor its ticket. The hash of a state adds those of its goroutines,
//! and covers the order in which they wait on each object.

use crate::hashes::{mix, mix_frames, mix_heap, mix_value, mix_values};
use golf_base::{GoroutineId, Memory, ObjectId};
use golf_data::{Frame, Goroutine, Mode, Wait};
use golf_state::State;
use std::alloc::Global;

// A goroutine that waits on an object.
#[derive(Clone, Copy, PartialEq, Eq, PartialOrd, Ord)]
struct Waiter {
    object: ObjectId,
    ticket: u64,
    // The hash of the goroutine.
    entry: u64,
}

// A hash whose low bits depend on all of its bits.
fn spread(hash: u64) -> u64 {
    mix(hash ^ (hash >> 32), 1)
}

// The arguments of the deferred calls.
fn mix_deferred(hash: u64, frames: &[Frame]) -> u64 {
    let mut mixed = hash;
    for frame in frames {
        for call in frame.deferred.as_slice() {
            mixed = mix_values(mix(mixed, call.function as u64), call.arguments.as_slice());
        }
    }
    mixed
}

fn mix_waits(hash: u64, waits: &[Wait]) -> u64 {
    let mut mixed = mix(hash, waits.len() as u64);
    for wait in waits {
        mixed = mix_value(mix(mixed, wait.object.0 as u64), wait.value);
    }
    mixed
}

/// Returns a hash of a goroutine. It depends on the number only by whether this is 0 or 1, and not on the ticket.
pub(crate) fn entry_hash(g: GoroutineId, goroutine: &Goroutine) -> u64 {
    let first = mix(u64::from(g.0.min(2)), goroutine.started as u64);
    let waits = match &goroutine.mode {
        Mode::Running => mix(first, 0),
        Mode::Blocked { line, waits, .. } => {
            mix_waits(mix(mix(first, 1), *line as u64), waits.as_slice())
        }
    };
    let frames = goroutine.frames.as_slice();
    spread(mix_deferred(mix_frames(waits, frames), frames))
}

// Adds what a goroutine waits on.
fn add_waiter(waiters: &mut Vec<Waiter>, goroutine: &Goroutine, entry: u64) -> Result<(), Memory> {
    if let Mode::Blocked { waits, ticket, .. } = &goroutine.mode {
        for wait in waits.as_slice() {
            waiters.push(Waiter {
                object: wait.object,
                ticket: *ticket,
                entry,
            })?;
        }
    }
    Ok(())
}

// The waiters on each object, in the order of their tickets.
fn mix_waiters(hash: u64, waiters: &[Waiter]) -> u64 {
    let mut mixed = hash;
    for waiter in waiters {
        mixed = mix(mix(mixed, waiter.object.0 as u64), waiter.entry);
    }
    mixed
}

/// Returns a hash of a state, the same for each state that is alike. It does not depend on the output.
pub(crate) fn alike_hash_of(alloc: Global, state: &State) -> Result<u64, Memory> {
    let goroutines = state.goroutines(alloc)?;
    let mut waiters = Vec::new(alloc);
    let mut sum = 0u64;
    for g in goroutines.as_slice() {
        if let Some(goroutine) = state.goroutine(*g) {
            let entry = entry_hash(*g, goroutine);
            sum = sum.wrapping_add(entry);
            add_waiter(&mut waiters, goroutine, entry)?;
        }
    }
    waiters.sort()?;
    let globals = mix_values(sum, state.globals());
    let objects = mix_heap(globals, state.heap());
    Ok(spread(mix_waiters(objects, waiters.as_slice())))
}
