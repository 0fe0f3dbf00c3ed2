//! Wakes all waiters of an object, by the wait queues.
//!
//! An entry counts only if its goroutine still waits there. The last entry comes first, since it leaves its
//! queue without a move of the others.

ghost use Rattle.std.specs.Prelude.{◌≡◌, ◌≤◌, ◌^◌, false, true, Some};
ghost use Rattle.golf_model.specs.Changes.{wake_all};
ghost use Rattle.golf_model.specs.ReadersWriters.{readers_next};
ghost use Rattle.golf_state.specs.Enqueued.{has_queue};
ghost use Rattle.golf_state.specs.Woken.{waking_of};
ghost use Rattle.golf_state.specs.WokenAll.{HasWoken, NobodyWoken};

use crate::state::State;
use crate::wake_causes::Waking;
use golf_base::ObjectId;
use golf_data::Side;

// Wakes all goroutines that wait on the object with that side, as far as `how` says.
//
// It begins with the last entry, which leaves the queue without a move of the others.
fn wake_side(state: &mut State, object: ObjectId, side: Side, how: Waking)
    requires { has_queue false side ≡ true }
    ensures woken { HasWoken object.0 how state.old state.new }
    ensures nobody { NobodyWoken object.0 side how state.new.goroutines }
{
    let mut before = state.ticket_bound(object, side, how);
    while let Some(holder) = state.holder_before(object, side, before) {
        before = holder.ticket;
        if let Some(wakening) = state.wakening(holder.goroutine, object, how) {
            state.wake(holder.goroutine, wakening);
        }
    }
}

// How many readers of a reader and writer mutex wait with a ticket below this one.
fn readers_before(state: &State, object: ObjectId, ticket: u64) -> usize
    ensures count { result ≡ readers_next (Some ticket) object.0 state.now.goroutines }
    ensures few { result ≤ 2 ^ 32 }
{
    let mut count = 0;
    let mut before = ticket;
    while let Some(holder) = state.holder_before(object, Side::Read, before) {
        before = holder.ticket;
        if state.is_waiting(holder, object, Side::Read) {
            count += 1;
        }
    }
    count
}

/// Returns how many readers of a reader and writer mutex are served: those with a ticket below `below`, or
/// all. It looks only at the wait queue there.
pub fn readers_next(state: &State, object: ObjectId, below: Option<u64>) -> usize
    ensures count { result ≡ readers_next below object.0 state.now.goroutines }
    ensures few { result ≤ 2 ^ 32 }
{
    let bound = match below {
        Some(ticket) => ticket,
        None => state.ticket_bound(object, Side::Read, Waking::ToReaders(None)),
    };
    readers_before(state, object, bound)
}

/// Wakes all goroutines that wait on the object, as far as `how` says. It looks only at the wait queues
/// there.
pub fn wake_all(state: &mut State, object: ObjectId, how: Waking)
    ensures { state.new ≡ wake_all object.0 (waking_of how) state.old }
{
    match how {
        Waking::Closing(_) => {
            wake_side(state, object, Side::Receive, how);
            wake_side(state, object, Side::Send, how);
        }
        Waking::AtZero => wake_side(state, object, Side::Group, how),
        Waking::ToReaders(_) => wake_side(state, object, Side::Read, how),
    }
}
