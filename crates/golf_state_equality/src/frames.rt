//! When two frames, and two stacks of frames, are the same.
//!
//! The room that a frame has for further operands is not compared.

ghost use Rattle.std.specs.Prelude.{◌≡◌, ◌↔◌, reverse, IsTrue};
ghost use Rattle.golf_model.specs.Views.{frame_view, frame_views};

use crate::values::same_values;
use golf_data::{Deferred, Frame, Leaving, Value};

// Whether both frames leave in the same way.
fn is_same_leaving(leaving: Leaving, other: Leaving) -> bool
    ensures { IsTrue result ↔ (leaving ≡ other) }
{
    leaving == other
}

// Whether both call the same function with the same arguments.
fn is_same_call(call: &Deferred, other: &Deferred) -> bool
    ensures { IsTrue result ↔ (call.now ≡ other.now) }
{
    call.function == other.function
        && same_values(call.arguments.as_slice(), other.arguments.as_slice())
}

// Whether both have the same calls in the same order.
fn same_calls(calls: &[Deferred], others: &[Deferred]) -> bool
    ensures { IsTrue result ↔ (calls.now ≡ others.now) }
{
    if calls.len() != others.len() {
        return false;
    }
    for at in 0..calls.len() {
        if !is_same_call(&calls[at], &others[at]) {
            return false;
        }
    }
    true
}

// Whether both stacks have the same operands, from the top down.
fn same_operands(operands: &[Value], others: &[Value]) -> bool
    ensures { IsTrue result ↔ (reverse operands.now ≡ reverse others.now) }
{
    same_values(operands, others)
}

// Whether both stacks have the same calls, from the top down.
fn same_deferred(calls: &[Deferred], others: &[Deferred]) -> bool
    ensures { IsTrue result ↔ (reverse calls.now ≡ reverse others.now) }
{
    same_calls(calls, others)
}

/// Returns whether both frames are the same.
pub fn is_same_frame(frame: &Frame, other: &Frame) -> bool
    ensures { IsTrue result ↔ (frame_view frame.now ≡ frame_view other.now) }
{
    frame.function == other.function
        && frame.at == other.at
        && frame.discards == other.discards
        && is_same_leaving(frame.leaving, other.leaving)
        && same_values(frame.values.slots(), other.values.slots())
        && same_operands(frame.values.operands(), other.values.operands())
        && same_deferred(frame.deferred.as_slice(), other.deferred.as_slice())
}

/// Returns whether both have the same frames in the same order.
pub fn same_frames(frames: &[Frame], others: &[Frame]) -> bool
    ensures { IsTrue result ↔ (frame_views frames.now ≡ frame_views others.now) }
{
    if frames.len() != others.len() {
        return false;
    }
    for at in 0..frames.len() {
        if !is_same_frame(&frames[at], &others[at]) {
            return false;
        }
    }
    true
}
