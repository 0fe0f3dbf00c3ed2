//! When two objects, and two channels, are the same.
//!
//! Where a buffer lies in its ring is not compared.

ghost use Rattle.std.specs.Prelude.{◌≡◌, ◌↔◌, ◌+◌, ◌≤◌, ◌++◌, length, IsTrue};

use crate::values::{is_same_value, same_values};
use golf_data::{Channel, Object, Value};
use golf_ring::Ring;

// Whether the whole has the values of the front and then those of the back.
fn is_joined(whole: &[Value], front: &[Value], back: &[Value]) -> bool
    requires { length whole.now ≡ length front.now + length back.now }
    ensures { IsTrue result ↔ (whole.now ≡ front.now ++ back.now) }
{
    let (head, rest) = whole.split_at(front.len());
    same_values(head, front) && same_values(rest, back)
}

// Whether the first two slices have the values of the last two in the same order. The first slice is
// at most as long as the third.
fn same_halves(first: &[Value], second: &[Value], third: &[Value], fourth: &[Value]) -> bool
    requires shorter { length first.now ≤ length third.now }
    requires total { length first.now + length second.now ≡ length third.now + length fourth.now }
    ensures { IsTrue result ↔ (first.now ++ second.now ≡ third.now ++ fourth.now) }
{
    let (head, rest) = third.split_at(first.len());
    same_values(first, head) && is_joined(second, rest, fourth)
}

// Whether both buffers have the same values in the same order.
fn same_buffers(buffer: &Ring<Value>, other: &Ring<Value>) -> bool
    ensures { IsTrue result ↔ (buffer.now ≡ other.now) }
{
    if buffer.len() != other.len() {
        return false;
    }
    let (first, second) = buffer.as_slices();
    let (third, fourth) = other.as_slices();
    if first.len() <= third.len() {
        same_halves(first, second, third, fourth)
    } else {
        same_halves(third, fourth, first, second)
    }
}

/// Returns whether both channels are the same.
pub fn is_same_channel(channel: &Channel, other: &Channel) -> bool
    ensures { IsTrue result ↔ (channel.now ≡ other.now) }
{
    channel.capacity == other.capacity
        && channel.closed == other.closed
        && is_same_value(channel.zero, other.zero)
        && same_buffers(&channel.buffer, &other.buffer)
}

/// Returns whether both objects are of the same kind and have the same contents.
pub fn is_same_object(object: &Object, other: &Object) -> bool
    ensures { IsTrue result ↔ (object.now ≡ other.now) }
{
    match (object, other) {
        (Object::Struct(fields), Object::Struct(others)) => {
            same_values(fields.as_slice(), others.as_slice())
        }
        (Object::Slice(elements), Object::Slice(others)) => {
            same_values(elements.as_slice(), others.as_slice())
        }
        (Object::Chan(channel), Object::Chan(twin)) => is_same_channel(channel, twin),
        (Object::Mutex(is_locked), Object::Mutex(is_twin_locked)) => is_locked == is_twin_locked,
        (Object::Group(count), Object::Group(twin_count)) => count == twin_count,
        (Object::Rw(holders), Object::Rw(twin_holders)) => holders == twin_holders,
        (Object::Cond(mutex), Object::Cond(twin_mutex)) => is_same_value(*mutex, *twin_mutex),
        (Object::Struct(_), _) => false,
        (Object::Slice(_), _) => false,
        (Object::Chan(_), _) => false,
        (Object::Mutex(_), _) => false,
        (Object::Group(_), _) => false,
        (Object::Rw(_), _) => false,
        (Object::Cond(_), _) => false,
    }
}
