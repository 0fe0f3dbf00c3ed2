//! The channel of a number, and its buffer.
//!
//! These functions change only the channel. They wake no goroutine.

ghost use Rattle.std.specs.Prelude.{◌≡◌, [], ◌∷◌, OnOk, OnErr, option_map, option_to_list};
ghost use Rattle.golf_theory.specs.Maps.{find};
ghost use Rattle.golf_chan.specs.Channels.{channel_of, buffered, shifted, unbuffered, closed_in};

use golf_base::{Memory, ObjectId};
use golf_data::{Channel, Object, Value};
use golf_ring::Ring;
use golf_state::State;

/// Returns the channel of this number, or `None`.
#[inline(always)]
pub fn channel_at(state: &State, object: ObjectId) -> Option<&Channel>
    ensures { option_map (λ c. c.now) result ≡ channel_of (find object.0 state.now.objects) }
{
    match state.heap().get(object)? {
        Object::Chan(channel) => Some(channel),
        Object::Struct(_) => None,
        Object::Slice(_) => None,
        Object::Mutex(_) => None,
        Object::Group(_) => None,
        Object::Rw(_) => None,
        Object::Cond(_) => None,
    }
}

/// Adds a value to a channel's buffer. On `Err` the object is unchanged.
pub fn buffer(object: &mut Object, value: Value) -> Result<(), Memory>
    ensures ok { OnOk result (object.new ≡ buffered value object.old) }
    ensures err { OnErr result (object.new ≡ object.old) }
{
    if let Object::Chan(channel) = object {
        channel.buffer.push(value)?;
    }
    Ok(())
}

// Drops the first value, and adds one at the end. An empty buffer stays empty.
#[inline(always)]
fn shift(values: &mut Ring<Value>, value: Value)
    ensures { values.new ≡ shifted (value ∷ []) values.old }
{
    if !values.is_empty() {
        values.shift(value);
    }
}

/// Takes the first value off a channel's buffer, and adds `more` at the end if there is one. It takes no
/// memory.
pub fn take_first(object: &mut Object, more: Option<Value>)
    ensures { object.new ≡ unbuffered (option_to_list more) object.old }
{
    if let Object::Chan(channel) = object {
        match more {
            Some(value) => shift(&mut channel.buffer, value),
            None => channel.buffer.drop_first(),
        }
    }
}

/// Closes the channel.
pub fn close_it(object: &mut Object)
    ensures { object.new ≡ closed_in object.old }
{
    if let Object::Chan(channel) = object {
        channel.closed = true;
    }
}
