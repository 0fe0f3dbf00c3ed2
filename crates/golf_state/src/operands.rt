//! The last operands of a goroutine's innermost frame, and the kinds of operands.
//!
//! Nothing here removes an operand.

ghost use Rattle.std.specs.Prelude.{◌≡◌, slice_get, reverse};
ghost use Rattle.golf_model.specs.Values.{int_of, bool_of, text_of};
ghost use Rattle.golf_state.specs.Operands.{operands_of, two_of, three_of, reference_of};

use crate::state::State;
use golf_base::{GoroutineId, ObjectId};
use golf_data::Value;

// The last item.
fn last(items: &[Value]) -> Option<Value>
    ensures { result ≡ slice_get (reverse items.now) 0 }
{
    items.last().copied()
}

// The last two items, the last one second.
fn last_two(items: &[Value]) -> Option<(Value, Value)>
    ensures { result ≡ two_of (reverse items.now) }
{
    let count = items.len();
    if count < 2 {
        return None;
    }
    Some((items[count - 2], items[count - 1]))
}

// The last three items, the last one third.
fn last_three(items: &[Value]) -> Option<(Value, Value, Value)>
    ensures { result ≡ three_of (reverse items.now) }
{
    let count = items.len();
    if count < 3 {
        return None;
    }
    Some((items[count - 3], items[count - 2], items[count - 1]))
}

/// Returns the last operand of a goroutine's innermost frame, or `None`.
#[inline(always)]
pub fn last_operand(state: &State, g: GoroutineId) -> Option<Value>
    ensures { result ≡ slice_get (operands_of g.0 state.now) 0 }
{
    let frame = state.frame(g)?;
    last(frame.values.operands())
}

/// Returns the last two operands of a goroutine's innermost frame, the last one second. `None` if there are
/// fewer.
#[inline(always)]
pub fn last_operands(state: &State, g: GoroutineId) -> Option<(Value, Value)>
    ensures { result ≡ two_of (operands_of g.0 state.now) }
{
    let frame = state.frame(g)?;
    last_two(frame.values.operands())
}

/// Returns the last three operands of a goroutine's innermost frame, the last one third. `None` if there
/// are fewer.
pub fn last_three_operands(state: &State, g: GoroutineId) -> Option<(Value, Value, Value)>
    ensures { result ≡ three_of (operands_of g.0 state.now) }
{
    let frame = state.frame(g)?;
    last_three(frame.values.operands())
}

/// The operand of an operation on an object.
#[derive(Clone, Copy, Debug, PartialEq, Eq)]
pub enum Reference {
    /// A reference to this object.
    To(ObjectId),
    Nil,
    /// No reference: no rule fits.
    Misfit,
}

/// Returns whether the value is a reference, to which object, or nil.
#[inline(always)]
pub fn reference_in(value: Value) -> Reference
    ensures { result ≡ reference_of value }
{
    match value {
        Value::Ref(object) => Reference::To(object),
        Value::Nil => Reference::Nil,
        Value::Int(_) | Value::Bool(_) | Value::Text(_) | Value::Unit => Reference::Misfit,
    }
}

/// Returns the integer, or `None` if the value is not one.
#[inline(always)]
pub fn int_in(value: Value) -> Option<i64>
    ensures { result ≡ int_of value }
{
    match value {
        Value::Int(n) => Some(n),
        _ => None,
    }
}

/// Returns the truth value, or `None` if the value is not one.
#[inline(always)]
pub fn bool_in(value: Value) -> Option<bool>
    ensures { result ≡ bool_of value }
{
    match value {
        Value::Bool(b) => Some(b),
        _ => None,
    }
}

/// Returns the number of the text, or `None` if the value is not one.
#[inline(always)]
pub fn text_in(value: Value) -> Option<u32>
    ensures { result ≡ text_of value }
{
    match value {
        Value::Text(text) => Some(text),
        _ => None,
    }
}
