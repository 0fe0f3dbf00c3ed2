//! Tests of values (Go specification, "Assignability", "Comparison operators").
//!
//! They answer yes or no and name no rule. A value whose type is not known satisfies all of them, so that only the first
//! fault of an expression is reported.

ghost use Rattle.std.specs.Prelude.{◌≡◌};
ghost use Rattle.golf_check_types.specs.Types.{has_base as has_base_of, has_layer, starts_with, is_slice, is_channel};
ghost use Rattle.golf_check_types.specs.Types.{is_any, gives, takes, element as element_of, takes_nil as takes_nil_of};
ghost use Rattle.golf_check_types.specs.Types.{narrows as narrows_of, assignable_type as assignable_type_of};
ghost use Rattle.golf_check_types.specs.Types.{assignable_to as assignable_to_of, assignable as assignable_of};
ghost use Rattle.golf_check_types.specs.Types.{comparable as comparable_of};

use golf_check_types::{Base, Given, GoType, Layer, same_base, same_layers, same_type};

/// Returns whether a value has this type without layers.
pub fn has_base(base: Base, given: &Given) -> bool
    ensures { result ≡ has_base_of base given.now }
{
    match given {
        Given::Typed(t) => same_layers(t.layers.as_slice(), &[]) && same_base(t.base, base),
        Given::Nil => false,
        Given::Unknown => true,
    }
}

/// Returns whether the layers are those of a slice.
pub fn begins_slice(layers: &[Layer]) -> bool
    ensures { result ≡ starts_with is_slice layers.now }
{
    match layers {
        [Layer::Slice, ..] => true,
        _ => false,
    }
}

/// Returns whether a value is a slice.
pub(crate) fn has_slice(given: &Given) -> bool
    ensures { result ≡ has_layer is_slice given.now }
{
    match given {
        Given::Typed(t) => begins_slice(t.layers.as_slice()),
        Given::Nil => false,
        Given::Unknown => true,
    }
}

/// Returns whether the layers are those of a channel.
pub fn begins_channel(layers: &[Layer]) -> bool
    ensures { result ≡ starts_with is_channel layers.now }
{
    match layers {
        [Layer::Chan, ..] => true,
        [Layer::SendChan, ..] => true,
        [Layer::ReceiveChan, ..] => true,
        _ => false,
    }
}

/// Returns whether a value is a channel.
pub fn has_channel(given: &Given) -> bool
    ensures { result ≡ has_layer is_channel given.now }
{
    match given {
        Given::Typed(t) => begins_channel(t.layers.as_slice()),
        Given::Nil => false,
        Given::Unknown => true,
    }
}

/// Returns whether a value is a slice or a channel.
pub fn has_any(given: &Given) -> bool
    ensures { result ≡ has_layer is_any given.now }
{
    match given {
        Given::Typed(t) => match t.layers.as_slice() {
            [] => false,
            [_, ..] => true,
        },
        Given::Nil => false,
        Given::Unknown => true,
    }
}

// Returns whether the layers are those of a channel that can be received from.
fn begins_giving(layers: &[Layer]) -> bool
    ensures { result ≡ starts_with gives layers.now }
{
    match layers {
        [Layer::Chan, ..] => true,
        [Layer::ReceiveChan, ..] => true,
        _ => false,
    }
}

/// Returns whether a value is a channel that can be received from.
pub fn can_give(given: &Given) -> bool
    ensures { result ≡ has_layer gives given.now }
{
    match given {
        Given::Typed(t) => begins_giving(t.layers.as_slice()),
        Given::Nil => false,
        Given::Unknown => true,
    }
}

// Returns whether the layers are those of a channel that can be sent on.
fn begins_taking(layers: &[Layer]) -> bool
    ensures { result ≡ starts_with takes layers.now }
{
    match layers {
        [Layer::Chan, ..] => true,
        [Layer::SendChan, ..] => true,
        _ => false,
    }
}

/// Returns whether a value is a channel that can be sent on and closed.
pub fn can_take(given: &Given) -> bool
    ensures { result ≡ has_layer takes given.now }
{
    match given {
        Given::Typed(t) => begins_taking(t.layers.as_slice()),
        Given::Nil => false,
        Given::Unknown => true,
    }
}

/// Returns the element type of a slice or a channel, or `None` for any other value.
pub fn element(given: Given) -> Option<GoType>
    ensures { result ≡ element_of given }
{
    given.into_element()
}

// Returns whether `nil` is a value of this type: a pointer, a slice or a channel.
fn takes_nil(t: &GoType) -> bool
    ensures { result ≡ takes_nil_of t.now.layers t.now.base }
{
    match t.layers.as_slice() {
        [] => match t.base {
            Base::Int | Base::Bool | Base::Text | Base::Unit => false,
            _ => true,
        },
        [_, ..] => true,
    }
}

// Returns whether the first layers are those of a channel of both directions, and the second those of the same channel
// in one direction.
fn narrows(a: &[Layer], b: &[Layer]) -> bool
    ensures { result ≡ narrows_of a.now b.now }
{
    match a {
        [Layer::Chan, xs @ ..] => match b {
            [Layer::SendChan, ys @ ..] => same_layers(xs, ys),
            [Layer::ReceiveChan, ys @ ..] => same_layers(xs, ys),
            _ => false,
        },
        _ => false,
    }
}

// Returns whether a value of the first type is assignable to the second type.
fn assignable_type(a: &GoType, b: &GoType) -> bool
    ensures { result ≡ assignable_type_of a.now b.now }
{
    same_type(a, b)
        || (narrows(a.layers.as_slice(), b.layers.as_slice()) && same_base(a.base, b.base))
}

/// Returns whether a value is assignable to this type.
pub fn assignable_to(given: &Given, t: &GoType) -> bool
    ensures { result ≡ assignable_to_of given.now t.now }
{
    match given {
        Given::Typed(a) => assignable_type(a, t),
        Given::Nil => takes_nil(t),
        Given::Unknown => true,
    }
}

/// Returns the same for a type that may not be known. Any value is assignable to an unknown type.
pub fn assignable(given: &Given, t: &Option<GoType>) -> bool
    ensures { result ≡ assignable_of given.now t.now }
{
    match t {
        None => true,
        Some(t) => assignable_to(given, t),
    }
}

/// Returns whether two values can be compared by `==` and `!=`.
pub fn comparable(x: &Given, y: &Given) -> bool
    ensures { result ≡ comparable_of x.now y.now }
{
    match x {
        Given::Unknown => true,
        Given::Nil => match y {
            Given::Unknown => true,
            Given::Nil => false,
            Given::Typed(b) => takes_nil(b),
        },
        Given::Typed(a) => match y {
            Given::Unknown => true,
            Given::Nil => takes_nil(a),
            Given::Typed(b) => {
                (assignable_type(a, b) || assignable_type(b, a))
                    && !begins_slice(a.layers.as_slice())
            }
        },
    }
}
