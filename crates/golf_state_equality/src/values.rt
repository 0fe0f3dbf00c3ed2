//! When two values, and two lists of values, are the same.
//!
//! Slots and operands are compared as lists of values.

ghost use Rattle.std.specs.Prelude.{◌≡◌, ◌↔◌, IsTrue};

use golf_data::Value;

/// Returns whether both values are the same.
pub fn is_same_value(value: Value, other: Value) -> bool
    ensures { IsTrue result ↔ (value ≡ other) }
{
    value == other
}

/// Returns whether both have the same values in the same order.
pub fn same_values(values: &[Value], others: &[Value]) -> bool
    ensures { IsTrue result ↔ (values.now ≡ others.now) }
{
    values == others
}
