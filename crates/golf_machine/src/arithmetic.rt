//! Arithmetic on integers, and equality of values.
//!
//! Integers have 64 bits and wrap (Go specification, "Integer overflow").

ghost use Rattle.std.specs.Prelude.{◌≡◌};
ghost use Rattle.std.specs.Int.{w64, IsNonZero};
ghost use Rattle.golf_model.specs.Values.{equality};
ghost use Rattle.golf_machine.specs.Operations.{operation_of, division_of, comparison_of};

use golf_data::Value;

/// An operation on two integers.
#[derive(Clone, Copy, Debug, PartialEq, Eq)]
pub enum Operation {
    Add,
    Sub,
    Mul,
}

/// A division of two integers.
#[derive(Clone, Copy, Debug, PartialEq, Eq)]
pub enum Division {
    Quotient,
    Remainder,
}

/// A comparison of two integers.
#[derive(Clone, Copy, Debug, PartialEq, Eq)]
pub enum Comparison {
    Less,
    AtMost,
}

/// Returns the result of an operation, wrapped at 64 bits.
pub fn result_of(operation: Operation, m: i64, n: i64) -> i64
    ensures { result ≡ operation_of operation m n }
{
    match operation {
        Operation::Add => m.wrapping_add(n),
        Operation::Sub => m.wrapping_sub(n),
        Operation::Mul => m.wrapping_mul(n),
    }
}

/// Returns the quotient, cut off toward zero, or the remainder.
pub fn part_of(division: Division, m: i64, n: i64) -> i64
    requires { IsNonZero w64 n }
    ensures { result ≡ division_of division m n }
{
    match division {
        Division::Quotient => m.wrapping_div(n),
        Division::Remainder => m.wrapping_rem(n),
    }
}

/// Returns whether a comparison holds.
pub fn holds(comparison: Comparison, m: i64, n: i64) -> bool
    ensures { result ≡ comparison_of comparison m n }
{
    match comparison {
        Comparison::Less => m < n,
        Comparison::AtMost => m <= n,
    }
}

/// Returns whether two values of one kind are equal. `None` if they are of two kinds.
pub fn are_equal(x: Value, y: Value) -> Option<bool>
    ensures { result ≡ equality x y }
{
    match (x, y) {
        (Value::Int(m), Value::Int(n)) => Some(m == n),
        (Value::Bool(b), Value::Bool(c)) => Some(b == c),
        (Value::Text(j), Value::Text(k)) => Some(j == k),
        (Value::Unit, Value::Unit) => Some(true),
        (Value::Nil, Value::Nil) => Some(true),
        (Value::Nil, Value::Ref(_)) => Some(false),
        (Value::Ref(_), Value::Nil) => Some(false),
        (Value::Ref(o), Value::Ref(p)) => Some(o.0 == p.0),
        _ => None,
    }
}
