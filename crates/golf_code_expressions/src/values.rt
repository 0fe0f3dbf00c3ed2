//! Instructions that push values, and instructions that make slices and channels.

ghost use Rattle.std.specs.Prelude.{◌≡◌, pos, IfOk};
ghost use Rattle.golf_code_of.specs.Values.{base_zero as base_zero_of, type_zero as type_zero_of};
ghost use Rattle.golf_code_of.specs.Values.{zero_value as zero_value_of, push as push_of, constant as constant_of};
ghost use Rattle.golf_code_of.specs.Values.{new_container as new_container_of, makes as makes_of};

use golf_base::Memory;
use golf_check_types::{Base, GoType, Layer};
use golf_code_of::Tables;
use golf_data::{Instr, Value};

/// Returns a number of parts as an integer.
///
/// # Errors
///
/// `Memory` if an `int` cannot hold it.
pub fn whole(n: usize) -> Result<i64, Memory>
    ensures { IfOk result (λ i. i ≡ pos n) }
{
    match i64::try_from(n) {
        Ok(n) => Ok(n),
        Err(_) => Err(Memory),
    }
}

/// Returns a number of operands as instructions name it.
///
/// # Errors
///
/// `Memory` if it is 2^32 or more.
pub fn count(n: usize) -> Result<u32, Memory>
    ensures { IfOk result (λ m. m ≡ n) }
{
    match u32::try_from(n) {
        Ok(n) => Ok(n),
        Err(_) => Err(Memory),
    }
}

/// Returns the zero value of a type without layers.
pub fn base_zero(base: Base) -> Value
    ensures { result ≡ base_zero_of base }
{
    match base {
        Base::Int => Value::Int(0),
        Base::Bool => Value::Bool(false),
        Base::Text => Value::Text(0),
        Base::Unit => Value::Unit,
        Base::Pointer(_) | Base::Mutex | Base::Group | Base::ReadWriteMutex | Base::Condition =>
            Value::Nil,
    }
}

fn type_zero(layers: &[Layer], base: Base) -> Value
    ensures { result ≡ type_zero_of layers.now base }
{
    match layers {
        [] => base_zero(base),
        [_, ..] => Value::Nil,
    }
}

/// Returns the zero value of a type. It is nil for a type that is not known.
pub fn zero_value(t: &Option<GoType>) -> Value
    ensures { result ≡ zero_value_of t.now }
{
    match t {
        None => Value::Nil,
        Some(t) => type_zero(t.layers.as_slice(), t.base),
    }
}

fn new_container(layers: &[Layer], base: Base) -> Instr
    ensures { result ≡ new_container_of layers.now base }
{
    match layers {
        [] => Instr::Nil,
        [Layer::Slice, rest @ ..] => Instr::NewSlice(type_zero(rest, base)),
        [_, rest @ ..] => Instr::NewChan(type_zero(rest, base)),
    }
}

/// Returns the instruction that makes a slice or a channel of this type.
pub fn makes(t: &Option<GoType>) -> Instr
    ensures { result ≡ makes_of t.now }
{
    match t {
        None => Instr::Nil,
        Some(t) => new_container(t.layers.as_slice(), t.base),
    }
}

/// Returns the instruction that pushes a value.
pub fn push(value: Value) -> Instr
    ensures { result ≡ push_of value }
{
    match value {
        Value::Int(n) => Instr::Int(n),
        Value::Bool(b) => Instr::Bool(b),
        Value::Text(k) => Instr::Text(k),
        Value::Unit => Instr::Unit,
        Value::Nil => Instr::Nil,
        Value::Ref(_) => Instr::Nil,
    }
}

/// Returns the value of the constant of this number, or nil if there is no such constant.
pub fn constant(tables: &Tables, number: u32) -> Value
    ensures { result ≡ constant_of tables.now number }
{
    match tables.constants.as_slice().get(number as usize) {
        None => Value::Nil,
        Some(value) => *value,
    }
}
