//! The instructions on structs, slices and channels, and those that make objects. On `Err` the state is
//! unchanged.

ghost use Rattle.std.specs.Prelude.{◌≡◌, ◌∷◌, IfOk, OnErr, is_some, length, drop, slice_get, option_map, pos, false};
ghost use Rattle.golf_theory.specs.Maps.{find};
ghost use Rattle.golf_model.specs.Actors.{goes, leaves, panics, at_condition, at_reference, at_reference_or, at_struct};
ghost use Rattle.golf_model.specs.Actors.{at_slice};
ghost use Rattle.golf_model.specs.Conditions.{makes_condition, gets_mutex};
ghost use Rattle.golf_model.specs.Structures.{makes, makes_struct, gets_field, sets_field, field_set, makes_slice};
ghost use Rattle.golf_model.specs.Structures.{makes_channel, gets_element, sets_element, element_set, element, within};
ghost use Rattle.golf_model.specs.Structures.{measures, length_of};
ghost use Rattle.golf_model.specs.Values.{zero_of, zeros_of};
ghost use Rattle.golf_state.specs.Operands.{operands_of};
ghost use Rattle.golf_machine.specs.Operations.{int_in};
ghost use Rattle.golf_data.specs.declared.goroutine.PanicKind.{PanicKind};
ghost use Rattle.golf_data.specs.declared.value.Object.{Object};
ghost use Rattle.golf_state.specs.ActorChanges.{Stands};
ghost use Rattle.golf_machine.specs.Fits.{Fits};
ghost use Rattle.golf_machine.specs.Objects.{struct_of, slice_of, has_place, is_nil_or_mutex, field_changed};
ghost use Rattle.golf_machine.specs.Objects.{element_changed, measured};

use golf_base::{GoroutineId, List, Memory, ObjectId};
use golf_data::{Channel, Code, Object, PanicKind, Value};
use golf_ring::Ring;
use golf_state::{
    Acting, Given, Outcome, Reference, State, int_in, last_operand, last_operands,
    last_three_operands, make_onto, make_over, proceed, proceed_with, reference_in,
};
use golf_sync::condition_at;
use std::alloc::Global;

/// The most elements of a slice, and the largest capacity of a channel (this runtime's rule).
const MOST_ELEMENTS: i64 = 65_536;

// The fields of the struct of this number, or `None`.
fn struct_at(state: &State, object: ObjectId) -> Option<&List<Value>>
    ensures { option_map (λ fields. fields.now) result ≡ struct_of (find object.0 state.now.objects) }
{
    match state.heap().get(object)? {
        Object::Struct(fields) => Some(fields),
        _ => None,
    }
}

/// Returns whether the object of this number is a struct.
pub fn is_struct(state: &State, object: ObjectId) -> bool
    ensures { result ≡ is_some (struct_of (find object.0 state.now.objects)) }
{
    struct_at(state, object).is_some()
}

// The elements of the slice of this number, or `None`.
fn slice_at(state: &State, object: ObjectId) -> Option<&List<Value>>
    ensures { option_map (λ elements. elements.now) result ≡ slice_of (find object.0 state.now.objects) }
{
    match state.heap().get(object)? {
        Object::Slice(elements) => Some(elements),
        _ => None,
    }
}

// The last operand of a goroutine's innermost frame if it is an integer, or `None`.
fn last_int(state: &State, g: GoroutineId) -> Option<i64>
    ensures { result ≡ int_in (operands_of g.0 state.now) }
{
    int_in(last_operand(state, g)?)
}

// The zero value for a value in the code: nil for a reference, and else the value itself.
fn zero_of(value: Value) -> Value
    ensures { result ≡ zero_of value }
{
    match value {
        Value::Ref(_) => Value::Nil,
        _ => value,
    }
}

/// Returns the zero values of globals or fields.
pub fn zeros_of(alloc: Global, values: &[Value]) -> Result<List<Value>, Memory>
    ensures { IfOk result (λ zeros. zeros ≡ zeros_of values.now) }
{
    let mut zeros = List::new(alloc);
    for value in values {
        zeros.push(zero_of(*value))?;
    }
    Ok(zeros)
}

/// Makes this object: an unlocked mutex, an unlocked reader and writer mutex, or a wait group that counts 0.
pub fn new_object(state: &mut State, acting: Acting, object: Object) -> Result<Outcome, Memory>
    requires { Stands acting.goroutine.0 acting.after state.old }
    ensures ok { IfOk result (λ outcome. Fits outcome (λ a. makes a object a.frame.operands state.old) acting.goroutine.0 acting.line state.old state.new) }
    ensures err { OnErr result (state.new ≡ state.old) }
{
    make_onto(state, acting, object)?;
    Ok(Outcome::Done)
}

/// Makes a struct with the zero values of a row of the code's table. If there is no such row, no rule fits.
pub fn new_struct(
    alloc: Global,
    code: &Code,
    state: &mut State,
    acting: Acting,
    row: u32,
) -> Result<Outcome, Memory>
    requires { Stands acting.goroutine.0 acting.after state.old }
    ensures ok { IfOk result (λ outcome. Fits outcome (λ a. makes_struct code.now a row state.old) acting.goroutine.0 acting.line state.old state.new) }
    ensures err { OnErr result (state.new ≡ state.old) }
{
    let Some(zeros) = code.structs.as_slice().get(row as usize) else {
        return Ok(Outcome::Stuck);
    };
    let fields = zeros_of(alloc, zeros.as_slice())?;
    make_onto(state, acting, Object::Struct(fields))?;
    Ok(Outcome::Done)
}

/// Replaces the last operand, which refers to a struct, by one of its fields. It panics on nil.
pub fn get_field(state: &mut State, acting: Acting, field: u32) -> Result<Outcome, Memory>
    requires { Stands acting.goroutine.0 acting.after state.old }
    ensures ok { IfOk result (λ outcome. Fits outcome (λ a. gets_field a field state.old) acting.goroutine.0 acting.line state.old state.new) }
    ensures err { OnErr result (state.new ≡ state.old) }
{
    let Some(value) = last_operand(state, acting.goroutine) else {
        return Ok(Outcome::Stuck);
    };
    match reference_in(value) {
        Reference::To(object) => {
            let Some(fields) = struct_at(state, object) else {
                return Ok(Outcome::Stuck);
            };
            let Some(value) = fields.as_slice().get(field as usize).copied() else {
                return Ok(Outcome::Stuck);
            };
            proceed_with(state, acting, acting.after, 1, Given::One(value))?;
            Ok(Outcome::Done)
        }
        Reference::Nil => Ok(Outcome::Panic(PanicKind::NilPointer)),
        Reference::Misfit => Ok(Outcome::Stuck),
    }
}

// Sets the field at a place, if the object is a struct that has it.
fn change_field(object: &mut Object, field: usize, value: Value)
    ensures { object.new ≡ field_changed field value object.old }
{
    if let Object::Struct(fields) = object {
        if field < fields.len() {
            fields.set(field, value);
        }
    }
}

// Whether the struct of this number has a field at a place.
fn has_field(state: &State, object: ObjectId, field: u32) -> bool
    ensures { result ≡ has_place field (struct_of (find object.0 state.now.objects)) }
{
    match struct_at(state, object) {
        Some(fields) => (field as usize) < fields.len(),
        None => false,
    }
}

/// Stores the last operand in a field of the struct that the operand before it refers to. It panics on nil.
pub fn set_field(state: &mut State, acting: Acting, field: u32) -> Result<Outcome, Memory>
    requires { Stands acting.goroutine.0 acting.after state.old }
    ensures ok { IfOk result (λ outcome. Fits outcome (λ a. sets_field a field state.old) acting.goroutine.0 acting.line state.old state.new) }
    ensures err { OnErr result (state.new ≡ state.old) }
{
    let Some((object, value)) = last_operands(state, acting.goroutine) else {
        return Ok(Outcome::Stuck);
    };
    match reference_in(object) {
        Reference::To(object) => {
            if !has_field(state, object, field) {
                return Ok(Outcome::Stuck);
            }
            change_field(state.object_mut(object), field as usize, value);
            proceed(state, acting, acting.after, 2);
            Ok(Outcome::Done)
        }
        Reference::Nil => Ok(Outcome::Panic(PanicKind::NilPointer)),
        Reference::Misfit => Ok(Outcome::Stuck),
    }
}

/// Makes a slice with as many elements as the last operand says. Each has the zero value. It panics if the
/// count is below 0 or above 65,536.
pub fn new_slice(
    alloc: Global,
    state: &mut State,
    acting: Acting,
    zero: Value,
) -> Result<Outcome, Memory>
    requires { Stands acting.goroutine.0 acting.after state.old }
    ensures ok { IfOk result (λ outcome. Fits outcome (λ a. makes_slice a zero state.old) acting.goroutine.0 acting.line state.old state.new) }
    ensures err { OnErr result (state.new ≡ state.old) }
{
    let Some(size) = last_int(state, acting.goroutine) else {
        return Ok(Outcome::Stuck);
    };
    if size < 0 || size > MOST_ELEMENTS {
        return Ok(Outcome::Panic(PanicKind::SliceSize));
    }
    let mut elements = List::new(alloc);
    elements.extend_with(size as usize, zero_of(zero))?;
    make_over(state, acting, Object::Slice(elements))?;
    Ok(Outcome::Done)
}

/// Makes a channel whose capacity is the last operand. It panics if the capacity is below 0 or above
/// 65,536.
pub fn new_channel(
    alloc: Global,
    state: &mut State,
    acting: Acting,
    zero: Value,
) -> Result<Outcome, Memory>
    requires { Stands acting.goroutine.0 acting.after state.old }
    ensures ok { IfOk result (λ outcome. Fits outcome (λ a. makes_channel a zero state.old) acting.goroutine.0 acting.line state.old state.new) }
    ensures err { OnErr result (state.new ≡ state.old) }
{
    let Some(size) = last_int(state, acting.goroutine) else {
        return Ok(Outcome::Stuck);
    };
    if size < 0 || size > MOST_ELEMENTS {
        return Ok(Outcome::Panic(PanicKind::ChanSize));
    }
    let channel = Channel {
        capacity: size as u32,
        buffer: Ring::new(alloc),
        closed: false,
        zero: zero_of(zero),
    };
    make_over(state, acting, Object::Chan(channel))?;
    Ok(Outcome::Done)
}

// Whether a value is nil or a mutex.
fn is_nil_or_mutex(state: &State, value: Value) -> bool
    ensures { result ≡ is_nil_or_mutex state.now value }
{
    match reference_in(value) {
        Reference::To(object) => matches!(state.heap().get(object), Some(Object::Mutex(_))),
        Reference::Nil => true,
        Reference::Misfit => false,
    }
}

/// Makes a condition with the last operand, which is a mutex or nil.
pub fn new_condition(state: &mut State, acting: Acting) -> Result<Outcome, Memory>
    requires { Stands acting.goroutine.0 acting.after state.old }
    ensures ok { IfOk result (λ outcome. Fits outcome (λ a. makes_condition a state.old) acting.goroutine.0 acting.line state.old state.new) }
    ensures err { OnErr result (state.new ≡ state.old) }
{
    let Some(mutex) = last_operand(state, acting.goroutine) else {
        return Ok(Outcome::Stuck);
    };
    if is_nil_or_mutex(state, mutex) {
        make_over(state, acting, Object::Cond(mutex))?;
        return Ok(Outcome::Done);
    }
    Ok(Outcome::Stuck)
}

// The element at an index, if the slice has it.
fn element_at(elements: &[Value], index: i64) -> Option<Value>
    ensures { result ≡ element elements.now index }
{
    match usize::try_from(index) {
        Ok(at) => elements.get(at).copied(),
        Err(_) => None,
    }
}

/// Replaces the last two operands, a slice and an index, by the element there. It panics if the index is
/// out of range. Nil has no elements.
pub fn get_element(state: &mut State, acting: Acting) -> Result<Outcome, Memory>
    requires { Stands acting.goroutine.0 acting.after state.old }
    ensures ok { IfOk result (λ outcome. Fits outcome (λ a. gets_element a state.old) acting.goroutine.0 acting.line state.old state.new) }
    ensures err { OnErr result (state.new ≡ state.old) }
{
    let Some((slice, index)) = last_operands(state, acting.goroutine) else {
        return Ok(Outcome::Stuck);
    };
    let Some(index) = int_in(index) else {
        return Ok(Outcome::Stuck);
    };
    match reference_in(slice) {
        Reference::To(object) => {
            let Some(elements) = slice_at(state, object) else {
                return Ok(Outcome::Stuck);
            };
            let length = u32::try_from(elements.len()).map_err(|_| Memory)?;
            match element_at(elements.as_slice(), index) {
                Some(value) => {
                    proceed_with(state, acting, acting.after, 2, Given::One(value))?;
                    Ok(Outcome::Done)
                }
                None => Ok(Outcome::Panic(PanicKind::Index { at: index, length })),
            }
        }
        Reference::Nil => {
            let (at, length) = (index, 0);
            Ok(Outcome::Panic(PanicKind::Index { at, length }))
        }
        Reference::Misfit => Ok(Outcome::Stuck),
    }
}

// Sets the element at a place, if the object is a slice that has it.
fn change_element(object: &mut Object, at: usize, value: Value)
    ensures { object.new ≡ element_changed at value object.old }
{
    if let Object::Slice(elements) = object {
        if at < elements.len() {
            elements.set(at, value);
        }
    }
}

// Sets the element at an index of a slice.
fn set_element_at(
    state: &mut State,
    acting: Acting,
    object: ObjectId,
    index: i64,
    value: Value,
) -> Result<Outcome, Memory>
    requires { Stands acting.goroutine.0 acting.after state.old }
    ensures ok { IfOk result (λ outcome. Fits outcome (λ a. at_slice (element_set a index value (drop 3 a.frame.operands) object.0) (find object.0 state.old.objects)) acting.goroutine.0 acting.line state.old state.new) }
    ensures err { OnErr result (state.new ≡ state.old) }
{
    let Some(elements) = slice_at(state, object) else {
        return Ok(Outcome::Stuck);
    };
    let length = u32::try_from(elements.len()).map_err(|_| Memory)?;
    if element_at(elements.as_slice(), index).is_none() {
        return Ok(Outcome::Panic(PanicKind::Index { at: index, length }));
    }
    let at = index.unsigned_abs() as usize;
    change_element(state.object_mut(object), at, value);
    proceed(state, acting, acting.after, 3);
    Ok(Outcome::Done)
}

/// Stores the last operand in a slice. The slice and the index are the two operands before it. It panics if
/// the index is out of range. Nil has no elements.
pub fn set_element(state: &mut State, acting: Acting) -> Result<Outcome, Memory>
    requires { Stands acting.goroutine.0 acting.after state.old }
    ensures ok { IfOk result (λ outcome. Fits outcome (λ a. sets_element a state.old) acting.goroutine.0 acting.line state.old state.new) }
    ensures err { OnErr result (state.new ≡ state.old) }
{
    let Some((slice, index, value)) = last_three_operands(state, acting.goroutine) else {
        return Ok(Outcome::Stuck);
    };
    let Some(index) = int_in(index) else {
        return Ok(Outcome::Stuck);
    };
    match reference_in(slice) {
        Reference::To(object) => set_element_at(state, acting, object, index, value),
        Reference::Nil => {
            let (at, length) = (index, 0);
            Ok(Outcome::Panic(PanicKind::Index { at, length }))
        }
        Reference::Misfit => Ok(Outcome::Stuck),
    }
}

// How many elements a slice has, or how many values the buffer of a channel has.
fn length_of(object: &Object) -> Option<usize>
    ensures { result ≡ length_of object.now }
{
    match object {
        Object::Slice(elements) => Some(elements.len()),
        Object::Chan(channel) => Some(channel.buffer.len()),
        _ => None,
    }
}

// The length of the object that a value refers to, or 0 for nil.
fn length_at(state: &State, value: Value) -> Option<usize>
    ensures { result ≡ measured state.now value }
{
    match reference_in(value) {
        Reference::To(object) => length_of(state.heap().get(object)?),
        Reference::Nil => Some(0),
        Reference::Misfit => None,
    }
}

/// Replaces the last operand by its length: the elements of a slice, or the buffered values of a channel.
/// Nil has the length 0.
pub fn measure(state: &mut State, acting: Acting) -> Result<Outcome, Memory>
    requires { Stands acting.goroutine.0 acting.after state.old }
    ensures ok { IfOk result (λ outcome. Fits outcome (λ a. measures a state.old) acting.goroutine.0 acting.line state.old state.new) }
    ensures err { OnErr result (state.new ≡ state.old) }
{
    let Some(value) = last_operand(state, acting.goroutine) else {
        return Ok(Outcome::Stuck);
    };
    let Some(length) = length_at(state, value) else {
        return Ok(Outcome::Stuck);
    };
    let count = i64::try_from(length).map_err(|_| Memory)?;
    let given = Given::One(Value::Int(count));
    proceed_with(state, acting, acting.after, 1, given)?;
    Ok(Outcome::Done)
}

/// Replaces the last operand, which refers to a condition, by its mutex. It panics on nil.
pub fn get_mutex(state: &mut State, acting: Acting) -> Result<Outcome, Memory>
    requires { Stands acting.goroutine.0 acting.after state.old }
    ensures ok { IfOk result (λ outcome. Fits outcome (λ a. gets_mutex a state.old) acting.goroutine.0 acting.line state.old state.new) }
    ensures err { OnErr result (state.new ≡ state.old) }
{
    let Some(condition) = last_operand(state, acting.goroutine) else {
        return Ok(Outcome::Stuck);
    };
    match reference_in(condition) {
        Reference::To(object) => match condition_at(state, object) {
            Some(mutex) => {
                proceed_with(state, acting, acting.after, 1, Given::One(mutex))?;
                Ok(Outcome::Done)
            }
            None => Ok(Outcome::Stuck),
        },
        Reference::Nil => Ok(Outcome::Panic(PanicKind::NilPointer)),
        Reference::Misfit => Ok(Outcome::Stuck),
    }
}
