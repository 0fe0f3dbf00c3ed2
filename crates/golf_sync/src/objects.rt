//! Objects of package sync, found by number.
//!
//! A number that names no such object gives `None`. Then no rule fits.

ghost use Rattle.std.specs.Prelude.{◌≡◌, IsSome, Some};
ghost use Rattle.golf_theory.specs.Maps.{find};
ghost use Rattle.golf_data.specs.declared.value.Object.{Object};
ghost use Rattle.golf_model.specs.Changes.{replace};
ghost use Rattle.golf_sync.specs.Objects.{mutex_of, group_of, rw_of, condition_of};

use golf_base::ObjectId;
use golf_data::{Object, Value};
use golf_state::State;

/// Returns whether the mutex of this number is locked. `None` if the object is no mutex.
#[inline(always)]
pub fn mutex_at(state: &State, object: ObjectId) -> Option<bool>
    ensures { result ≡ mutex_of (find object.0 state.now.objects) }
{
    match state.heap().get(object)? {
        Object::Struct(_) => None,
        Object::Slice(_) => None,
        Object::Chan(_) => None,
        Object::Mutex(locked) => Some(*locked),
        Object::Group(_) => None,
        Object::Rw(_) => None,
        Object::Cond(_) => None,
    }
}

// Locks or unlocks a mutex.
#[inline(always)]
fn set_locked(object: &mut Object, is_locked: bool)
    requires { IsSome (mutex_of (Some object.old)) }
    ensures { object.new ≡ Object.Mutex is_locked }
{
    match object {
        Object::Mutex(locked) => *locked = is_locked,
        Object::Struct(_) => {}
        Object::Slice(_) => {}
        Object::Chan(_) => {}
        Object::Group(_) => {}
        Object::Rw(_) => {}
        Object::Cond(_) => {}
    }
}

/// Replaces the object of this number, if it is there, by a mutex, locked or unlocked. A mutex changes in
/// its place.
#[inline(always)]
pub fn put_mutex(state: &mut State, object: ObjectId, is_locked: bool)
    ensures { state.new ≡ replace object.0 (Object.Mutex is_locked) state.old }
{
    if mutex_at(state, object).is_some() {
        set_locked(state.object_mut(object), is_locked);
    } else {
        state.replace(object, Object::Mutex(is_locked));
    }
}

/// Returns the counter of the wait group of this number, or `None`.
pub fn group_at(state: &State, object: ObjectId) -> Option<i64>
    ensures { result ≡ group_of (find object.0 state.now.objects) }
{
    match state.heap().get(object)? {
        Object::Struct(_) => None,
        Object::Slice(_) => None,
        Object::Chan(_) => None,
        Object::Mutex(_) => None,
        Object::Group(n) => Some(*n),
        Object::Rw(_) => None,
        Object::Cond(_) => None,
    }
}

/// Returns the count of the reader and writer mutex of this number, or `None`.
pub fn rw_at(state: &State, object: ObjectId) -> Option<i64>
    ensures { result ≡ rw_of (find object.0 state.now.objects) }
{
    match state.heap().get(object)? {
        Object::Struct(_) => None,
        Object::Slice(_) => None,
        Object::Chan(_) => None,
        Object::Mutex(_) => None,
        Object::Group(_) => None,
        Object::Rw(n) => Some(*n),
        Object::Cond(_) => None,
    }
}

/// Returns the mutex of the condition of this number, or `None`.
pub fn condition_at(state: &State, object: ObjectId) -> Option<Value>
    ensures { result ≡ condition_of (find object.0 state.now.objects) }
{
    match state.heap().get(object)? {
        Object::Struct(_) => None,
        Object::Slice(_) => None,
        Object::Chan(_) => None,
        Object::Mutex(_) => None,
        Object::Group(_) => None,
        Object::Rw(_) => None,
        Object::Cond(mutex) => Some(*mutex),
    }
}
