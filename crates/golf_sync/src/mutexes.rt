//! Mutexes. On `Err` the state is unchanged. An unlock hands the mutex to its first waiter, so it stays
//! locked.

ghost use Rattle.std.specs.Prelude.{◌≡◌, IfOk, OnErr, drop, true};
ghost use Rattle.golf_theory.specs.Maps.{find};
ghost use Rattle.golf_model.specs.Actors.{at_mutex};
ghost use Rattle.golf_model.specs.Mutexes.{locks, locks_by, unlocks, unlocks_by};
ghost use Rattle.golf_state.specs.ActorChanges.{Stands};
ghost use Rattle.golf_state.specs.Outcomes.{Comes};
ghost use Rattle.golf_state.specs.MutexHandover.{is_blocked_where, handed_over};

use crate::objects::{mutex_at, put_mutex};
use golf_base::{Memory, ObjectId};
use golf_data::{PanicKind, Side, WaitKind};
use golf_state::{
    Acting, Outcome, Reference, State, Waiting, Wakening, block_on, last_operand, proceed,
    reference_in,
};
use std::alloc::Global;

// Locks a mutex, or blocks on it.
#[inline(always)]
fn lock_at(
    alloc: Global,
    state: &mut State,
    acting: Acting,
    mutex: ObjectId,
) -> Result<Outcome, Memory>
    requires { Stands acting.goroutine.0 acting.after state.old }
    ensures ok { IfOk result (λ outcome. Comes outcome (λ a. at_mutex (locks_by a (drop 1 a.frame.operands) mutex.0) (find mutex.0 state.old.objects)) acting.goroutine.0 acting.line state.old state.new) }
    ensures err { OnErr result (state.new ≡ state.old) }
{
    let Some(locked) = mutex_at(state, mutex) else {
        return Ok(Outcome::Stuck);
    };
    if locked {
        block_on(alloc, state, acting, 1, WaitKind::Lock, mutex, Side::Lock)?;
        return Ok(Outcome::Blocked);
    }
    put_mutex(state, mutex, true);
    proceed(state, acting, acting.after, 1);
    Ok(Outcome::Done)
}

/// Locks the mutex that is the last operand, for the goroutine whose turn it is. It blocks if the mutex is
/// locked, and panics on nil.
#[inline(always)]
pub fn lock(alloc: Global, state: &mut State, acting: Acting) -> Result<Outcome, Memory>
    requires { Stands acting.goroutine.0 acting.after state.old }
    ensures ok { IfOk result (λ outcome. Comes outcome (λ a. locks a state.old) acting.goroutine.0 acting.line state.old state.new) }
    ensures err { OnErr result (state.new ≡ state.old) }
{
    let Some(mutex) = last_operand(state, acting.goroutine) else {
        return Ok(Outcome::Stuck);
    };
    match reference_in(mutex) {
        Reference::To(object) => lock_at(alloc, state, acting, object),
        Reference::Nil => Ok(Outcome::Panic(PanicKind::NilPointer)),
        Reference::Misfit => Ok(Outcome::Stuck),
    }
}

/// Hands a locked mutex to this waiter, which runs. Without a waiter the mutex becomes unlocked. It takes
/// no memory.
#[inline(always)]
pub fn hand_over(state: &mut State, mutex: ObjectId, waiting: Option<Waiting>)
    requires { is_blocked_where waiting state.old ≡ true }
    ensures { state.new ≡ handed_over mutex.0 waiting state.old }
{
    match waiting {
        Some(waiting) => state.wake(waiting.goroutine, Wakening::Released),
        None => put_mutex(state, mutex, false),
    }
}

// Unlocks a mutex.
#[inline(always)]
fn unlock_at(state: &mut State, acting: Acting, mutex: ObjectId) -> Outcome
    requires { Stands acting.goroutine.0 acting.after state.old }
    ensures { Comes result (λ a. at_mutex (unlocks_by a (drop 1 a.frame.operands) state.old mutex.0) (find mutex.0 state.old.objects)) acting.goroutine.0 acting.line state.old state.new }
{
    let Some(locked) = mutex_at(state, mutex) else {
        return Outcome::Stuck;
    };
    if !locked {
        return Outcome::Panic(PanicKind::UnlockUnlocked);
    }
    let waiting = state.first_waiter(mutex, Side::Lock);
    proceed(state, acting, acting.after, 1);
    hand_over(state, mutex, waiting);
    Outcome::Done
}

/// Unlocks the mutex that is the last operand, for the goroutine whose turn it is. Its first waiter gets
/// it. The unlock of an unlocked mutex is a fatal error. It panics on nil. It takes no memory.
#[inline(always)]
pub fn unlock(state: &mut State, acting: Acting) -> Outcome
    requires { Stands acting.goroutine.0 acting.after state.old }
    ensures { Comes result (λ a. unlocks a state.old) acting.goroutine.0 acting.line state.old state.new }
{
    let Some(mutex) = last_operand(state, acting.goroutine) else {
        return Outcome::Stuck;
    };
    match reference_in(mutex) {
        Reference::To(object) => unlock_at(state, acting, object),
        Reference::Nil => Outcome::Panic(PanicKind::NilPointer),
        Reference::Misfit => Outcome::Stuck,
    }
}
