//! Conditions. On `Err` the state is unchanged.
//!
//! A signal passes a waiter on to the condition's mutex: the waiter locks it, or waits for it with a new
//! ticket.

ghost use Rattle.std.specs.Prelude.{◌≡◌, ◌+◌, ◌<◌, ◌^◌, ◌++◌, IfOk, OnErr, IsSome, drop, length};
ghost use Rattle.golf_theory.specs.Maps.{find, IsRising};
ghost use Rattle.golf_model.specs.Changes.{apply_all};
ghost use Rattle.golf_model.specs.Actors.{goes, taking_one, at_reference, at_mutex, at_condition};
ghost use Rattle.golf_model.specs.Waiters.{first, waiters};
ghost use Rattle.golf_model.specs.Conditions.{awaits, awaits_by, signals, broadcasts, notifies, first_only, requeues};
ghost use Rattle.golf_data.specs.declared.goroutine.Side.{Side};
ghost use Rattle.golf_state.specs.ActorChanges.{Stands};
ghost use Rattle.golf_state.specs.Outcomes.{Comes};
ghost use Rattle.golf_sync.specs.Objects.{mutex_of};
ghost use Rattle.golf_sync.specs.Notified.{notified};

use crate::mutexes::hand_over;
use crate::objects::{condition_at, mutex_at};
use golf_base::{Memory, ObjectId};
use golf_data::{PanicKind, Side, Value, WaitKind};
use golf_state::{
    Acting, Outcome, Reference, State, block_on, last_operand, proceed, reference_in,
};
use std::alloc::Global;

// Unlocks the mutex of a condition, and blocks the goroutine on the condition.
fn await_with(
    alloc: Global,
    state: &mut State,
    acting: Acting,
    condition: ObjectId,
    mutex: ObjectId,
) -> Result<Outcome, Memory>
    requires { Stands acting.goroutine.0 acting.after state.old }
    ensures ok { IfOk result (λ outcome. Comes outcome (λ a. at_mutex (awaits_by a (drop 1 a.frame.operands) state.old condition.0 mutex.0) (find mutex.0 state.old.objects)) acting.goroutine.0 acting.line state.old state.new) }
    ensures err { OnErr result (state.new ≡ state.old) }
{
    let Some(locked) = mutex_at(state, mutex) else {
        return Ok(Outcome::Stuck);
    };
    if !locked {
        return Ok(Outcome::Panic(PanicKind::UnlockUnlocked));
    }
    let waiting = state.first_waiter(mutex, Side::Lock);
    block_on(
        alloc,
        state,
        acting,
        1,
        WaitKind::Condition,
        condition,
        Side::Cond,
    )?;
    hand_over(state, mutex, waiting);
    Ok(Outcome::Blocked)
}

// Blocks the goroutine on a condition.
fn await_at(
    alloc: Global,
    state: &mut State,
    acting: Acting,
    condition: ObjectId,
) -> Result<Outcome, Memory>
    requires { Stands acting.goroutine.0 acting.after state.old }
    ensures ok { IfOk result (λ outcome. Comes outcome (λ a. at_condition (λ m. at_reference a (λ p. at_mutex (awaits_by a (drop 1 a.frame.operands) state.old condition.0 p) (find p state.old.objects)) m) (find condition.0 state.old.objects)) acting.goroutine.0 acting.line state.old state.new) }
    ensures err { OnErr result (state.new ≡ state.old) }
{
    let Some(mutex) = condition_at(state, condition) else {
        return Ok(Outcome::Stuck);
    };
    match reference_in(mutex) {
        Reference::To(mutex) => await_with(alloc, state, acting, condition, mutex),
        Reference::Nil => Ok(Outcome::Panic(PanicKind::NilPointer)),
        Reference::Misfit => Ok(Outcome::Stuck),
    }
}

/// Waits on the condition that is the last operand, for the goroutine whose turn it is. The goroutine
/// unlocks the condition's mutex and blocks. An unlocked mutex is a fatal error. If the condition or its
/// mutex is nil, it panics.
pub fn cond_wait(alloc: Global, state: &mut State, acting: Acting) -> Result<Outcome, Memory>
    requires { Stands acting.goroutine.0 acting.after state.old }
    ensures ok { IfOk result (λ outcome. Comes outcome (λ a. awaits a state.old) acting.goroutine.0 acting.line state.old state.new) }
    ensures err { OnErr result (state.new ≡ state.old) }
{
    let Some(condition) = last_operand(state, acting.goroutine) else {
        return Ok(Outcome::Stuck);
    };
    match reference_in(condition) {
        Reference::To(object) => await_at(alloc, state, acting, object),
        Reference::Nil => Ok(Outcome::Panic(PanicKind::NilPointer)),
        Reference::Misfit => Ok(Outcome::Stuck),
    }
}

// Passes all waiters of a condition on to a mutex, by rising ticket. It takes no memory.
fn requeue_all(state: &mut State, condition: ObjectId, mutex: ObjectId)
    requires tickets { state.old.next_ticket + length state.old.goroutines < 2 ^ 64 }
    requires mutex { IsSome (mutex_of (find mutex.0 state.old.objects)) }
    ensures { state.new ≡ apply_all (requeues mutex.0 (waiters condition.0 Side.Cond state.old.goroutines)) state.old }
{
    while let Some(waiting) = state.first_waiter(condition, Side::Cond) {
        state.requeue(waiting.goroutine, mutex);
    }
}

// Passes the first waiter of a condition on to a mutex. It takes no memory.
fn requeue_first(state: &mut State, condition: ObjectId, mutex: ObjectId)
    requires { state.old.next_ticket + length state.old.goroutines < 2 ^ 64 }
    ensures { state.new ≡ apply_all (requeues mutex.0 (first_only (first condition.0 Side.Cond state.old.goroutines))) state.old }
{
    if let Some(waiting) = state.first_waiter(condition, Side::Cond) {
        state.requeue(waiting.goroutine, mutex);
    }
}

// Lets the goroutine go on, and passes waiters of a condition on to its mutex: all, or only the first one.
fn notify_with(
    state: &mut State,
    acting: Acting,
    condition: ObjectId,
    mutex: ObjectId,
    all: bool,
) -> Outcome
    requires stands { Stands acting.goroutine.0 acting.after state.old }
    requires tickets { state.old.next_ticket + length state.old.goroutines < 2 ^ 64 }
    requires rises { IsRising state.old.goroutines }
    ensures { Comes result (λ a. at_mutex (λ locked. goes a (drop 1 a.frame.operands) ++ requeues mutex.0 (notified all condition.0 state.old.goroutines)) (find mutex.0 state.old.objects)) acting.goroutine.0 acting.line state.old state.new }
{
    if mutex_at(state, mutex).is_none() {
        return Outcome::Stuck;
    }
    proceed(state, acting, acting.after, 1);
    if all {
        requeue_all(state, condition, mutex);
    } else {
        requeue_first(state, condition, mutex);
    }
    Outcome::Done
}

// Passes waiters of a condition on to this mutex, if there is a waiter: all, or only the first one.
fn notify_by(
    state: &mut State,
    acting: Acting,
    condition: ObjectId,
    mutex: Value,
    all: bool,
) -> Outcome
    requires stands { Stands acting.goroutine.0 acting.after state.old }
    requires tickets { state.old.next_ticket + length state.old.goroutines < 2 ^ 64 }
    ensures { Comes result (λ a. notifies a (drop 1 a.frame.operands) state.old (notified all condition.0 state.old.goroutines) mutex) acting.goroutine.0 acting.line state.old state.new }
{
    if state.first_waiter(condition, Side::Cond).is_none() {
        proceed(state, acting, acting.after, 1);
        return Outcome::Done;
    }
    match reference_in(mutex) {
        Reference::To(mutex) => notify_with(state, acting, condition, mutex, all),
        Reference::Nil => Outcome::Stuck,
        Reference::Misfit => Outcome::Stuck,
    }
}

// Passes waiters of a condition on: all, or only the first one.
fn notify_at(state: &mut State, acting: Acting, condition: ObjectId, all: bool) -> Outcome
    requires stands { Stands acting.goroutine.0 acting.after state.old }
    requires tickets { state.old.next_ticket + length state.old.goroutines < 2 ^ 64 }
    ensures { Comes result (λ a. at_condition (notifies a (drop 1 a.frame.operands) state.old (notified all condition.0 state.old.goroutines)) (find condition.0 state.old.objects)) acting.goroutine.0 acting.line state.old state.new }
{
    match condition_at(state, condition) {
        Some(mutex) => notify_by(state, acting, condition, mutex, all),
        None => Outcome::Stuck,
    }
}

// Passes waiters of the condition that is the last operand on: all, or only the first one.
fn notify(state: &mut State, acting: Acting, all: bool) -> Outcome
    requires stands { Stands acting.goroutine.0 acting.after state.old }
    requires tickets { state.old.next_ticket + length state.old.goroutines < 2 ^ 64 }
    ensures { Comes result (λ a. taking_one (λ c rest. at_reference a (λ o. at_condition (notifies a rest state.old (notified all o state.old.goroutines)) (find o state.old.objects)) c) a.frame.operands) acting.goroutine.0 acting.line state.old state.new }
{
    let Some(condition) = last_operand(state, acting.goroutine) else {
        return Outcome::Stuck;
    };
    match reference_in(condition) {
        Reference::To(object) => notify_at(state, acting, object, all),
        Reference::Nil => Outcome::Panic(PanicKind::NilPointer),
        Reference::Misfit => Outcome::Stuck,
    }
}

/// Signals the condition that is the last operand, for the goroutine whose turn it is. Without a waiter
/// nothing else happens. If the condition's mutex is unlocked, it becomes locked and the first waiter runs.
/// Else that waiter waits for the mutex from now on. It panics on nil. It takes no memory.
pub fn cond_signal(state: &mut State, acting: Acting) -> Outcome
    requires stands { Stands acting.goroutine.0 acting.after state.old }
    requires tickets { state.old.next_ticket + length state.old.goroutines < 2 ^ 64 }
    ensures { Comes result (λ a. signals a state.old) acting.goroutine.0 acting.line state.old state.new }
{
    notify(state, acting, false)
}

/// Broadcasts to the condition that is the last operand, for the goroutine whose turn it is: it passes all
/// waiters on, by rising ticket. It panics on nil. It takes no memory.
pub fn cond_broadcast(state: &mut State, acting: Acting) -> Outcome
    requires stands { Stands acting.goroutine.0 acting.after state.old }
    requires tickets { state.old.next_ticket + length state.old.goroutines < 2 ^ 64 }
    ensures { Comes result (λ a. broadcasts a state.old) acting.goroutine.0 acting.line state.old state.new }
{
    notify(state, acting, true)
}
