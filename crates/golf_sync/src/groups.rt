//! Wait groups. On `Err` the state is unchanged.
//!
//! All waiters go on when the counter becomes 0 (package sync, `WaitGroup`).

ghost use Rattle.std.specs.Prelude.{◌≡◌, IfOk, OnErr, drop};
ghost use Rattle.golf_theory.specs.Maps.{find};
ghost use Rattle.golf_model.specs.Actors.{at_group, at_reference};
ghost use Rattle.golf_model.specs.Arithmetic.{sum};
ghost use Rattle.golf_model.specs.Mutexes.{adds, counts, waits, waits_by};
ghost use Rattle.golf_state.specs.ActorChanges.{Stands};
ghost use Rattle.golf_state.specs.Outcomes.{Comes};

use crate::objects::group_at;
use golf_base::{Memory, ObjectId};
use golf_data::{Object, PanicKind, Side, Value, WaitKind};
use golf_state::{
    Acting, Outcome, Reference, State, Waking, block_on, int_in, last_operand, last_operands,
    proceed, reference_in,
};
use std::alloc::Global;

// Adds to the counter of a wait group.
fn add_at(state: &mut State, acting: Acting, group: ObjectId, delta: i64) -> Outcome
    requires { Stands acting.goroutine.0 acting.after state.old }
    ensures { Comes result (λ a. at_group (λ n. counts a (drop 2 a.frame.operands) group.0 (sum n delta)) (find group.0 state.old.objects)) acting.goroutine.0 acting.line state.old state.new }
{
    let Some(count) = group_at(state, group) else {
        return Outcome::Stuck;
    };
    let count = count.wrapping_add(delta);
    if count < 0 {
        return Outcome::Panic(PanicKind::NegativeGroup);
    }
    state.replace(group, Object::Group(count));
    proceed(state, acting, acting.after, 2);
    if count == 0 {
        state.wake_all(group, Waking::AtZero);
    }
    Outcome::Done
}

// Adds to the counter of the wait group that a value refers to.
fn add_to(state: &mut State, acting: Acting, group: Value, delta: i64) -> Outcome
    requires { Stands acting.goroutine.0 acting.after state.old }
    ensures { Comes result (λ a. at_reference a (λ o. at_group (λ n. counts a (drop 2 a.frame.operands) o (sum n delta)) (find o state.old.objects)) group) acting.goroutine.0 acting.line state.old state.new }
{
    match reference_in(group) {
        Reference::To(object) => add_at(state, acting, object, delta),
        Reference::Nil => Outcome::Panic(PanicKind::NilPointer),
        Reference::Misfit => Outcome::Stuck,
    }
}

/// Adds the last operand to the counter of the wait group before it, for the goroutine whose turn it is.
/// The counter wraps at 64 bits. At 0 all waiters go on. Below 0 it panics, and the counter stays. It
/// panics on nil. It takes no memory.
pub fn group_add(state: &mut State, acting: Acting) -> Outcome
    requires { Stands acting.goroutine.0 acting.after state.old }
    ensures { Comes result (λ a. adds a state.old) acting.goroutine.0 acting.line state.old state.new }
{
    let Some((group, delta)) = last_operands(state, acting.goroutine) else {
        return Outcome::Stuck;
    };
    match int_in(delta) {
        Some(delta) => add_to(state, acting, group, delta),
        None => Outcome::Stuck,
    }
}

// Goes on if the counter is 0, and else blocks on the wait group.
fn wait_at(
    alloc: Global,
    state: &mut State,
    acting: Acting,
    group: ObjectId,
) -> Result<Outcome, Memory>
    requires { Stands acting.goroutine.0 acting.after state.old }
    ensures ok { IfOk result (λ outcome. Comes outcome (λ a. at_group (waits_by a (drop 1 a.frame.operands) group.0) (find group.0 state.old.objects)) acting.goroutine.0 acting.line state.old state.new) }
    ensures err { OnErr result (state.new ≡ state.old) }
{
    let Some(count) = group_at(state, group) else {
        return Ok(Outcome::Stuck);
    };
    if count != 0 {
        block_on(alloc, state, acting, 1, WaitKind::Group, group, Side::Group)?;
        return Ok(Outcome::Blocked);
    }
    proceed(state, acting, acting.after, 1);
    Ok(Outcome::Done)
}

/// Waits for the wait group that is the last operand, for the goroutine whose turn it is. The goroutine
/// goes on if the counter is 0, and else blocks. It panics on nil.
pub fn group_wait(alloc: Global, state: &mut State, acting: Acting) -> Result<Outcome, Memory>
    requires { Stands acting.goroutine.0 acting.after state.old }
    ensures ok { IfOk result (λ outcome. Comes outcome (λ a. waits a state.old) acting.goroutine.0 acting.line state.old state.new) }
    ensures err { OnErr result (state.new ≡ state.old) }
{
    let Some(group) = last_operand(state, acting.goroutine) else {
        return Ok(Outcome::Stuck);
    };
    match reference_in(group) {
        Reference::To(object) => wait_at(alloc, state, acting, object),
        Reference::Nil => Ok(Outcome::Panic(PanicKind::NilPointer)),
        Reference::Misfit => Ok(Outcome::Stuck),
    }
}
