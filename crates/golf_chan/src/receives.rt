//! A receive. On `Err` the state is unchanged.
//!
//! The values come in the order in which they were sent (Go specification, "Receive operator").

ghost use Rattle.std.specs.Prelude.{◌≡◌, [], if◌then◌else◌, Some, None, IfOk, OnErr};
ghost use Rattle.golf_theory.specs.Maps.{find};
ghost use Rattle.golf_model.specs.Channels.{receives, receives_on};
ghost use Rattle.golf_state.specs.ActorChanges.{Stands};
ghost use Rattle.golf_state.specs.FrameChanges.{went};
ghost use Rattle.golf_state.specs.Outcomes.{Comes};
ghost use Rattle.golf_chan.specs.Channels.{channel_of, HasFirst, IsEmptyWith};

use crate::channel::{channel_at, take_first};
use golf_base::{Memory, ObjectId};
use golf_data::{Channel, Side, Value, Wait, WaitKind, Waits};
use golf_state::{
    Acting, Given, Outcome, Reference, State, Wakening, block_at, last_operand, proceed_with,
    received, reference_in,
};
use std::alloc::Global;

/// The effect of a receive on the goroutine: it goes on at `target`, without its last `taken` operands.
/// With `with_ok` it also gets whether the value was sent.
#[derive(Clone, Copy, Debug, PartialEq, Eq)]
pub struct Receiving {
    pub target: u32,
    pub taken: usize,
    pub with_ok: bool,
}

// Receives the first buffered value. The value of the first waiting sender joins the buffer, and that
// sender runs.
#[inline(always)]
fn receive_buffered(
    state: &mut State,
    acting: Acting,
    receiving: Receiving,
    object: ObjectId,
    value: Value,
) -> Result<Outcome, Memory>
    requires stands { Stands acting.goroutine.0 acting.after state.old }
    requires buffered { HasFirst value (channel_of (find object.0 state.old.objects)) }
    ensures ok { IfOk result (λ outcome. Comes outcome (λ a. receives_on a (went receiving.target receiving.taken [] a.frame) receiving.with_ok state.old object.0) acting.goroutine.0 acting.line state.old state.new) }
    ensures err { OnErr result (state.new ≡ state.old) }
{
    let waiting = state.first_waiter(object, Side::Send);
    let given = received(receiving.with_ok, value, true);
    proceed_with(state, acting, receiving.target, receiving.taken, given)?;
    match waiting {
        Some(waiting) => {
            take_first(state.object_mut(object), Some(waiting.wait.value));
            let how = Wakening::Served(waiting.wait, Given::Nothing);
            state.wake(waiting.goroutine, how);
        }
        None => take_first(state.object_mut(object), None),
    }
    Ok(Outcome::Done)
}

// Receives from a channel with an empty buffer: the value of the first waiting sender, or the zero value if
// the channel is closed. Else the goroutine blocks.
#[inline(always)]
fn receive_unbuffered(
    alloc: Global,
    state: &mut State,
    acting: Acting,
    receiving: Receiving,
    object: ObjectId,
    zero: Option<Value>,
) -> Result<Outcome, Memory>
    requires stands { Stands acting.goroutine.0 acting.after state.old }
    requires empty { IsEmptyWith zero (channel_of (find object.0 state.old.objects)) }
    ensures ok { IfOk result (λ outcome. Comes outcome (λ a. receives_on a (went receiving.target receiving.taken [] a.frame) receiving.with_ok state.old object.0) acting.goroutine.0 acting.line state.old state.new) }
    ensures err { OnErr result (state.new ≡ state.old) }
{
    if let Some(waiting) = state.first_waiter(object, Side::Send) {
        let given = received(receiving.with_ok, waiting.wait.value, true);
        proceed_with(state, acting, receiving.target, receiving.taken, given)?;
        let how = Wakening::Served(waiting.wait, Given::Nothing);
        state.wake(waiting.goroutine, how);
        return Ok(Outcome::Done);
    }
    if let Some(zero) = zero {
        let given = received(receiving.with_ok, zero, false);
        proceed_with(state, acting, receiving.target, receiving.taken, given)?;
        return Ok(Outcome::Done);
    }
    let wait = Wait {
        object,
        side: Side::Receive,
        value: Value::Nil,
        target: None,
        with_ok: receiving.with_ok,
    };
    let waits = Waits::one(alloc, wait);
    block_at(
        state,
        acting,
        receiving.target,
        receiving.taken,
        WaitKind::Receive,
        waits,
    )?;
    Ok(Outcome::Blocked)
}

// The zero value of a closed channel, or `None` for an open one.
#[inline(always)]
fn zero_of_closed(channel: &Channel) -> Option<Value>
    ensures { result ≡ (if channel.now.closed then Some channel.now.zero else None) }
{
    if channel.closed {
        Some(channel.zero)
    } else {
        None
    }
}

/// Receives from a channel. The goroutine goes on with the values, or blocks.
#[inline(always)]
pub fn receive_on(
    alloc: Global,
    state: &mut State,
    acting: Acting,
    receiving: Receiving,
    object: ObjectId,
) -> Result<Outcome, Memory>
    requires { Stands acting.goroutine.0 acting.after state.old }
    ensures ok { IfOk result (λ outcome. Comes outcome (λ a. receives_on a (went receiving.target receiving.taken [] a.frame) receiving.with_ok state.old object.0) acting.goroutine.0 acting.line state.old state.new) }
    ensures err { OnErr result (state.new ≡ state.old) }
{
    let Some(channel) = channel_at(state, object) else {
        return Ok(Outcome::Stuck);
    };
    let zero = zero_of_closed(channel);
    match channel.buffer.first() {
        Some(value) => receive_buffered(state, acting, receiving, object, value),
        None => receive_unbuffered(alloc, state, acting, receiving, object, zero),
    }
}

/// Receives from the channel that is the last operand, for the goroutine whose turn it is. With `with_ok`
/// the goroutine also gets whether the value was sent. The value is the first of these:
///
/// - the first buffered value,
/// - the value of the first waiting sender,
/// - the zero value, if the channel is closed.
///
/// Without any of these the goroutine blocks. On nil it blocks for ever.
#[inline(always)]
pub fn receive(
    alloc: Global,
    state: &mut State,
    acting: Acting,
    with_ok: bool,
) -> Result<Outcome, Memory>
    requires { Stands acting.goroutine.0 acting.after state.old }
    ensures ok { IfOk result (λ outcome. Comes outcome (λ a. receives with_ok a state.old) acting.goroutine.0 acting.line state.old state.new) }
    ensures err { OnErr result (state.new ≡ state.old) }
{
    let Some(channel) = last_operand(state, acting.goroutine) else {
        return Ok(Outcome::Stuck);
    };
    match reference_in(channel) {
        Reference::To(object) => {
            let receiving = Receiving {
                target: acting.after,
                taken: 1,
                with_ok,
            };
            receive_on(alloc, state, acting, receiving, object)
        }
        Reference::Nil => {
            let waits = Waits::new(alloc);
            block_at(state, acting, acting.after, 1, WaitKind::ReceiveNil, waits)?;
            Ok(Outcome::Blocked)
        }
        Reference::Misfit => Ok(Outcome::Stuck),
    }
}
