//! A send. On `Err` the state is unchanged.
//!
//! A waiting receiver gets the value at once. Without one the value joins the buffer, if it has room (Go
//! specification, "Send statements").

ghost use Rattle.std.specs.Prelude.{◌≡◌, [], IfOk, OnErr};
ghost use Rattle.golf_model.specs.Channels.{sends, sends_on};
ghost use Rattle.golf_state.specs.ActorChanges.{Stands};
ghost use Rattle.golf_state.specs.FrameChanges.{went};
ghost use Rattle.golf_state.specs.Outcomes.{Comes};

use crate::channel::{buffer, channel_at};
use golf_base::{Memory, ObjectId};
use golf_data::{PanicKind, Side, Value, Wait, WaitKind, Waits};
use golf_state::{
    Acting, Outcome, Reference, State, Wakening, block_at, last_operands, proceed, received,
    reference_in,
};
use std::alloc::Global;

/// Sends this value on a channel. The goroutine goes on at `target`, without its last `taken` operands, or
/// blocks.
#[inline(always)]
pub fn send_on(
    alloc: Global,
    state: &mut State,
    acting: Acting,
    target: u32,
    taken: usize,
    object: ObjectId,
    value: Value,
) -> Result<Outcome, Memory>
    requires { Stands acting.goroutine.0 acting.after state.old }
    ensures ok { IfOk result (λ outcome. Comes outcome (λ a. sends_on a (went target taken [] a.frame) value state.old object.0) acting.goroutine.0 acting.line state.old state.new) }
    ensures err { OnErr result (state.new ≡ state.old) }
{
    let Some(channel) = channel_at(state, object) else {
        return Ok(Outcome::Stuck);
    };
    if channel.closed {
        return Ok(Outcome::Panic(PanicKind::SendClosed));
    }
    let has_room = channel.buffer.len() < channel.capacity as usize;
    if let Some(waiting) = state.first_waiter(object, Side::Receive) {
        let given = received(waiting.wait.with_ok, value, true);
        proceed(state, acting, target, taken);
        state.wake(waiting.goroutine, Wakening::Served(waiting.wait, given));
        return Ok(Outcome::Done);
    }
    if has_room {
        buffer(state.object_mut(object), value)?;
        proceed(state, acting, target, taken);
        return Ok(Outcome::Done);
    }
    let wait = Wait {
        object,
        side: Side::Send,
        value,
        target: None,
        with_ok: false,
    };
    let waits = Waits::one(alloc, wait);
    block_at(state, acting, target, taken, WaitKind::Send, waits)?;
    Ok(Outcome::Blocked)
}

/// Sends the last operand on the channel before it, for the goroutine whose turn it is. The first waiting
/// receiver gets the value. If no goroutine waits to receive, the value joins the buffer, if that has room.
/// Else the goroutine blocks. On nil it blocks for ever. A send on a closed channel panics.
#[inline(always)]
pub fn send(alloc: Global, state: &mut State, acting: Acting) -> Result<Outcome, Memory>
    requires { Stands acting.goroutine.0 acting.after state.old }
    ensures ok { IfOk result (λ outcome. Comes outcome (λ a. sends a state.old) acting.goroutine.0 acting.line state.old state.new) }
    ensures err { OnErr result (state.new ≡ state.old) }
{
    let Some((channel, value)) = last_operands(state, acting.goroutine) else {
        return Ok(Outcome::Stuck);
    };
    match reference_in(channel) {
        Reference::To(object) => send_on(alloc, state, acting, acting.after, 2, object, value),
        Reference::Nil => {
            let waits = Waits::new(alloc);
            block_at(state, acting, acting.after, 2, WaitKind::SendNil, waits)?;
            Ok(Outcome::Blocked)
        }
        Reference::Misfit => Ok(Outcome::Stuck),
    }
}
