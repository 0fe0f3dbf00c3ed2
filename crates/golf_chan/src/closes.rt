//! The close of a channel.
//!
//! It wakes all waiters of the channel (Go specification, "Close"). Receivers get the zero value, and
//! senders panic.

ghost use Rattle.std.specs.Prelude.{drop};
ghost use Rattle.golf_theory.specs.Maps.{find};
ghost use Rattle.golf_model.specs.Actors.{at_channel};
ghost use Rattle.golf_model.specs.Channels.{closes, closes_open};
ghost use Rattle.golf_state.specs.ActorChanges.{Stands};
ghost use Rattle.golf_state.specs.Outcomes.{Comes};

use crate::channel::{channel_at, close_it};
use golf_base::ObjectId;
use golf_data::PanicKind;
use golf_state::{Acting, Outcome, Reference, State, Waking, last_operand, proceed, reference_in};

// Closes a channel.
fn close_at(state: &mut State, acting: Acting, object: ObjectId) -> Outcome
    requires { Stands acting.goroutine.0 acting.after state.old }
    ensures { Comes result (λ a. at_channel (closes_open a (drop 1 a.frame.operands) object.0) (find object.0 state.old.objects)) acting.goroutine.0 acting.line state.old state.new }
{
    let Some(channel) = channel_at(state, object) else {
        return Outcome::Stuck;
    };
    if channel.closed {
        return Outcome::Panic(PanicKind::CloseClosed);
    }
    let zero = channel.zero;
    close_it(state.object_mut(object));
    proceed(state, acting, acting.after, 1);
    state.wake_all(object, Waking::Closing(zero));
    Outcome::Done
}

/// Closes the channel that is the last operand, for the goroutine whose turn it is. All goroutines that
/// wait to receive get the zero value. All that wait to send unwind. A close of nil or of a closed channel
/// panics. It takes no memory.
pub fn close(state: &mut State, acting: Acting) -> Outcome
    requires { Stands acting.goroutine.0 acting.after state.old }
    ensures { Comes result (λ a. closes a state.old) acting.goroutine.0 acting.line state.old state.new }
{
    let Some(channel) = last_operand(state, acting.goroutine) else {
        return Outcome::Stuck;
    };
    match reference_in(channel) {
        Reference::To(object) => close_at(state, acting, object),
        Reference::Nil => Outcome::Panic(PanicKind::CloseNil),
        Reference::Misfit => Outcome::Stuck,
    }
}
