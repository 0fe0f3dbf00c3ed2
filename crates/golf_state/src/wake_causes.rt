//! How each goroutine goes on when all waiters of an object are woken.
//!
//! Three events wake all waiters of an object: the close of a channel, a wait group at 0, and a reader and
//! writer mutex that goes to its readers.

ghost use Rattle.std.specs.Prelude.{◌≡◌};
ghost use Rattle.golf_model.specs.Waiters.{wait_on};
ghost use Rattle.golf_model.specs.Wakes.{received, is_below};
ghost use Rattle.golf_state.specs.Looked.{values_of};
ghost use Rattle.golf_state.specs.Woken.{given_for, wakening_by_close, released_where, wakening_of};

use crate::frames::{Given, Wakening, waken};
use crate::waiters::{leave_queues, wait_for};
use golf_base::{GoroutineId, ObjectId};
use golf_data::{Fault, Goroutine, Mode, PanicKind, Side, Value, Wait};
use golf_state_queues::Queues;

/// The reason for which all waiters of an object are woken.
#[derive(Clone, Copy, Debug, PartialEq, Eq)]
pub enum Waking {
    /// A channel was closed. This is its zero value.
    Closing(Value),
    /// The counter of a wait group is 0.
    AtZero,
    /// A reader and writer mutex goes to its readers: to those with a ticket below this one, or to all.
    ToReaders(Option<u64>),
}

/// Returns the values that a receive gives: the value, and whether it was sent if `with_ok` asks for that.
#[inline(always)]
pub fn received(with_ok: bool, value: Value, sent: bool) -> Given
    ensures values { values_of result ≡ received with_ok value sent }
    ensures given { result ≡ given_for with_ok value sent }
{
    if with_ok {
        Given::Two(value, sent)
    } else {
        Given::One(value)
    }
}

// The first wait on the object.
fn wait_on(waits: &[Wait], object: ObjectId) -> Option<Wait>
    ensures { result ≡ wait_on object.0 waits.now }
{
    for wait in waits {
        if wait.object.0 == object.0 {
            return Some(*wait);
        }
    }
    None
}

// How a goroutine that blocked on this line goes on if its channel is closed: a receiver gets the zero
// value, and a sender unwinds.
fn wakening_by_close(zero: Value, wait: Wait, line: u32) -> Option<Wakening>
    ensures { result ≡ wakening_by_close zero wait line wait.side }
{
    let given = received(wait.with_ok, zero, false);
    let kind = PanicKind::SendClosed;
    match wait.side {
        Side::Receive => Some(Wakening::Served(wait, given)),
        Side::Send => Some(Wakening::Unwound(Fault { kind, line })),
        Side::Lock => None,
        Side::Group => None,
        Side::Read => None,
        Side::Write => None,
        Side::Cond => None,
    }
}

// Whether the ticket is below this one, if there is one.
fn is_below(below: Option<u64>, ticket: u64) -> bool
    ensures { result ≡ is_below below ticket }
{
    match below {
        Some(bound) => ticket < bound,
        None => true,
    }
}

// Goes on if there is a wait, and else not at all.
fn released_by(wait: Option<Wait>) -> Option<Wakening>
    ensures { result ≡ released_where wait }
{
    match wait {
        Some(_) => Some(Wakening::Released),
        None => None,
    }
}

/// Returns how a goroutine in this mode goes on when all waiters of the object are woken, or `None` if it
/// is not woken.
pub fn wakening_of(mode: &Mode, object: ObjectId, how: Waking) -> Option<Wakening>
    ensures { result ≡ wakening_of mode.now object.0 how }
{
    match mode {
        Mode::Running => None,
        Mode::Blocked {
            line,
            waits,
            ticket,
            ..
        } => match how {
            Waking::Closing(zero) => {
                let wait = wait_on(waits.as_slice(), object)?;
                wakening_by_close(zero, wait, *line)
            }
            Waking::AtZero => released_by(wait_for(waits.as_slice(), object, Side::Group)),
            Waking::ToReaders(below) => {
                if is_below(below, *ticket) {
                    released_by(wait_for(waits.as_slice(), object, Side::Read))
                } else {
                    None
                }
            }
        },
    }
}
