//! When two goroutines are the same: their frames, their modes and the lines where they were started.
//!
//! The room of a frame for further operands is not compared.

ghost use Rattle.std.specs.Prelude.{◌≡◌, ◌↔◌, IsTrue};
ghost use Rattle.golf_model.specs.Views.{goroutine_view};

use crate::frames::same_frames;
use golf_data::{Goroutine, Mode, Wait, WaitKind};

// Whether both kinds of waiting are the same.
fn is_same_kind(kind: WaitKind, other: WaitKind) -> bool
    ensures { IsTrue result ↔ (kind ≡ other) }
{
    kind == other
}

// Whether both have the same waits in the same order.
fn same_waits(waits: &[Wait], others: &[Wait]) -> bool
    ensures { IsTrue result ↔ (waits.now ≡ others.now) }
{
    waits == others
}

/// Returns whether both run, or both are blocked in the same way, with the same ticket.
pub fn is_same_mode(mode: &Mode, other: &Mode) -> bool
    ensures { IsTrue result ↔ (mode.now ≡ other.now) }
{
    match (mode, other) {
        (Mode::Running, Mode::Running) => true,
        (
            Mode::Blocked {
                kind,
                line,
                waits,
                ticket,
            },
            Mode::Blocked {
                kind: other_kind,
                line: other_line,
                waits: others,
                ticket: other_ticket,
            },
        ) => {
            ticket == other_ticket
                && line == other_line
                && is_same_kind(*kind, *other_kind)
                && same_waits(waits.as_slice(), others.as_slice())
        }
        (Mode::Running, Mode::Blocked { .. }) => false,
        (Mode::Blocked { .. }, Mode::Running) => false,
    }
}

/// Returns whether both goroutines are the same.
pub fn is_same_goroutine(goroutine: &Goroutine, other: &Goroutine) -> bool
    ensures { IsTrue result ↔ (goroutine_view goroutine.now ≡ goroutine_view other.now) }
{
    goroutine.started == other.started
        && is_same_mode(&goroutine.mode, &other.mode)
        && same_frames(goroutine.frames.as_slice(), other.frames.as_slice())
}
