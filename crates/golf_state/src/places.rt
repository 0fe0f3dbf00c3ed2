//! Goroutine 0, which runs finalisers.
//!
//! It is always there, and never ends. It cannot run while it has no frame and the finaliser queue is
//! empty.

ghost use Rattle.std.specs.Prelude.{◌≡◌, ◌<◌, ◌&&◌, not, length, slice_get, Some};
ghost use Rattle.golf_theory.specs.Maps.{Rises};
ghost use Rattle.golf_model.specs.Views.{goroutine_view};
ghost use Rattle.golf_model.specs.State.{not_empty};
ghost use Rattle.golf_state_goroutines.specs.Places.{is_idle, starts_idle, plain_entries};

use golf_base::GoroutineId;
use golf_data::{Goroutine, Queued};
use golf_state_goroutines::{Roster, is_running};

// Whether a goroutine runs and has no frame.
#[inline(always)]
fn is_idle(goroutine: &Goroutine) -> bool
    ensures { result ≡ is_idle (goroutine_view goroutine.now) }
{
    is_running(&goroutine.mode) && goroutine.frames.is_empty()
}

/// Returns whether goroutine 0 is there, runs and has no frame.
#[inline(always)]
pub fn starts_idle(roster: &Roster) -> bool
    requires { Rises 0 (plain_entries roster.now.places) }
    ensures { result ≡ starts_idle (plain_entries roster.now.places) }
{
    match roster.get(0) {
        Some(goroutine) => is_idle(goroutine),
        None => false,
    }
}

/// Returns the goroutine at this place among those that run.
#[inline(always)]
pub fn running_at(roster: &Roster, place: usize) -> GoroutineId
    requires { place < length roster.now.running }
    ensures { slice_get roster.now.running place ≡ Some result.0 }
{
    match roster.running_at(place) {
        Some(g) => g,
        None => unreachable!(),
    }
}

/// Returns whether goroutine 0 has nothing to do: it runs without a frame, and the finaliser queue is
/// empty.
#[inline(always)]
pub fn has_no_call(queue: &[Queued], roster: &Roster) -> bool
    requires { Rises 0 (plain_entries roster.now.places) }
    ensures { result ≡ (not (not_empty queue.now) && starts_idle (plain_entries roster.now.places)) }
{
    match queue {
        [] => starts_idle(roster),
        [..] => false,
    }
}
