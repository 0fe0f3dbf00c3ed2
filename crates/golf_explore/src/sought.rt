//! What a search looks for.

ghost use Rattle.std.specs.Prelude.{◌≡◌, true, IfOk};
ghost use Rattle.golf_model.specs.Presence.{IsWhole};
ghost use Rattle.golf_explore.specs.declared.sought.Sought.{Sought as SoughtOf};
ghost use Rattle.golf_explore.specs.Sought.{IsFound};

use crate::dead_goroutines::has_dead;
use crate::endings::{panics, sleeps};
use golf_base::Memory;
use golf_state::State;
use std::alloc::Global;

/// What a search looks for: a state that a schedule reaches.
#[derive(Clone, Copy, Debug, PartialEq, Eq)]
pub enum Sought {
    /// A state without an ending that has a dead goroutine.
    Leak,
    /// An ending by a panic or a fatal error.
    Panic,
    /// An ending with all goroutines asleep.
    Asleep,
}

// Whether the state has no ending, and has a dead goroutine.
fn is_leak(alloc: Global, state: &State) -> Result<bool, Memory>
    requires { IsWhole state.now }
    ensures { IfOk result (λ found. found ≡ true → IsFound SoughtOf.Leak state.now) }
{
    if state.ending().is_some() {
        return Ok(false);
    }
    has_dead(alloc, state)
}

/// Returns whether the state is one that is sought.
pub(crate) fn is_found(alloc: Global, sought: Sought, state: &State) -> Result<bool, Memory>
    requires { IsWhole state.now }
    ensures { IfOk result (λ found. found ≡ true → IsFound sought state.now) }
{
    match sought {
        Sought::Leak => is_leak(alloc, state),
        Sought::Panic => Ok(panics(state)),
        Sought::Asleep => Ok(sleeps(state)),
    }
}
