//! Whether a state has a dead goroutine.
//!
//! It marks the live graph, as a collection does, and looks for a sleeper that is not awake.

ghost use Rattle.std.specs.Prelude.{◌≡◌, ◌↔◌, true, false, [], IfOk, IsTrue};
ghost use Rattle.golf_model.specs.LiveSet.{dead};
ghost use Rattle.golf_model.specs.Presence.{IsWhole};
ghost use Rattle.golf_theory.specs.Membership.{In};

use golf_base::{Memory, OpenGate};
use golf_mark::mark_alone;
use golf_snapshot::live_graph;
use golf_state::State;
use std::alloc::Global;

// Whether a flag is false.
fn has_unset(flags: &[bool]) -> bool
    ensures { IsTrue result ↔ In false flags.now }
{
    for flag in flags {
        if !*flag {
            return true;
        }
    }
    false
}

/// Returns whether a goroutine is dead. The marking is that of a collection, in one thread.
pub(crate) fn has_dead(alloc: Global, state: &State) -> Result<bool, Memory>
    requires { IsWhole state.now }
    ensures dies { IfOk result (λ dies. dies ≡ true → dead state.now ≡ [] → ⊥) }
    ensures lives { IfOk result (λ dies. dies ≡ false → dead state.now ≡ []) }
{
    let graph = live_graph(alloc, state)?;
    let marked = mark_alone(alloc, &graph, &OpenGate)?;
    Ok(has_unset(marked.awake.as_slice()))
}
