//! Moves finalisers to the finaliser queue.
//!
//! An object that is not marked loses its finaliser, and joins the queue with its function.

ghost use Rattle.std.specs.Prelude.{◌≡◌, ◌+◌, IfOk, OnOk, OnErr, length, map};
ghost use Rattle.golf_theory.specs.Maps.{keys};
ghost use Rattle.golf_theory.specs.Membership.{is_in};
ghost use Rattle.golf_theory.specs.Flags.{kept};
ghost use Rattle.golf_model.specs.Collections.{queue_outside};
ghost use Rattle.golf_model.specs.Presence.{IsWhole};

use crate::keep_rule::is_set;
use golf_base::{List, Memory, ObjectId};
use golf_model::Marked;
use golf_state::State;
use std::alloc::Global;

// For each finaliser whether the flag of its object is set.
fn flagged(alloc: Global, state: &State, flags: &[bool]) -> Result<List<bool>, Memory>
    requires count { length flags.now ≡ length state.now.objects }
    requires whole { IsWhole state.now }
    ensures { IfOk result (λ stays. stays ≡ map (λ e. is_in e.0 (kept flags.now (keys state.now.objects))) state.now.finalisers) }
{
    let mut stays = List::new(alloc);
    let finalisers = state.finalisers(alloc)?;
    for finaliser in finalisers.as_slice() {
        let node = state.heap().rank(ObjectId(finaliser.0));
        stays.push(is_set(flags, node))?;
    }
    Ok(stays)
}

/// Moves the finaliser of each object that is not marked to the finaliser queue, in rising order of object
/// (package runtime, `SetFinalizer`). Returns how many it moved. On `Err`, which is `Memory`, the state is
/// unchanged.
pub fn queue_finalisers(
    alloc: Global,
    state: &mut State,
    retained: &Marked,
) -> Result<usize, Memory>
    requires count { length retained.now.flags ≡ length state.old.objects }
    requires whole { IsWhole state.old }
    ensures ok { OnOk result (state.new ≡ queue_outside (kept retained.now.flags (keys state.old.objects)) state.old) }
    ensures count { IfOk result (λ count. length state.new.queue ≡ length state.old.queue + count) }
    ensures err { OnErr result (state.new ≡ state.old) }
{
    let stays = flagged(alloc, state, retained.flags.as_slice())?;
    state.queue_finalisers(stays.as_slice())
}
