//! Whether two states are the same. Their output is not compared.
//!
//! The comparison makes lists of goroutines and finalisers, and gives that memory back at the end.

ghost use Rattle.std.specs.Prelude.{◌≡◌, ◌↔◌, [], map, option_map, IsTrue, IfOk};
ghost use Rattle.golf_theory.specs.Maps.{find, keys, IsRising};
ghost use Rattle.golf_model.specs.Views.{goroutine_view};

use crate::state::State;
use golf_base::{GoroutineId, Memory};
use golf_data::{Ending, Goroutine, Queued};
use golf_state_equality::{is_same_goroutine, is_same_heap, same_values};
use std::alloc::Global;

// Whether both are there and are the same, or neither is there.
fn is_same_found(goroutine: Option<&Goroutine>, other: Option<&Goroutine>) -> bool
    ensures { IsTrue result ↔ (option_map (λ r. goroutine_view r.now) goroutine.entry ≡ option_map (λ r. goroutine_view r.now) other.entry) }
{
    match (goroutine, other) {
        (Some(one), Some(twin)) => is_same_goroutine(one, twin),
        (None, None) => true,
        (Some(_), None) => false,
        (None, Some(_)) => false,
    }
}

// Whether both numbers are the same, and so are the goroutines of these numbers.
fn is_same_entry(state: &State, g: GoroutineId, other: &State, twin: GoroutineId) -> bool
    ensures { IsTrue result ↔ ((g.0 ≡ twin.0) × (find g.0 state.now.goroutines ≡ find twin.0 other.now.goroutines)) }
{
    g == twin && is_same_found(state.goroutine(g), other.goroutine(twin))
}

// Whether both have the same goroutines, if these are their numbers.
fn same_numbered(
    state: &State,
    numbers: &[GoroutineId],
    other: &State,
    others: &[GoroutineId],
) -> bool
    requires numbers { map (λ g. g.0) numbers.now ≡ keys state.now.goroutines }
    requires others { map (λ g. g.0) others.now ≡ keys other.now.goroutines }
    requires rises { IsRising state.now.goroutines }
    requires other_rises { IsRising other.now.goroutines }
    ensures { IsTrue result ↔ (state.now.goroutines ≡ other.now.goroutines) }
{
    if numbers.len() != others.len() {
        return false;
    }
    for at in 0..numbers.len() {
        if !is_same_entry(state, numbers[at], other, others[at]) {
            return false;
        }
    }
    true
}

// Whether both have the same goroutines.
fn same_goroutines(state: &State, other: &State, alloc: Global) -> Result<bool, Memory>
    ensures { IfOk result (λ same. IsTrue same ↔ (state.now.goroutines ≡ other.now.goroutines)) }
{
    let numbers = state.goroutines(alloc)?;
    let others = other.goroutines(alloc)?;
    Ok(same_numbered(state, numbers.as_slice(), other, others.as_slice()))
}

// Whether both have the same pairs in the same order.
fn same_pairs(pairs: &[(u32, u32)], others: &[(u32, u32)]) -> bool
    ensures { IsTrue result ↔ (pairs.now ≡ others.now) }
{
    pairs == others
}

// Whether both have the same finalisers.
fn same_finalisers(state: &State, other: &State, alloc: Global) -> Result<bool, Memory>
    ensures { IfOk result (λ same. IsTrue same ↔ (state.now.finalisers ≡ other.now.finalisers)) }
{
    let finalisers = state.finalisers(alloc)?;
    let others = other.finalisers(alloc)?;
    Ok(same_pairs(finalisers.as_slice(), others.as_slice()))
}

// Whether both queues have the same entries in the same order.
fn same_queues(queue: &[Queued], other: &[Queued]) -> bool
    ensures { IsTrue result ↔ (queue.now ≡ other.now) }
{
    queue == other
}

// Whether both have recorded the same ending, or neither has recorded one.
fn is_same_ending(ending: Option<Ending>, other: Option<Ending>) -> bool
    ensures { IsTrue result ↔ (ending ≡ other) }
{
    ending == other
}

// Whether both are the same, except for goroutines, finalisers and output.
fn is_same_besides(state: &State, other: &State) -> bool
    ensures { IsTrue result ↔ (record state.now { goroutines = []; finalisers = []; output = [] } ≡ record other.now { goroutines = []; finalisers = []; output = [] }) }
{
    state.next_goroutine() == other.next_goroutine()
        && state.next_ticket() == other.next_ticket()
        && is_same_ending(state.recorded(), other.recorded())
        && same_queues(state.queue(), other.queue())
        && same_values(state.globals(), other.globals())
        && is_same_heap(state.heap(), other.heap())
}

impl State {
    /// Returns whether both states are equal except for their output.
    ///
    /// It takes memory for lists of goroutines and finalisers, unless the states differ in another part.
    /// Without that memory the answer is `Memory`.
    pub fn is(&self, other: &State, alloc: Global) -> Result<bool, Memory>
        ensures { IfOk result (λ same. IsTrue same ↔ (record self.now { output = [] } ≡ record other.now { output = [] })) }
    {
        Ok(
            is_same_besides(self, other)
                && same_goroutines(self, other, alloc)?
                && same_finalisers(self, other, alloc)?,
        )
    }
}
