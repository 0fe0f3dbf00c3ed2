//! The visits of a search by preemptions, and the turns from them.
//!
//! After a turn its goroutine takes its frame-local turns. Those of other goroutines are not taken: in the schedule that
//! is shown they would be preemptions.

ghost use Rattle.std.specs.Prelude.{◌≡◌, None, IfOk, IfSome, OnOk};
ghost use Rattle.golf_theory.specs.Membership.{Every};
ghost use Rattle.golf_data.specs.Places.{HasPlaces};
ghost use Rattle.golf_model.specs.State.{ending};
ghost use Rattle.golf_explore.specs.Sane.{IsSane};
ghost use Rattle.golf_explore.specs.VisitLists.{states};

use crate::attempts::place_of;
use crate::frame_local_turns::{MOST_ON_END, is_turn_local};
use crate::hashes::hash_of;
use crate::turns::take;
use crate::visits::{Came, Visit, Visits};
use golf_base::{GoroutineId, List, Memory};
use golf_data::Code;
use golf_machine::{start, whose_turn};
use golf_state::State;
use std::alloc::Global;

/// The visits of a search by preemptions. The numbers in each of their states are in order, and every reference is to an
/// object that is there.
#[derive(Drop)]
pub(crate) struct SaneVisits {
    visits: Visits,
    ghost sane: { ∥ Every IsSane (states visits.list) ∥₁ },
}

/// The state after a turn and the frame-local ones after it.
#[derive(Drop)]
pub(crate) struct Next {
    pub(crate) state: State,
    /// The goroutine that took the turns.
    pub(crate) runner: GoroutineId,
    /// The numbers of the turns.
    pub(crate) numbers: List<u64>,
}

// Takes frame-local turns of a goroutine that can run, at most `MOST_ON_END`. Adds their numbers.
fn settle_alone(
    alloc: Global,
    code: &Code,
    state: &mut State,
    g: GoroutineId,
    numbers: &mut List<u64>,
) -> Result<(), Memory>
    requires places { HasPlaces code.now }
    requires sane { ∥ IsSane state.old ∥₁ }
    ensures { OnOk result (∥ IsSane state.new ∥₁) }
{
    let Some(place) = place_of(state, g) else {
        return Ok(());
    };
    for _ in 0..MOST_ON_END {
        if state.ending().is_some() || !is_turn_local(code, state, place as u64) {
            return Ok(());
        }
        take(alloc, code, state, place as u64)?;
        numbers.push(place as u64)?;
    }
    Ok(())
}

impl SaneVisits {
    /// Returns the visit of the opening state alone.
    pub(crate) fn new(alloc: Global, code: &Code) -> Result<SaneVisits, Memory> {
        let state = start(alloc, code)?;
        let hash = hash_of(alloc, &state)?;
        let mut visits = Visits::new(alloc)?;
        visits.push(state, None, hash)?;
        Ok(SaneVisits { visits })
    }

    /// Returns the visits.
    pub(crate) fn list(&self) -> &[Visit] {
        self.visits.list.as_slice()
    }

    /// Returns whether the state of this hash was visited.
    pub(crate) fn has(&self, alloc: Global, state: &State, hash: u64) -> Result<bool, Memory> {
        Ok(self.visits.find(alloc, state, hash)?.is_some())
    }

    /// Adds a visit at the end. There are fewer than 2^32 before.
    pub(crate) fn push(&mut self, state: State, came: Came, hash: u64) -> Result<(), Memory>
        requires { ∥ IsSane state ∥₁ }
    {
        if self.visits.list.len() as u64 >= 1 << 32 {
            return Err(Memory);
        }
        self.visits.push(state, Some(came), hash)
    }

    /// Takes a turn of the visit at this place from a copy of its state, and then frame-local turns of the same
    /// goroutine. Returns `None` if there is no such visit, or if its state has an ending.
    pub(crate) fn after_turn(
        &self,
        alloc: Global,
        code: &Code,
        at: u32,
        number: u64,
    ) -> Result<Option<Next>, Memory>
        requires { HasPlaces code.now }
        ensures { IfOk result (λ next. IfSome next (λ n. ∥ IsSane n.state ∥₁)) }
    {
        if at as usize >= self.visits.list.len() {
            return Ok(None);
        }
        let mut state = self.visits.copy_of(alloc, at)?;
        if state.ending().is_some() {
            return Ok(None);
        }
        let runner = whose_turn(&state, number);
        let mut numbers = List::new(alloc);
        numbers.push(number)?;
        take(alloc, code, &mut state, number)?;
        settle_alone(alloc, code, &mut state, runner, &mut numbers)?;
        Ok(Some(Next {
            state,
            runner,
            numbers,
        }))
    }
}
