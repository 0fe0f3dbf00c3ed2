//! Pairs of goroutines of two states, by the places of their numbers in rising order.
//!
//! Goroutines with equal hashes go together: those that are blocked in the order of their tickets, those that run in the
//! order of their numbers. Nothing is claimed of these pairs. `alike_states` looks at each.

ghost use Rattle.std.specs.Prelude.{◌≡◌};
ghost use Rattle.golf_model.specs.Waiters.{ticket_of};

use crate::alike_hashes::entry_hash;
use golf_base::{GoroutineId, List, Memory};
use golf_data::{Goroutine, Mode};
use golf_state::State;
use std::alloc::Global;

/// The places of partners.
#[derive(Drop)]
pub(crate) struct Pairing {
    /// For each goroutine of the first state the place of its partner in the second.
    pub(crate) to: List<usize>,
    /// For each goroutine of the second state the place of its partner in the first.
    pub(crate) from: List<usize>,
}

// A goroutine as it is paired.
#[derive(Clone, Copy, PartialEq, Eq, PartialOrd, Ord)]
struct Standing {
    hash: u64,
    ticket: u64,
    place: usize,
}

/// Returns the ticket of a goroutine, or 0 if it runs.
pub(crate) fn ticket_of(goroutine: &Goroutine) -> u64
    ensures { result ≡ ticket_of goroutine.now.mode }
{
    match &goroutine.mode {
        Mode::Running => 0,
        Mode::Blocked { ticket, .. } => *ticket,
    }
}

// The goroutines of these numbers in the order in which they are paired.
fn standings_of(
    alloc: Global,
    state: &State,
    goroutines: &[GoroutineId],
) -> Result<Vec<Standing>, Memory> {
    let mut standings = Vec::new(alloc);
    for place in 0..goroutines.len() {
        let g = goroutines[place];
        if let Some(goroutine) = state.goroutine(g) {
            standings.push(Standing {
                hash: entry_hash(g, goroutine),
                ticket: ticket_of(goroutine),
                place,
            })?;
        }
    }
    standings.sort()?;
    Ok(standings)
}

impl Pairing {
    // Makes two goroutines partners.
    fn join(&mut self, one: usize, twin: usize) {
        if one < self.to.len() && twin < self.from.len() {
            self.to.set(one, twin);
            self.from.set(twin, one);
        }
    }

    /// Returns a partner for each goroutine of two states, if these are all numbers and there are as many of both.
    pub(crate) fn new(
        alloc: Global,
        state: &State,
        goroutines: &[GoroutineId],
        other: &State,
        others: &[GoroutineId],
    ) -> Result<Pairing, Memory> {
        let ones = standings_of(alloc, state, goroutines)?;
        let twins = standings_of(alloc, other, others)?;
        let mut pairing = Pairing {
            to: List::new(alloc),
            from: List::new(alloc),
        };
        pairing.to.extend_with(goroutines.len(), 0)?;
        pairing.from.extend_with(others.len(), 0)?;
        for (one, twin) in ones.iter().zip(twins.iter()) {
            pairing.join(one.place, twin.place);
        }
        Ok(pairing)
    }
}
