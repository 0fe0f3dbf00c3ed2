//! The search over all schedules.
//!
//! It visits states breadth first. Each visited state has an ending, or has neither a dead goroutine nor an
//! object with a finaliser.

ghost use Rattle.std.specs.Prelude.{IfOk};
ghost use Rattle.golf_data.specs.Places.{HasPlaces};
ghost use Rattle.golf_explore.specs.Results.{HasSearchedOn, CountsVisits, IsExploring, Unless};
ghost use Rattle.golf_explore.specs.VisitLists.{AreVisits};

use crate::alike_hashes::alike_hash_of;
use crate::endings::{has_panic, has_sleep};
use crate::successors::expand;
use crate::visit_ranks::have_ranks;
use crate::visits::{Edge, Visit, Visits};
use golf_base::{List, Memory};
use golf_data::Code;
use golf_machine::start;
use std::alloc::Global;

/// The facts about all schedules.
#[derive(Clone, Copy)]
pub struct Visited {
    /// How many states were visited.
    pub states: u32,
    /// Whether some run ends by a panic or a fatal error.
    pub panics: bool,
    /// Whether some run ends with all goroutines asleep.
    pub sleeps: bool,
    /// Whether there is a number of turns after which each run has an ending. If false, nothing is claimed.
    pub ends: bool,
}

/// The result of a search.
#[derive(Drop)]
pub enum Explored {
    /// Each state that a schedule reaches was visited, or frame-local turns lead from it to a visited state or an alike
    /// one. None has a dead goroutine.
    AllVisited(Visited),
    /// The turns of these numbers reach a state with a dead goroutine.
    Leak(List<u64>),
    /// A schedule gives an object a finaliser. The search does not go over such codes.
    Finalisers,
    /// There are more states than the caller allowed, or a turn has too high a number.
    TooMany,
}

// The visit of the opening state.
fn opened(alloc: Global, code: &Code) -> Result<Visits, Memory>
    ensures { IfOk result (λ visits. AreVisits code.now visits.list) }
{
    let state = start(alloc, code)?;
    let hash = alike_hash_of(alloc, &state)?;
    let mut visits = Visits::new(alloc)?;
    visits.push(state, None, hash)?;
    Ok(visits)
}

// The facts about all visits, of which there are `count`. The last flag says whether they have ranks.
fn told(visits: &[Visit], count: u32, ends: bool) -> Visited
    ensures { CountsVisits visits.now count ends result }
{
    Visited {
        states: count,
        panics: has_panic(visits),
        sleeps: has_sleep(visits),
        ends,
    }
}

/// A search over all schedules that is under way.
///
/// It visits states breadth first, of alike ones one. After each turn frame-local turns are taken at once, and only the
/// state after them is visited. It ends at the first leak, whose schedule it makes shorter, as `Search` does.
///
/// Each turn is taken from a copy of the state of its visit. So a turn costs as much as the state is large, however
/// long the path to it is.
#[derive(Drop)]
pub struct Exploration {
    visits: Visits,
    // The edges of the first visits: of those whose turns were taken.
    edges: List<List<Edge>>,
    // The most visits.
    most: u32,
}

impl Exploration {
    /// Begins a search that visits at most `most` states. The only error is `Memory`.
    pub fn new(alloc: Global, code: &Code, most: u32) -> Result<Exploration, Memory>
        ensures { IfOk result (IsExploring code.now) }
    {
        let visits = opened(alloc, code)?;
        let edges = List::new(alloc);
        Ok(Exploration {
            visits,
            edges,
            most,
        })
    }

    /// Returns how many states were visited so far.
    pub fn states(&self) -> u64 {
        self.visits.list.len() as u64
    }

    /// Takes all turns of the next visit. Returns `None` if the search goes on: then one more visit is done.
    /// Else it returns the result. The only error is `Memory`.
    pub fn step(&mut self, alloc: Global, code: &Code) -> Result<Option<Explored>, Memory>
        requires places { HasPlaces code.now }
        requires exploring { IsExploring code.now self.old }
        ensures { IfOk result (Unless code.now (HasSearchedOn code.now self.old self.new)) }
    {
        let at = self.edges.len();
        if at > u32::MAX as usize {
            return Ok(Some(Explored::TooMany));
        }
        if at >= self.visits.list.len() {
            let ends = have_ranks(alloc, self.edges.as_slice())?;
            let told = told(self.visits.list.as_slice(), at as u32, ends);
            return Ok(Some(Explored::AllVisited(told)));
        }
        let most = self.most;
        expand(
            alloc,
            code,
            &mut self.visits,
            &mut self.edges,
            most,
            at as u32,
        )
    }
}
