//! A search for a leak, a panic or a sleep by a rising number of preemptions.
//!
//! First come the schedules without a preemption, then those with one, and so on. The nearest states come first. After a
//! turn the same goroutine takes its frame-local turns. Which states are visited is claimed of none: what is found is
//! run once more from the opening state.

ghost use Rattle.std.specs.Prelude.{◌≡◌, ◌<◌, IfOk, IfSome};
ghost use Rattle.golf_data.specs.Places.{HasPlaces};
ghost use Rattle.golf_data.specs.declared.code.Code.{Code as CodeOf};
ghost use Rattle.golf_explore.specs.declared.sought.Sought.{Sought as SoughtOf};
ghost use Rattle.golf_explore.specs.Sane.{IsSane};
ghost use Rattle.golf_explore.specs.Sought.{Finds, sought_of};

use crate::attempts::{attempt, can_run};
use crate::choices::choices;
use crate::hashes::hash_of;
use crate::paths::{add_backwards, joined};
use crate::searched_visits::{Next, SaneVisits};
use crate::shorter_schedules::{shortened, shows};
use crate::sought::{Sought, is_found};
use crate::successors::number_of;
use crate::visits::{Came, Visit};
use golf_base::{GoroutineId, List, Memory};
use golf_data::Code;
use golf_state::State;
use std::alloc::Global;

/// The result of a search.
#[derive(Drop)]
pub enum SearchResult {
    /// The run of these turns reaches what is sought.
    Found(List<u64>),
    /// Nothing was found in this many states.
    Nothing(u64),
    /// A schedule gives an object a finaliser. The search does not go over such codes.
    Finalisers,
    /// There are more states than the caller allowed.
    TooMany,
}

/// What a search looks for, and how far it goes.
#[derive(Clone, Copy, Debug)]
pub struct Aim {
    pub sought: Sought,
    /// The most preemptions of a schedule.
    pub preemptions: u32,
    /// The most states that the search keeps.
    pub states: u32,
}

// A visit whose turns are to be looked at: those that need no preemption, or the others.
#[derive(Clone, Copy, Debug, PartialEq, Eq)]
struct Outlook {
    // The place of the visit.
    at: u32,
    preempting: bool,
}

// What a search has visited, and what it is still to look at.
#[derive(Drop)]
struct Frontier {
    visits: SaneVisits,
    // For each visit the goroutine that took the last turn. For the first one there is none.
    runners: List<Option<GoroutineId>>,
    // What is looked at with this many preemptions, and how much of it was looked at.
    here: List<Outlook>,
    looked: usize,
    // The places of the visits whose other turns come with one more preemption.
    later: List<u32>,
    // How many preemptions a schedule may have now.
    preemptions: u32,
}

// The hash of a state and of the goroutine that took the last turn.
fn hash_with(hash: u64, runner: Option<GoroutineId>) -> u64 {
    match runner {
        Some(g) => hash ^ (u64::from(g.0) << 1 | 1),
        None => hash,
    }
}

// Adds the number of each turn at a place.
fn add_turns(numbers: &mut List<u64>, place: u64, count: u64, choices: u64) -> Result<(), Memory> {
    for choice in 0..choices {
        if let Some(number) = number_of(place, choice, count) {
            numbers.push(number)?;
        }
    }
    Ok(())
}

// The numbers of the turns of a state that are looked at. If the goroutine that took the last turn can go on, these are
// its turns, or those of the others if it is to be preempted. Else they are the turns of all.
fn turns_of(
    alloc: Global,
    code: &Code,
    state: &State,
    last: Option<GoroutineId>,
    preempting: bool,
) -> Result<List<u64>, Memory> {
    let choices = choices(alloc, code, state)?;
    let count = choices.len() as u64;
    let goes_on = goes_on(state, last);
    let runnable = state.runnable();
    let mut numbers = List::new(alloc);
    for place in 0..runnable.count() {
        let is_last = last == Some(runnable.at(place));
        if !goes_on || is_last != preempting {
            let more = choices.as_slice().get(place).copied().unwrap_or(1);
            add_turns(&mut numbers, place as u64, count, more)?;
        }
    }
    Ok(numbers)
}

// Whether the goroutine that took the last turn can go on.
fn goes_on(state: &State, last: Option<GoroutineId>) -> bool {
    match last {
        Some(g) => can_run(state, g),
        None => false,
    }
}

// The turn that led to a visit, if it began in an earlier one.
fn came_to(visits: &[Visit], at: u32) -> Option<&Came>
    ensures { IfSome result (λ came. came.now.parent < at) }
{
    let came = visits.get(at as usize)?.came.as_ref()?;
    if came.parent < at { Some(came) } else { None }
}

// The numbers of the turns that reach a visit.
fn numbers_to(alloc: Global, visits: &[Visit], at: u32) -> Result<List<u64>, Memory> {
    let mut numbers = Vec::new(alloc);
    let mut here = at;
    while let Some(came) = came_to(visits, here) {
        add_backwards(&mut numbers, came.numbers.as_slice())?;
        here = came.parent;
    }
    numbers.reverse();
    Ok(List::from_vec(numbers))
}

impl Frontier {
    // The search before its first turn.
    fn new(alloc: Global, code: &Code) -> Result<Frontier, Memory> {
        let visits = SaneVisits::new(alloc, code)?;
        let mut runners = List::new(alloc);
        runners.push(None)?;
        let mut here = List::new(alloc);
        here.push(Outlook {
            at: 0,
            preempting: false,
        })?;
        Ok(Frontier {
            visits,
            runners,
            here,
            looked: 0,
            later: List::new(alloc),
            preemptions: 0,
        })
    }

    // Keeps a state without an ending, unless it was visited already. Turns of a visit led to it.
    fn keep(
        &mut self,
        alloc: Global,
        most: u32,
        next: Next,
        parent: u32,
    ) -> Result<Option<SearchResult>, Memory>
        requires { ∥ IsSane next.state ∥₁ }
        ensures { (code : CodeOf) (sought : SoughtOf) → IfOk result (λ searched. IfSome searched (Finds code sought)) }
    {
        let Next {
            state,
            runner,
            numbers,
        } = next;
        let hash = hash_with(hash_of(alloc, &state)?, Some(runner));
        if self.visits.has(alloc, &state, hash)? {
            return Ok(None);
        }
        let place = self.visits.list().len();
        if place >= most as usize {
            return Ok(Some(SearchResult::TooMany));
        }
        self.visits.push(state, Came { parent, numbers }, hash)?;
        self.runners.push(Some(runner))?;
        self.here.push(Outlook {
            at: place as u32,
            preempting: false,
        })?;
        Ok(None)
    }

    // Runs the turns of a visit once more, and then these. `None` if that run does not reach what is sought.
    fn confirm(
        &self,
        alloc: Global,
        code: &Code,
        sought: Sought,
        parent: u32,
        more: &[u64],
    ) -> Result<Option<SearchResult>, Memory>
        requires { HasPlaces code.now }
        ensures { IfOk result (λ searched. IfSome searched (Finds code.now sought)) }
    {
        let path = numbers_to(alloc, self.visits.list(), parent)?;
        let numbers = joined(alloc, path.as_slice(), more)?;
        if shows(alloc, code, sought, numbers.as_slice(), u32::MAX)? {
            return Ok(Some(SearchResult::Found(numbers)));
        }
        Ok(None)
    }

    // Looks at the state after a turn of a visit.
    fn visit(
        &mut self,
        alloc: Global,
        code: &Code,
        aim: Aim,
        parent: u32,
        number: u64,
    ) -> Result<Option<SearchResult>, Memory>
        requires { HasPlaces code.now }
        ensures { IfOk result (λ searched. IfSome searched (Finds code.now aim.sought)) }
    {
        let Some(next) = self.visits.after_turn(alloc, code, parent, number)? else {
            return Ok(None);
        };
        if next.state.has_finaliser() {
            return Ok(Some(SearchResult::Finalisers));
        }
        if is_found(alloc, aim.sought, &next.state)? {
            return self.confirm(alloc, code, aim.sought, parent, next.numbers.as_slice());
        }
        if next.state.ending().is_some() {
            return Ok(None);
        }
        self.keep(alloc, aim.states, next, parent)
    }

    // Looks at turns of a visit.
    fn expand(
        &mut self,
        alloc: Global,
        code: &Code,
        aim: Aim,
        outlook: Outlook,
    ) -> Result<Option<SearchResult>, Memory>
        requires { HasPlaces code.now }
        ensures { IfOk result (λ searched. IfSome searched (Finds code.now aim.sought)) }
    {
        let Outlook { at, preempting } = outlook;
        let Some(visit) = self.visits.list().get(at as usize) else {
            return Ok(None);
        };
        let last = self
            .runners
            .as_slice()
            .get(at as usize)
            .copied()
            .unwrap_or(None);
        let turns = turns_of(alloc, code, &visit.state, last, preempting)?;
        if !preempting && goes_on(&visit.state, last) {
            self.later.push(at)?;
        }
        for number in turns.as_slice() {
            if let Some(searched) = self.visit(alloc, code, aim, at, *number)? {
                return Ok(Some(searched));
            }
        }
        Ok(None)
    }

    // Goes on with one more preemption: of the goroutines that could go on. If there are none, or schedules have no more
    // preemptions, nothing was found.
    fn rise(&mut self, most: u32) -> Result<Option<SearchResult>, Memory>
        ensures { (code : CodeOf) (sought : SoughtOf) → IfOk result (λ searched. IfSome searched (Finds code sought)) }
    {
        if self.later.is_empty() || self.preemptions >= most {
            let states = self.visits.list().len() as u64;
            return Ok(Some(SearchResult::Nothing(states)));
        }
        self.preemptions = self.preemptions.saturating_add(1);
        self.here.clear();
        self.looked = 0;
        for at in self.later.as_slice() {
            self.here.push(Outlook {
                at: *at,
                preempting: true,
            })?;
        }
        self.later.clear();
        Ok(None)
    }

    // Looks at turns of the next visit. If there is none, it goes on with one more preemption.
    fn step(&mut self, alloc: Global, code: &Code, aim: Aim) -> Result<Option<SearchResult>, Memory>
        requires { HasPlaces code.now }
        ensures { IfOk result (λ searched. IfSome searched (Finds code.now aim.sought)) }
    {
        let Some(outlook) = self.here.as_slice().get(self.looked).copied() else {
            return self.rise(aim.preemptions);
        };
        self.looked = self.looked.saturating_add(1);
        self.expand(alloc, code, aim, outlook)
    }
}

/// A search by a rising number of preemptions that is under way. A turn is a preemption if the goroutine of the last
/// turn can go on and another one takes it.
#[derive(Drop)]
pub struct Search {
    aim: Aim,
    frontier: Frontier,
}

impl Search {
    /// Begins a search. The only error is `Memory`.
    pub fn new(alloc: Global, code: &Code, aim: Aim) -> Result<Search, Memory>
        ensures { IfOk result (λ search. sought_of search ≡ aim.sought) }
    {
        let frontier = Frontier::new(alloc, code)?;
        Ok(Search { aim, frontier })
    }

    /// Returns how many states are kept so far.
    pub fn states(&self) -> u64 {
        self.frontier.visits.list().len() as u64
    }

    /// Looks at turns of the next state. Returns `None` if the search goes on, and its result at its end. The only error
    /// is `Memory`.
    ///
    /// If a schedule that is found has at most 4,096 turns, it is made shorter: each turn is tried, the last ones first.
    /// It is left out if the others reach what is sought, with no more preemptions.
    pub fn step(&mut self, alloc: Global, code: &Code) -> Result<Option<SearchResult>, Memory>
        requires { HasPlaces code.now }
        ensures found { IfOk result (λ searched. IfSome searched (Finds code.now (sought_of self.old))) }
        ensures same { sought_of self.new ≡ sought_of self.old }
    {
        match self.frontier.step(alloc, code, self.aim)? {
            Some(SearchResult::Found(numbers)) => {
                let fewer = shortened(alloc, code, self.aim.sought, numbers)?;
                Ok(Some(SearchResult::Found(fewer)))
            }
            searched => Ok(searched),
        }
    }
}
