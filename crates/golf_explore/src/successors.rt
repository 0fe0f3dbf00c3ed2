//! Visits the states after the turns of one visit.
//!
//! Each turn of a visit is taken from a copy of its state. Frame-local turns follow a turn.

ghost use Rattle.std.specs.Prelude.{◌≡◌, ◌<◌, ◌≤◌, ◌+◌, ◌*◌, ◌++◌, length, IfOk, IfSome, Some, None};
ghost use Rattle.std.specs.Prelude.{slice_get, ℕ};
ghost use Rattle.golf_data.specs.Places.{HasPlaces};
ghost use Rattle.golf_model.specs.State.{State, ending, start as start_of};
ghost use Rattle.golf_model.specs.Presence.{IsWhole};
ghost use Rattle.golf_explore_laws.specs.After.{after, after_all};
ghost use Rattle.golf_explore.specs.VisitLists.{states, GoesPlainly, IsWell, IsTrail, AreVisits, HasAdded};
ghost use Rattle.golf_explore.specs.VisitLists.{HasAddedTurns};
ghost use Rattle.golf_explore.specs.VisitLists.{HasExpanded, HasVisited, HasChoices, IsPathFor};
ghost use Rattle.golf_explore.specs.Results.{Unless};

use crate::alike_hashes::alike_hash_of;
use crate::choices::choices;
use crate::dead_goroutines::has_dead;
use crate::frame_local_turns::take_and_settle;
use crate::full_search::Explored;
use crate::paths::{joined, path_to};
use crate::shorter_schedules::shortened;
use crate::sought::Sought;
use crate::visits::{Came, Edge, Visits};
use golf_base::{List, Memory};
use golf_data::Code;
use golf_state::State;
use std::alloc::Global;

// Whether the search ends at the state that the turns of a path and then these turns reach. `None` if it goes on. The
// turns of a leak are made fewer.
fn judge(
    alloc: Global,
    code: &Code,
    state: &State,
    path: &[u64],
    numbers: &[u64],
) -> Result<Option<Explored>, Memory>
    requires places { HasPlaces code.now }
    requires whole { IsWhole state.now }
    requires trail { IsTrail code.now (path.now ++ numbers.now) state.now }
    ensures { IfOk result (Unless code.now (IsWell state.now)) }
{
    if state.ending().is_some() {
        return Ok(None);
    }
    if state.has_finaliser() {
        return Ok(Some(Explored::Finalisers));
    }
    if has_dead(alloc, state)? {
        let turns = joined(alloc, path, numbers)?;
        let fewer = shortened(alloc, code, Sought::Leak, turns)?;
        return Ok(Some(Explored::Leak(fewer)));
    }
    Ok(None)
}

// The visit whose turns are taken.
#[derive(Clone, Copy)]
struct Origin<'a> {
    // Its place among the visits.
    at: u32,
    // The turns that lead to it.
    path: &'a [u64],
    // How many goroutines can run.
    count: u64,
    // The most visits that the search makes.
    most: u32,
}

// Visits the state after a turn of a visit and frame-local turns, unless it or an alike one was visited already. Adds
// the edge to the visit.
fn add(
    alloc: Global,
    code: &Code,
    visits: &mut Visits,
    edges: &mut List<Edge>,
    origin: Origin<'_>,
    number: u64,
) -> Result<Option<Explored>, Memory>
    requires places { HasPlaces code.now }
    requires visits { AreVisits code.now visits.old.list }
    requires path { IsPathFor code.now visits.old.list origin.at origin.path.now }
    ensures { IfOk result (Unless code.now (HasAdded code.now visits.old.list visits.new.list edges.old edges.new (after code.now (after_all code.now (start_of code.now) origin.entry.path.now) number))) }
{
    let mut state = visits.copy_of(alloc, origin.at)?;
    let numbers = take_and_settle(alloc, code, &mut state, number)?;
    let hash = alike_hash_of(alloc, &state)?;
    let turns = numbers.len() as u64;
    if let Some(to) = visits.find_alike(alloc, &state, hash)? {
        edges.push(Edge { to, turns })?;
        return Ok(None);
    }
    if let Some(explored) = judge(alloc, code, &state, origin.path, numbers.as_slice())? {
        return Ok(Some(explored));
    }
    let place = visits.list.len();
    if place >= origin.most as usize {
        return Ok(Some(Explored::TooMany));
    }
    let to = place as u32;
    let came = Came {
        parent: origin.at,
        numbers,
    };
    visits.push(state, Some(came), hash)?;
    edges.push(Edge { to, turns })?;
    Ok(None)
}

/// Returns the number of the turn at a place with a choice, if `count` goroutines can run. `None` if it is too
/// high.
pub(crate) fn number_of(place: u64, choice: u64, count: u64) -> Option<u64>
    ensures { IfSome result (λ number. number ≡ choice * count + place) }
{
    let row = choice.checked_mul(count)?;
    row.checked_add(place)
}

// Visits the states after the turns at a place, one for each of the choices.
fn add_choices(
    alloc: Global,
    code: &Code,
    visits: &mut Visits,
    edges: &mut List<Edge>,
    origin: Origin<'_>,
    place: u64,
    choices: u64,
) -> Result<Option<Explored>, Memory>
    requires places { HasPlaces code.now }
    requires visits { AreVisits code.now visits.old.list }
    requires path { IsPathFor code.now visits.old.list origin.at origin.path.now }
    ensures { IfOk result (Unless code.now (HasAddedTurns code.now visits.old.list visits.new.list edges.old edges.new (after_all code.now (start_of code.now) origin.entry.path.now) place origin.entry.count choices)) }
{
    for choice in 0..choices {
        let Some(number) = number_of(place, choice, origin.count) else {
            return Ok(Some(Explored::TooMany));
        };
        if let Some(explored) = add(alloc, code, visits, edges, origin, number)? {
            return Ok(Some(explored));
        }
    }
    Ok(None)
}

// Visits the states after all turns of a visit without an ending, which have these choices.
fn add_places(
    alloc: Global,
    code: &Code,
    visits: &mut Visits,
    edges: &mut List<Edge>,
    origin: Origin<'_>,
    choices: &[u64],
) -> Result<Option<Explored>, Memory>
    requires places { HasPlaces code.now }
    requires visits { AreVisits code.now visits.old.list }
    requires path { IsPathFor code.now visits.old.list origin.at origin.path.now }
    requires choices { HasChoices code.now (after_all code.now (start_of code.now) origin.path.now) choices.now }
    requires count { origin.count ≡ length choices.now }
    ensures { IfOk result (Unless code.now (HasExpanded code.now visits.old.list visits.new.list edges.new (after_all code.now (start_of code.now) origin.entry.path.now))) }
{
    for place in 0..choices.len() {
        let here = place as u64;
        let more = choices[place];
        if let Some(explored) = add_choices(alloc, code, visits, edges, origin, here, more)? {
            return Ok(Some(explored));
        }
    }
    Ok(None)
}

/// Visits those states after the turns of a visit that were not visited already. Adds the edges of the visit.
pub(crate) fn expand(
    alloc: Global,
    code: &Code,
    visits: &mut Visits,
    edges: &mut List<List<Edge>>,
    most: u32,
    at: u32,
) -> Result<Option<Explored>, Memory>
    requires places { HasPlaces code.now }
    requires visits { AreVisits code.now visits.old.list }
    requires at { at < length visits.old.list }
    ensures { IfOk result (Unless code.now (HasVisited code.now visits.old.list visits.new.list edges.old edges.new at)) }
{
    let state = &visits.list.as_slice()[at as usize].state;
    let mut ways = List::new(alloc);
    if state.ending().is_some() {
        edges.push(ways)?;
        return Ok(None);
    }
    let choices = choices(alloc, code, state)?;
    let path = path_to(alloc, visits.list.as_slice(), at as usize)?;
    let turns = path.as_slice();
    let origin = Origin {
        at,
        path: turns,
        count: choices.len() as u64,
        most,
    };
    if let Some(explored) = add_places(
        alloc,
        code,
        visits,
        &mut ways,
        origin,
        choices.as_slice(),
    )? {
        return Ok(Some(explored));
    }
    edges.push(ways)?;
    Ok(None)
}
