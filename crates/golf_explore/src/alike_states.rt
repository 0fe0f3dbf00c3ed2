//! Whether two states count as one: they are alike.
//!
//! Alike states differ in the numbers of their goroutines and in tickets alone; of the waiters on one object the order
//! is the same. A pairing of goroutines is guessed by hashes (`pairings`), and each condition is looked at here. So the
//! answer `true` is proved, and nothing is claimed if the answer is `false`. Output is not compared. The time is that of
//! sorting the goroutines and of looking at both states once.

ghost use Rattle.std.specs.Prelude.{◌≡◌, ◌<◌, ◌++◌, true, None, map, option_map, IfOk, OnOk, slice_get, length};
ghost use Rattle.golf_model.specs.Views.{goroutine_view};
ghost use Rattle.golf_model.specs.Reports.{numbers};
ghost use Rattle.golf_explore_laws.specs.After.{silent};
ghost use Rattle.golf_explore_laws.specs.Alike.{untimed, blank, nameless};
ghost use Rattle.golf_explore.specs.AlikeStates.{CountAsOne, RecordSame, IsSameBesides, HavePartners, ArePartners};
ghost use Rattle.golf_explore.specs.AlikeStates.{IsPaired, ArePaired, partner, CanPair, CanPairAt, AllCanPair};
ghost use Rattle.golf_explore.specs.AlikeStates.{wait_pair_of, AddsWaits, AddsWaitsAt, HasWaits, ComesBefore};
ghost use Rattle.golf_explore.specs.AlikeStates.{AreInOrder, HaveSameOrder};

use crate::endings::sleeps;
use crate::pairings::{Pairing, ticket_of};
use golf_base::{GoroutineId, List, Memory};
use golf_data::{Ending, Goroutine, Mode, Queued, Wait, WaitKind};
use golf_state::State;
use golf_state_equality::{is_same_heap, same_frames, same_values};
use std::alloc::Global;

/// A wait of a goroutine on an object, with its ticket and that of its partner.
#[derive(Clone, Copy, PartialEq, Eq, PartialOrd, Ord)]
pub(crate) struct WaitPair {
    pub(crate) object: u32,
    pub(crate) ticket: u64,
    pub(crate) twin: u64,
}

// ---- two goroutines

// Whether both kinds of waiting are the same.
fn is_same_kind(kind: WaitKind, other: WaitKind) -> bool
    ensures { result ≡ true → kind ≡ other }
{
    kind == other
}

// Whether both have the same waits in the same order.
fn same_waits(waits: &[Wait], others: &[Wait]) -> bool
    ensures { result ≡ true → waits.now ≡ others.now }
{
    waits == others
}

// Whether both run, or both are blocked in the same way.
fn is_alike_mode(mode: &Mode, other: &Mode) -> bool
    ensures { result ≡ true → untimed mode.now ≡ untimed other.now }
{
    match (mode, other) {
        (Mode::Running, Mode::Running) => true,
        (
            Mode::Blocked {
                kind,
                line,
                waits,
                ticket: _,
            },
            Mode::Blocked {
                kind: other_kind,
                line: other_line,
                waits: others,
                ticket: _,
            },
        ) => {
            line == other_line
                && is_same_kind(*kind, *other_kind)
                && same_waits(waits.as_slice(), others.as_slice())
        }
        (Mode::Running, Mode::Blocked { .. }) => false,
        (Mode::Blocked { .. }, Mode::Running) => false,
    }
}

// Whether both goroutines are the same, except for their tickets.
fn is_alike_goroutine(goroutine: &Goroutine, other: &Goroutine) -> bool
    ensures { result ≡ true → blank (goroutine_view goroutine.now) ≡ blank (goroutine_view other.now) }
{
    goroutine.started == other.started
        && is_alike_mode(&goroutine.mode, &other.mode)
        && same_frames(goroutine.frames.as_slice(), other.frames.as_slice())
}

// Whether the goroutines of these numbers can be partners.
fn fits(state: &State, g: GoroutineId, other: &State, h: GoroutineId) -> bool
    ensures { result ≡ true → CanPair state.now g.0 other.now h.0 }
{
    let Some(goroutine) = state.goroutine(g) else {
        return false;
    };
    let Some(twin) = other.goroutine(h) else {
        return false;
    };
    (g.0 == 0) == (h.0 == 0) && (g.0 == 1) == (h.0 == 1) && is_alike_goroutine(goroutine, twin)
}

// ---- the pairs

// The item at a place, or `None`.
fn place_at(places: &[usize], at: usize) -> Option<usize>
    ensures { result ≡ slice_get places.now at }
{
    places.get(at).copied()
}

// Whether a place has a partner, whose partner it is.
fn is_paired(to: &[usize], from: &[usize], at: usize) -> bool
    ensures { result ≡ true → IsPaired to.now from.now at }
{
    let Some(partner) = place_at(to, at) else {
        return false;
    };
    let Some(back) = place_at(from, partner) else {
        return false;
    };
    back == at
}

// Whether this holds for the first places.
fn are_paired(to: &[usize], from: &[usize], count: usize) -> bool
    ensures { result ≡ true → ArePaired to.now from.now count }
{
    for at in 0..count {
        if !is_paired(to, from, at) {
            return false;
        }
    }
    true
}

// The partner of the goroutine at a place, or `None`.
fn partner_at(others: &[GoroutineId], to: &[usize], at: usize) -> Option<GoroutineId>
    ensures { option_map (λ h. h.0) result ≡ partner (numbers others.now) to.now at }
{
    let place = place_at(to, at)?;
    others.get(place).copied()
}

// Whether the goroutine at a place fits its partner.
fn fits_at(
    state: &State,
    goroutines: &[GoroutineId],
    other: &State,
    others: &[GoroutineId],
    to: &[usize],
    at: usize,
) -> bool
    requires { at < length goroutines.now }
    ensures { result ≡ true → CanPairAt state.now (numbers goroutines.now) other.now (numbers others.now) to.now at }
{
    match partner_at(others, to, at) {
        Some(partner) => fits(state, goroutines[at], other, partner),
        None => false,
    }
}

// Whether each goroutine fits its partner.
fn all_fit(
    state: &State,
    goroutines: &[GoroutineId],
    other: &State,
    others: &[GoroutineId],
    to: &[usize],
) -> bool
    ensures { result ≡ true → AllCanPair state.now (numbers goroutines.now) other.now (numbers others.now) to.now }
{
    for at in 0..goroutines.len() {
        if !fits_at(state, goroutines, other, others, to, at) {
            return false;
        }
    }
    true
}

// ---- the order of waiters

// Adds these waits of a goroutine with its ticket and that of its partner.
fn add_each(waits: &mut Vec<WaitPair>, own: &[Wait], ticket: u64, twin: u64) -> Result<(), Memory>
    ensures { OnOk result (waits.new.items ≡ waits.old.items ++ map (wait_pair_of ticket twin) own.now) }
{
    for wait in own {
        let object = wait.object.0;
        waits.push(WaitPair {
            object,
            ticket,
            twin,
        })?;
    }
    Ok(())
}

// Adds the waits of a goroutine.
fn add_waits(
    waits: &mut Vec<WaitPair>,
    goroutine: &Goroutine,
    twin: &Goroutine,
) -> Result<(), Memory>
    ensures { OnOk result (AddsWaits (goroutine_view goroutine.now) (goroutine_view twin.now) waits.old.items waits.new.items) }
{
    match &goroutine.mode {
        Mode::Running => Ok(()),
        Mode::Blocked { waits: own, .. } => add_each(
            waits,
            own.as_slice(),
            ticket_of(goroutine),
            ticket_of(twin),
        ),
    }
}

// Adds the waits of the goroutine at a place.
fn add_waits_at(
    waits: &mut Vec<WaitPair>,
    state: &State,
    g: GoroutineId,
    other: &State,
    partner: Option<GoroutineId>,
) -> Result<(), Memory>
    ensures { OnOk result (AddsWaitsAt state.now g.0 other.now (option_map (λ h. h.0) partner) waits.old.items waits.new.items) }
{
    let Some(h) = partner else {
        return Ok(());
    };
    let Some(goroutine) = state.goroutine(g) else {
        return Ok(());
    };
    let Some(twin) = other.goroutine(h) else {
        return Ok(());
    };
    add_waits(waits, goroutine, twin)
}

// The waits of all goroutines, by object and then by ticket.
fn waits_of(
    alloc: Global,
    state: &State,
    goroutines: &[GoroutineId],
    other: &State,
    others: &[GoroutineId],
    to: &[usize],
) -> Result<Vec<WaitPair>, Memory>
    ensures { IfOk result (λ ws. HasWaits state.now (numbers goroutines.now) other.now (numbers others.now) to.now (length goroutines.now) ws.items) }
{
    let mut waits = Vec::new(alloc);
    for at in 0..goroutines.len() {
        let partner = partner_at(others, to, at);
        add_waits_at(&mut waits, state, goroutines[at], other, partner)?;
    }
    Ok(waits)
}

// Whether the second wait can come next: on another object, or with both tickets.
fn is_before(wait: WaitPair, next: WaitPair) -> bool
    ensures { result ≡ true → ComesBefore wait next }
{
    if wait.object < next.object {
        return true;
    }
    if wait.object != next.object {
        return false;
    }
    if wait.ticket < next.ticket {
        return wait.twin < next.twin;
    }
    wait.ticket == next.ticket && wait.twin == next.twin
}

// Whether on each object the tickets rise in both states.
fn are_in_order(waits: &[WaitPair]) -> bool
    ensures { result ≡ true → AreInOrder waits.now }
{
    for at in 1..waits.len() {
        if !is_before(waits[at - 1], waits[at]) {
            return false;
        }
    }
    true
}

// Whether the waiters on each object have the same order in both states.
fn have_same_order(
    alloc: Global,
    state: &State,
    goroutines: &[GoroutineId],
    other: &State,
    others: &[GoroutineId],
    to: &[usize],
) -> Result<bool, Memory>
    ensures { IfOk result (λ same. same ≡ true → HaveSameOrder state.now (numbers goroutines.now) other.now (numbers others.now) to.now) }
{
    let mut waits = waits_of(alloc, state, goroutines, other, others, to)?;
    waits.sort()?;
    Ok(are_in_order(waits.as_slice()))
}

// ---- two states

// Whether all goroutines have partners by this pairing.
fn are_partners(
    alloc: Global,
    state: &State,
    goroutines: &[GoroutineId],
    other: &State,
    others: &[GoroutineId],
    pairing: &Pairing,
) -> Result<bool, Memory>
    ensures { IfOk result (λ same. same ≡ true → ArePartners state.now (numbers goroutines.now) other.now (numbers others.now) pairing.now.to pairing.now.from) }
{
    let to = pairing.to.as_slice();
    let from = pairing.from.as_slice();
    if to.len() != goroutines.len() {
        return Ok(false);
    }
    if !are_paired(to, from, goroutines.len()) {
        return Ok(false);
    }
    if !are_paired(from, to, others.len()) {
        return Ok(false);
    }
    if !all_fit(state, goroutines, other, others, to) {
        return Ok(false);
    }
    have_same_order(alloc, state, goroutines, other, others, to)
}

// Whether the goroutines of both states are partners.
fn same_goroutines(alloc: Global, state: &State, other: &State) -> Result<bool, Memory>
    ensures { IfOk result (λ same. same ≡ true → HavePartners state.now other.now) }
{
    let goroutines = state.goroutines(alloc)?;
    let others = other.goroutines(alloc)?;
    if goroutines.len() != others.len() {
        return Ok(false);
    }
    let (ones, twins) = (goroutines.as_slice(), others.as_slice());
    let pairing = Pairing::new(alloc, state, ones, other, twins)?;
    are_partners(alloc, state, ones, other, twins, &pairing)
}

// Whether states with these endings have recorded the same one, except for the goroutine that it names. It is false for
// states that are asleep.
fn is_same_ending(ending: Option<Ending>, other: Option<Ending>) -> bool
    ensures { result ≡ true → RecordSame ending other }
{
    match (ending, other) {
        (None, None) => true,
        (Some(Ending::Returned), Some(Ending::Returned)) => true,
        (
            Some(Ending::Panicked { kind, line, .. }),
            Some(
                Ending::Panicked {
                    kind: other_kind,
                    line: other_line,
                    ..
                },
            ),
        ) => kind == other_kind && line == other_line,
        _ => false,
    }
}

// Whether a state has recorded no ending: then a copy in which one more goroutine runs has none.
fn records_none(alloc: Global, state: &State) -> Result<bool, Memory>
    ensures { IfOk result (λ none. none ≡ true → state.now.recorded ≡ None) }
{
    let mut awake = state.copy(alloc)?;
    awake.spawn(List::new(alloc), 0)?;
    Ok(awake.ending().is_none())
}

// Whether both have recorded the same ending, except for the goroutine that it names.
fn record_same(alloc: Global, state: &State, other: &State) -> Result<bool, Memory>
    ensures { IfOk result (λ same. same ≡ true → nameless state.now.recorded ≡ nameless other.now.recorded) }
{
    if !sleeps(state) {
        return Ok(is_same_ending(state.ending(), other.ending()));
    }
    if !sleeps(other) {
        return Ok(false);
    }
    if !records_none(alloc, state)? {
        return Ok(false);
    }
    records_none(alloc, other)
}

// Whether both queues have the same entries in the same order.
fn same_queues(queue: &[Queued], other: &[Queued]) -> bool
    ensures { result ≡ true → queue.now ≡ other.now }
{
    queue == other
}

// Whether both states are the same, except for goroutines, the next numbers and recorded endings.
fn is_same_besides(state: &State, other: &State) -> bool
    ensures { result ≡ true → IsSameBesides state.now other.now }
{
    !state.has_finaliser()
        && !other.has_finaliser()
        && state.next_goroutine() >= 2
        && other.next_goroutine() >= 2
        && same_queues(state.queue(), other.queue())
        && same_values(state.globals(), other.globals())
        && is_same_heap(state.heap(), other.heap())
}

/// Returns whether both states count as one. If they do not, nothing is claimed.
pub(crate) fn count_as_one(alloc: Global, state: &State, other: &State) -> Result<bool, Memory>
    ensures { IfOk result (λ same. same ≡ true → CountAsOne (silent state.now) (silent other.now)) }
{
    if !is_same_besides(state, other) {
        return Ok(false);
    }
    if !record_same(alloc, state, other)? {
        return Ok(false);
    }
    same_goroutines(alloc, state, other)
}
