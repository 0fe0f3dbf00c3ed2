//! A marker, and its run.
//!
//! The invariant: each place that a marker claimed is scanned, in its own list, or shared. A marker mostly
//! works on its own list. It shares a place if its deque is short, and steals if its list is empty.

ghost use Rattle.std.specs.Prelude.{◌^◌, ◌≡◌, ◌+◌, ◌<◌, ℕ, length, All, IfSome};
ghost use Rattle.std.specs.Thread.{IsSync};
ghost use Rattle.golf_marks.specs.Places.{place_count};
ghost use Rattle.golf_marks.specs.Seats.{graph_in};
ghost use Rattle.golf_grey.specs.Hands.{option_weight, places_of, pushed, took, IsHandOf};
ghost use Rattle.golf_mark.specs.MarkerTurns.{IsMarkerOf, Attends, TakesTurns, EachRuns};
ghost use Rattle.golf_mark.specs.Waiters.{IsWaiters};

use crate::notes::Notes;
use crate::scanner::{Scanner, scan};
use crate::waiters::Waiters;
use golf_base::Gate;
use golf_grey::{GreyHand, GreyPool};
use golf_marks::Marks;
use golf_model::Graph;
use std::hint::spin_loop;
use std::sync::atomic::{AtomicU64, Ordering};
use std::thread::{Threads, join_mut, yield_now};

/// A marker shares a place only if its deque has fewer places than this.
const SHARED: usize = 4;

/// A marker looks at its deque in each turn whose number is a multiple of this.
const LOOK_EVERY: u64 = 4;

/// How often a marker that finds no place looks again before it ends.
const LOOKS: u32 = 16_384;

/// How many of these looks follow at once. After each later look the thread yields.
const AT_ONCE: u32 = 64;

/// The data that all markers of a run share: the mark words, the deques, the graph, the waiters of its
/// nodes, and two counts. `begun` is how many markers have begun, and `idle` how many of these find no
/// place.
#[derive(Clone, Copy)]
pub(crate) struct Shared<'a> {
    pub(crate) marks: &'a Marks,
    pub(crate) pool: &'a GreyPool,
    pub(crate) graph: &'a Graph,
    pub(crate) waiters: &'a Waiters,
    pub(crate) begun: &'a AtomicU64,
    pub(crate) idle: &'a AtomicU64,
}

/// The equipment of one marker.
#[derive(Drop)]
pub(crate) struct Marker {
    pub(crate) scanner: Scanner,
    pub(crate) hand: GreyHand,
    /// The places that the marker took and did not know as marked.
    pub(crate) deferred: Notes,
    /// How many more places it may share.
    pub(crate) budget: u32,
    /// Padding. It keeps the fields of this marker off the cache line that its neighbour writes.
    pub(crate) apart: [u64; 16],
}

// Scans a place of the marker's own list. Returns false if the list is empty.
fn scan_own(shared: &Shared, marker: &mut Marker) -> bool
    requires fits { IsMarkerOf shared.now.marks.now shared.now.pool.now marker.old }
    requires graph { graph_in shared.now.marks.now ≡ shared.now.graph.now }
    requires waiters { IsWaiters shared.now.graph.now shared.now.waiters.now }
    ensures { TakesTurns shared.now.marks.now shared.now.pool.now marker.old marker.new }
{
    let Some(place) = marker.scanner.won.take() else {
        return false;
    };
    scan(
        shared.marks,
        shared.graph,
        shared.waiters,
        &mut marker.scanner,
        place,
    );
    true
}

// Scans a taken place. If the marker does not know it as marked, it defers the place to the finishing scan.
fn scan_or_defer(shared: &Shared, marker: &mut Marker, place: u32)
    requires fits { IsMarkerOf shared.now.marks.now shared.now.pool.now marker.old }
    requires graph { graph_in shared.now.marks.now ≡ shared.now.graph.now }
    requires waiters { IsWaiters shared.now.graph.now shared.now.waiters.now }
    requires place { place < place_count (graph_in shared.now.marks.now) }
    ensures { Attends shared.now.marks.now shared.now.pool.now place marker.old marker.new }
{
    if shared.marks.is_marked(&mut marker.scanner.seat, place) {
        scan(
            shared.marks,
            shared.graph,
            shared.waiters,
            &mut marker.scanner,
            place,
        );
        return;
    }
    marker.deferred.add(place);
}

// Shares the first place of the marker's own list, if the list has more places and the deque is short. In
// most turns it does not look.
fn share(shared: &Shared, marker: &mut Marker, turn: u64)
    requires { IsMarkerOf shared.now.marks.now shared.now.pool.now marker.old }
    ensures { TakesTurns shared.now.marks.now shared.now.pool.now marker.old marker.new }
{
    if marker.budget == 0 || turn % LOOK_EVERY != 0 || marker.scanner.won.len() < 2 {
        return;
    }
    if shared.pool.len(&mut marker.hand) >= SHARED {
        return;
    }
    let Some(place) = marker.scanner.won.shift() else {
        unreachable!()
    };
    shared.pool.push(&mut marker.hand, place);
    marker.budget -= 1;
}

// Pauses between two looks.
fn pause(look: u32) {
    if look < AT_ONCE {
        spin_loop();
    } else {
        yield_now();
    }
}

// Looks again for a place in the deques, until all markers that have begun are idle. It does not wait for a
// marker that has not begun, since that marker's thread may never start.
fn look_again(shared: &Shared, hand: &mut GreyHand) -> Option<u32>
    requires { IsHandOf shared.now.pool.now hand.old }
    ensures hand { IsHandOf shared.now.pool.now hand.new }
    ensures pushed { pushed hand.new ≡ pushed hand.old }
    ensures took { (f : ℕ → ℕ) → took f hand.new ≡ took f hand.old + option_weight f result }
    ensures number { hand.new.number ≡ hand.old.number }
    ensures place { IfSome result (λ place. place < places_of shared.now.pool.now) }
{
    for look in 0..LOOKS {
        if shared.idle.load(Ordering::SeqCst) >= shared.begun.load(Ordering::SeqCst) {
            return None;
        }
        if let Some(place) = shared.pool.take(hand) {
            return Some(place);
        }
        pause(look);
    }
    None
}

// Takes a place from the deques, and counts the marker as idle while it looks.
fn seek(shared: &Shared, hand: &mut GreyHand) -> Option<u32>
    requires { IsHandOf shared.now.pool.now hand.old }
    ensures hand { IsHandOf shared.now.pool.now hand.new }
    ensures pushed { pushed hand.new ≡ pushed hand.old }
    ensures took { (f : ℕ → ℕ) → took f hand.new ≡ took f hand.old + option_weight f result }
    ensures number { hand.new.number ≡ hand.old.number }
    ensures place { IfSome result (λ place. place < places_of shared.now.pool.now) }
{
    if let Some(place) = shared.pool.take(hand) {
        return Some(place);
    }
    let _ = shared.idle.fetch_add(1, Ordering::SeqCst);
    let place = look_again(shared, hand)?;
    let _ = shared.idle.fetch_sub(1, Ordering::SeqCst);
    Some(place)
}

// Scans one place, from its own list or from the deques, and perhaps shares one. Returns false if it finds
// no place.
fn step(shared: &Shared, marker: &mut Marker, turn: u64) -> bool
    requires fits { IsMarkerOf shared.now.marks.now shared.now.pool.now marker.old }
    requires graph { graph_in shared.now.marks.now ≡ shared.now.graph.now }
    requires waiters { IsWaiters shared.now.graph.now shared.now.waiters.now }
    ensures { TakesTurns shared.now.marks.now shared.now.pool.now marker.old marker.new }
{
    if scan_own(shared, marker) {
        share(shared, marker, turn);
        return true;
    }
    let Some(place) = seek(shared, &mut marker.hand) else {
        return false;
    };
    scan_or_defer(shared, marker, place);
    share(shared, marker, turn);
    true
}

// Scans places until there is none. It passes the gate before each turn.
fn run<G: Gate>(gate: &G, number: u32, shared: &Shared, marker: &mut Marker)
    requires fits { IsMarkerOf shared.now.marks.now shared.now.pool.now marker.old }
    requires graph { graph_in shared.now.marks.now ≡ shared.now.graph.now }
    requires waiters { IsWaiters shared.now.graph.now shared.now.waiters.now }
    ensures { TakesTurns shared.now.marks.now shared.now.pool.now marker.old marker.new }
{
    let _ = shared.begun.fetch_add(1, Ordering::SeqCst);
    for turn in 0..u64::MAX {
        gate.pass(number, turn);
        if !step(shared, marker, turn) {
            return;
        }
    }
}

/// Runs the markers, each in its own thread. The first one has the number `first` and runs in the thread of
/// the caller, so it begins before the others.
pub(crate) fn run_all<G: Gate + Sync, R: Threads + Sync>(
    rt: &R,
    gate: &G,
    first: u32,
    shared: &Shared,
    markers: &mut [Marker],
)
    requires fits { All (IsMarkerOf shared.now.marks.now shared.now.pool.now) markers.old }
    requires graph { graph_in shared.now.marks.now ≡ shared.now.graph.now }
    requires waiters { IsWaiters shared.now.graph.now shared.now.waiters.now }
    requires small { first + length markers.old < 2 ^ 32 }
    ensures { EachRuns shared.now.marks.now shared.now.pool.now markers.old markers.new }
{
    if markers.is_empty() {
        return;
    }
    if markers.len() == 1 {
        run(gate, first, shared, &mut markers[0]);
        return;
    }
    let half = markers.len() / 2;
    let second = first + half as u32;
    let (front, back) = markers.split_at_mut(half);
    join_mut(
        rt,
        &mut ||
            requires { IsSync R.row × All (IsMarkerOf shared.now.marks.now shared.now.pool.now) back.now × (graph_in shared.now.marks.now ≡ shared.now.graph.now) × IsWaiters shared.now.graph.now shared.now.waiters.now × (second + length back.now < 2 ^ 32) }
            ensures { EachRuns shared.entry.now.marks.now shared.entry.now.pool.now back.entry.now back.exit.now }
        { run_all(rt, gate, second, shared, back) },
        &mut ||
            requires { IsSync R.row × All (IsMarkerOf shared.now.marks.now shared.now.pool.now) front.now × (graph_in shared.now.marks.now ≡ shared.now.graph.now) × IsWaiters shared.now.graph.now shared.now.waiters.now × (first + length front.now < 2 ^ 32) }
            ensures { EachRuns shared.entry.now.marks.now shared.entry.now.pool.now front.entry.now front.exit.now }
        { run_all(rt, gate, first, shared, front) },
    );
}
