//! Marking by several markers.
//!
//! All memory is taken before the marking. So the marking itself cannot fail.

ghost use Rattle.std.specs.Prelude.{◌≡◌, ◌<◌, ◌≤◌, length, IfOk};
ghost use Rattle.golf_marks.specs.Seats.{graph_in};
ghost use Rattle.golf_mark.specs.MarkingResult.{MarksLeast};
ghost use Rattle.golf_mark.specs.Ready.{AreFreshMarkers, IsReady};
ghost use Rattle.golf_mark.specs.MarkerTurns.{EachRuns};
ghost use Rattle.golf_mark.specs.Waiters.{IsWaiters};

use crate::conclude::conclude;
use crate::deal::{deal, equip};
use crate::marker::{Marker, Shared, run_all};
use crate::waiters::Waiters;
use golf_base::{Gate, Memory, Room};
use golf_grey::{GreyHand, GreyPool};
use golf_marks::{MarkSeat, Marks};
use golf_model::{Graph, Marked};
use std::alloc::Global;
use std::marker::Model;
use std::snapshot::Snapshot;
use std::sync::atomic::AtomicU64;
use std::thread::Threads;

/// How many places each of several markers shares at most. After that it keeps its places to itself. With
/// two slots for its numbers a deque has 16,384 slots.
const SHARES: u32 = 16_382;

// Runs the markers.
fn run_markers<G: Gate + Sync, R: Threads + Sync>(
    rt: &R,
    gate: &G,
    shared: &Shared,
    markers: Vec<Marker>,
) -> Vec<Marker>
    requires graph { graph_in shared.now.marks.now ≡ shared.now.graph.now }
    requires waiters { IsWaiters shared.now.graph.now shared.now.waiters.now }
    requires few { length markers.items ≤ 16 }
    requires fresh { AreFreshMarkers shared.now.marks.now shared.now.pool.now markers.items }
    ensures { EachRuns shared.now.marks.now shared.now.pool.now markers.items result.items }
{
    let mut markers = markers;
    run_all(rt, gate, 0, shared, markers.as_mut_slice());
    markers
}

/// The markers before their run: the shared mark words and the pool, and the equipment of each marker.
#[derive(Drop)]
pub(crate) struct Team {
    pub(crate) marks: Marks,
    pub(crate) pool: GreyPool,
    pub(crate) markers: Vec<Marker>,
    pub(crate) hands: Room<GreyHand>,
    pub(crate) seats: Room<MarkSeat>,
}

impl Team {
    /// Returns `count` markers for a graph, with all memory that they need. One marker shares nothing.
    fn new(alloc: Global, graph: &Graph, count: u32) -> Result<Team, Memory>
        requires some { 0 < count }
        requires few { count ≤ 16 }
        ensures graph { IfOk result (λ team. graph_in team.marks ≡ graph.now) }
        ensures ready { IfOk result (λ team. IsReady team.marks team.pool team.markers.items team.hands team.seats) }
    {
        let places = graph.nodes() + graph.sleepers();
        let budget = if count == 1 { 0 } else { places.min(SHARES) };
        let (marks, seats) = Marks::new(alloc, graph, count)?;
        let (pool, hands) = GreyPool::new(alloc, count, budget, places)?;
        let markers = equip(alloc, &marks, &pool, places, budget, seats, hands)?;
        let mut hand_room = Room::new(alloc);
        hand_room.reserve(count as usize)?;
        let mut seat_room = Room::new(alloc);
        seat_room.reserve(1)?;
        Ok(Team {
            marks,
            pool,
            markers,
            hands: hand_room,
            seats: seat_room,
        })
    }

    /// Marks the least closed set of the graph, as `Markers::mark` says. It takes no memory.
    fn mark<R: Threads + Sync, G: Gate + Sync>(
        self,
        rt: &R,
        graph: &Graph,
        waiters: &Waiters,
        gate: &G,
    ) -> Marked
        requires graph { graph_in self.marks ≡ graph.now }
        requires waiters { IsWaiters graph.now waiters.now }
        requires ready { IsReady self.marks self.pool self.markers.items self.hands self.seats }
        ensures { MarksLeast graph.now result }
    {
        let Team {
            marks,
            pool,
            markers,
            hands,
            seats,
        } = self;
        let dealt = deal(&marks, &pool, graph, markers);
        let begun = AtomicU64::new(0);
        let idle = AtomicU64::new(0);
        let shared = Shared {
            marks: &marks,
            pool: &pool,
            graph,
            waiters,
            begun: &begun,
            idle: &idle,
        };
        let done = run_markers(rt, gate, &shared, dealt);
        conclude(marks, pool, graph, waiters, done, hands, seats)
    }
}

/// All that the markers need to mark one graph. Contracts see only the graph.
pub struct Markers {
    graph: Snapshot<Graph>,
    waiters: Waiters,
    team: Team,
}

impl Model for Markers {
    ghost use Rattle.golf_model.specs.declared.graph.GraphParts.{GraphParts};
    ghost use Rattle.golf_mark.specs.Team.{IsReadyFor};

    ghost Value = { GraphParts };

    ghost view = { λ m. m.graph.value };

    ghost invariant = { λ m. IsReadyFor m.graph.value m.waiters m.team };
}

// Written out once here. So no other crate walks over the fields when it drops markers.
impl Drop for Markers {
    fn drop(self) {
        let Markers {
            graph: _,
            waiters: _,
            team: _,
        } = self;
    }
}

impl Markers {
    /// Returns `count` markers for a graph, 1 to 16. It takes all memory that marking needs. The only error
    /// is `Memory`.
    pub fn new(alloc: Global, graph: &Graph, count: u32) -> Result<Markers, Memory>
        requires some { 0 < count }
        requires few { count ≤ 16 }
        ensures { IfOk result (λ markers. markers ≡ graph.now) }
    {
        let waiters = Waiters::new(alloc, graph)?;
        let team = Team::new(alloc, graph, count)?;
        Ok(Markers {
            graph: Snapshot::of(graph),
            waiters,
            team,
        })
    }

    /// Marks the least closed set of the graph that `new` saw. It takes no memory.
    ///
    /// Marker 0 runs in the thread of the caller, and each other marker in its own thread. If a thread
    /// cannot be started, its caller does that work itself. In each turn a marker takes a place and marks
    /// all places that it justifies. A marker ends if it finds no place.
    ///
    /// The gate is passed before each turn, also before the last one. Markers and turns count from 0. At
    /// the end one scan, without the gate, does the places that are left. It also does those that a marker
    /// took but did not know as marked.
    pub fn mark<R: Threads + Sync, G: Gate + Sync>(self, rt: &R, graph: &Graph, gate: &G) -> Marked
        requires { self ≡ graph.now }
        ensures { MarksLeast graph.now result }
    {
        let Markers {
            graph: _,
            waiters,
            team,
        } = self;
        team.mark(rt, graph, &waiters, gate)
    }
}
