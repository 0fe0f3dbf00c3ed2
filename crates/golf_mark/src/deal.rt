//! The markers before their run: their equipment, and the roots that each claims.
//!
//! No marker has pushed or taken a place yet.

ghost use Rattle.std.specs.Prelude.{◌≡◌, ◌<◌, ◌≤◌, length, IfOk};
ghost use Rattle.golf_theory.specs.Membership.{In, Every};
ghost use Rattle.golf_model.specs.Graph.{IsInRange};
ghost use Rattle.golf_marks.specs.Places.{place_count};
ghost use Rattle.golf_marks.specs.Seats.{graph_in, IsNewSeatOf};
ghost use Rattle.golf_grey.specs.Hands.{AreAllHands, AreNewHands, FallTo0, capacity_of, hand_count, places_of};
ghost use Rattle.golf_mark.specs.MergedMarkers.{IsRooted, marker_parts};
ghost use Rattle.golf_mark.specs.Ready.{AreFreshMarkers, Seeds};
ghost use Rattle.golf_mark.specs.MarkerTurns.{IsMarkerOf};

use crate::marker::Marker;
use crate::notes::Notes;
use crate::scanner::{Scanner, claim};
use crate::worklist::Worklist;
use golf_base::{List, Memory};
use golf_grey::{GreyHand, GreyPool};
use golf_marks::{MarkSeat, Marks};
use golf_model::Graph;
use std::alloc::Global;

/// Makes a marker of each seat and hand, in rising order of number.
pub(crate) fn equip(
    alloc: Global,
    marks: &Marks,
    pool: &GreyPool,
    places: u32,
    budget: u32,
    seats: List<MarkSeat>,
    hands: List<GreyHand>,
) -> Result<Vec<Marker>, Memory>
    requires places { place_count (graph_in marks.now) ≡ places }
    requires capacity { budget ≤ capacity_of pool.now }
    requires pool_places { places_of pool.now ≡ places }
    requires same { length seats ≡ length hands }
    requires seats { Every (IsNewSeatOf marks.now) seats }
    requires hands { AreAllHands pool.now hands }
    requires falling { FallTo0 (hand_count pool.now) hands }
    requires new { AreNewHands hands }
    ensures count { IfOk result (λ markers. length markers.items ≡ hand_count pool.now) }
    ensures parts { IfOk result (λ markers. marker_parts markers.items ≡ length seats) }
    ensures fresh { IfOk result (λ markers. AreFreshMarkers marks.now pool.now markers.items) }
{
    let mut seats = seats;
    let mut hands = hands;
    let mut markers = Vec::with_capacity(alloc, hands.len())?;
    while let Some(hand) = hands.pop() {
        let Some(seat) = seats.pop() else {
            unreachable!()
        };
        let deferred = Notes::new(alloc, places)?;
        let won = Worklist::new(alloc, places as usize)?;
        let scanner = Scanner { seat, won };
        markers.push(Marker {
            scanner,
            hand,
            deferred,
            budget,
            apart: [0; 16],
        })?;
    }
    Ok(markers)
}

// Lets a marker claim a root.
fn seed(marks: &Marks, _pool: &GreyPool, marker: &mut Marker, root: u32)
    requires fits { IsMarkerOf marks.now _pool.now marker.old }
    requires place { root < place_count (graph_in marks.now) }
    requires root { In root (graph_in marks.now).roots }
    ensures { Seeds marks.now _pool.now root marker.old marker.new }
{
    claim(marks, &mut marker.scanner, root);
}

/// Deals the roots out. Of n markers the marker k claims the roots at the places k, k + n, and so on.
pub(crate) fn deal(
    marks: &Marks,
    pool: &GreyPool,
    graph: &Graph,
    markers: Vec<Marker>,
) -> Vec<Marker>
    requires graph { graph_in marks.now ≡ graph.now }
    requires some { 0 < length markers.items }
    requires fresh { AreFreshMarkers marks.now pool.now markers.items }
    ensures count { length result.items ≡ length markers.items }
    ensures parts { marker_parts result.items ≡ marker_parts markers.items }
    ensures fresh { AreFreshMarkers marks.now pool.now result.items }
    ensures rooted { IsRooted graph.now.roots result.items }
    ensures in_range { IsInRange graph.now }
{
    let _nodes = graph.nodes();
    let roots = graph.roots();
    let mut markers = markers;
    let count = markers.len();
    for i in 0..roots.len() {
        let marker = &mut markers[i % count];
        seed(marks, pool, marker, roots[i]);
    }
    markers
}
