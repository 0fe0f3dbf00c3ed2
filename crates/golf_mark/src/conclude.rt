//! The end of a marking by several markers: their seats, hands and notes are merged, and the rest is
//! scanned.

ghost use Rattle.std.specs.Prelude.{◌≡◌, ◌<◌, ◌≤◌, [], length};
ghost use mathlib.Core.Option.{some};
ghost use lib.ListN.{get_elem?};
ghost use Rattle.golf_model.specs.Graph.{IsInRange};
ghost use Rattle.golf_marks.specs.Seats.{graph_in, seat_count};
ghost use Rattle.golf_grey.specs.Hands.{hand_count};
ghost use Rattle.golf_mark.specs.MergedMarkers.{AllRun, IsRooted, marker_parts};
ghost use Rattle.golf_mark.specs.MarkingResult.{MarksLeast};
ghost use Rattle.golf_mark.specs.Waiters.{IsWaiters};

use crate::finish::settle;
use crate::marker::Marker;
use crate::scanner::Scanner;
use crate::waiters::Waiters;
use golf_base::Room;
use golf_grey::{GreyHand, GreyPool};
use golf_marks::{MarkSeat, Marks};
use golf_model::{Graph, Marked};

/// Merges the results of all markers, and scans the places that they left. Returns the marking.
pub(crate) fn conclude(
    marks: Marks,
    pool: GreyPool,
    graph: &Graph,
    waiters: &Waiters,
    markers: Vec<Marker>,
    hands: Room<GreyHand>,
    seats: Room<MarkSeat>,
) -> Marked
    requires graph { graph_in marks ≡ graph.now }
    requires waiters { IsWaiters graph.now waiters.now }
    requires in_range { IsInRange graph.now }
    requires some { 0 < length markers.items }
    requires count { length markers.items ≡ hand_count pool }
    requires run { AllRun marks pool markers.items }
    requires parts { marker_parts markers.items ≡ seat_count marks }
    requires rooted { IsRooted graph.now.roots markers.items }
    requires hands { (hands.items ≡ []) × (length markers.items ≤ hands.spare) }
    requires seats { (seats.items ≡ []) × (0 < seats.spare) }
    ensures { MarksLeast graph.now result }
{
    let mut rest = markers;
    let mut hands = hands;
    let Some(first) = rest.pop() else {
        unreachable!()
    };
    let Marker {
        mut scanner,
        hand,
        deferred: mut todo,
        budget: _,
        apart: _,
    } = first;
    todo.add_all(scanner.won.as_slice());
    scanner.won.clear();
    hands.push_ready(hand);
    while let Some(marker) = rest.pop() {
        let Marker {
            scanner: theirs,
            hand,
            deferred,
            budget: _,
            apart: _,
        } = marker;
        hands.push_ready(hand);
        let Scanner { seat, won } = theirs;
        marks.join(&mut scanner.seat, seat);
        todo.merge(deferred);
        todo.add_all(won.as_slice());
    }
    let left = pool.close(hands.into_list());
    todo.add_all(left.places.as_slice());
    settle(&marks, graph, waiters, &mut scanner, &todo);
    let Scanner { seat, won: _ } = scanner;
    let mut seats = seats;
    seats.push_ready(seat);
    marks.close(seats.into_list())
}
