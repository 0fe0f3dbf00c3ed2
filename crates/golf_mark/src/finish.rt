//! The finishing scan of the places that the markers left.
//!
//! A marker leaves a place that it shared, or that it took but did not know as marked.

ghost use Rattle.std.specs.Prelude.{◌^◌, ◌≡◌, ◌+◌, ◌<◌, ℕ, Bool, List, length};
ghost use Rattle.golf_marks.specs.Places.{place_count};
ghost use Rattle.golf_marks.specs.Seats.{graph_in};
ghost use Rattle.golf_mark.specs.FinishingScan.{IsIdle, IsPending, KeepsSeat};
ghost use Rattle.golf_mark.specs.ScannerState.{IsScannerOf, IsCovered, KnowsWon};
ghost use Rattle.golf_mark.specs.Waiters.{IsWaiters};

use crate::notes::Notes;
use crate::scanner::{Scanner, scan};
use crate::waiters::Waiters;
use golf_marks::Marks;
use golf_model::Graph;

// Scans the places of the scanner's own list, until the list is empty.
fn settle_won(marks: &Marks, graph: &Graph, waiters: &Waiters, scanner: &mut Scanner)
    requires fits { IsScannerOf marks.now scanner.old }
    requires graph { graph_in marks.now ≡ graph.now }
    requires waiters { IsWaiters graph.now waiters.now }
    requires won { KnowsWon marks.now scanner.old }
    ensures idle { IsIdle marks.now scanner.new }
    ensures keeps { KeepsSeat scanner.old scanner.new }
    ensures covered { (todo : List Bool) (from : ℕ) → IsCovered marks.now (IsPending todo from) scanner.old → IsCovered marks.now (IsPending todo from) scanner.new }
{
    while let Some(place) = scanner.won.pop() {
        scan(marks, graph, waiters, scanner, place);
    }
}

// Scans a place if it is noted and marked, and then all places that the scanner wins.
fn settle_at(
    marks: &Marks,
    graph: &Graph,
    waiters: &Waiters,
    scanner: &mut Scanner,
    todo: &Notes,
    place: u32,
)
    requires idle { IsIdle marks.now scanner.old }
    requires graph { graph_in marks.now ≡ graph.now }
    requires waiters { IsWaiters graph.now waiters.now }
    requires place { place < place_count (graph_in marks.now) }
    requires small { place_count (graph_in marks.now) < 2 ^ 32 }
    requires todo { length todo.now ≡ place_count (graph_in marks.now) }
    requires covered { IsCovered marks.now (IsPending todo.now place) scanner.old }
    ensures idle { IsIdle marks.now scanner.new }
    ensures keeps { KeepsSeat scanner.old scanner.new }
    ensures covered { IsCovered marks.now (IsPending todo.now (place + 1)) scanner.new }
{
    if !todo.has(place) {
        return;
    }
    if !marks.is_marked(&mut scanner.seat, place) {
        return;
    }
    scan(marks, graph, waiters, scanner, place);
    settle_won(marks, graph, waiters, scanner);
}

/// Scans all noted places that are marked, and all places that the scanner wins.
pub(crate) fn settle(
    marks: &Marks,
    graph: &Graph,
    waiters: &Waiters,
    scanner: &mut Scanner,
    todo: &Notes,
)
    requires idle { IsIdle marks.now scanner.old }
    requires graph { graph_in marks.now ≡ graph.now }
    requires waiters { IsWaiters graph.now waiters.now }
    requires todo { length todo.now ≡ place_count (graph_in marks.now) }
    requires covered { IsCovered marks.now (IsPending todo.now 0) scanner.old }
    ensures idle { IsIdle marks.now scanner.new }
    ensures keeps { KeepsSeat scanner.old scanner.new }
    ensures covered { IsCovered marks.now (IsPending todo.now (place_count (graph_in marks.now))) scanner.new }
{
    if todo.is_empty() {
        return;
    }
    for place in 0..graph.nodes() + graph.sleepers() {
        settle_at(marks, graph, waiters, scanner, todo, place);
    }
}
