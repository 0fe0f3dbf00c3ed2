//! Tests of the seats of mark words: their claims and looks, and of batches of places.

ghost use Rattle.std.specs.Prelude.{◌≡◌, ◌<◌, ◌∷◌, [], length, IfOk};
ghost use Rattle.golf_theory.specs.Membership.{Every, In};
ghost use Rattle.golf_marks.specs.Places.{place_count};
ghost use Rattle.golf_marks.specs.Seats.{graph_in, part_count, seat_count, IsSeatOf, IsSameSeat, IsNewSeatOf};

use golf_base::{List, Memory};
use golf_marks::{Batch, MarkSeat, Marks};
use golf_model::{Graph, Marked};
use golf_tests_support::{GraphFault, GraphMaker};
use std::alloc::Global;
use std::test::Fail;

// A graph of two nodes, both roots, and a goroutine that waits on no object.
fn two_roots(alloc: Global) -> Result<Graph, GraphFault>
    ensures roots { IfOk result (λ graph. graph.roots ≡ 0 ∷ 1 ∷ []) }
    ensures nodes { IfOk result (λ graph. length graph.children ≡ 2) }
    ensures sleepers { IfOk result (λ graph. length graph.sleepers ≡ 1) }
{
    let maker = GraphMaker::new(alloc, 2).node(alloc, &[])?;
    let maker = maker.node(alloc, &[])?.root(0)?.root(1)?;
    maker.sleeper(alloc, &[], &[])?.finish()
}

// Two seats of new words for that graph.
fn two_seats(alloc: Global) -> Result<(Marks, MarkSeat, MarkSeat), GraphFault>
    ensures roots { IfOk result (λ r. (graph_in r.0).roots ≡ 0 ∷ 1 ∷ []) }
    ensures places { IfOk result (λ r. place_count (graph_in r.0) ≡ 3) }
    ensures count { IfOk result (λ r. seat_count r.0 ≡ 2) }
    ensures first { IfOk result (λ r. IsNewSeatOf r.0 r.1) }
    ensures second { IfOk result (λ r. IsNewSeatOf r.0 r.2) }
{
    let graph = two_roots(alloc)?;
    let (marks, mut seats) = Marks::new(alloc, &graph, 2)?;
    let first = seats.remove(0);
    let second = seats.remove(0);
    Ok((marks, first, second))
}

fn both(alloc: Global, first: MarkSeat, second: MarkSeat) -> Result<List<MarkSeat>, Memory>
    ensures { IfOk result (λ seats. seats ≡ first ∷ second ∷ []) }
{
    let mut seats = List::new(alloc);
    seats.push(first)?;
    seats.push(second)?;
    Ok(seats)
}

// Claims a root, and returns whether this set its bit.
fn claims(marks: &Marks, seat: &mut MarkSeat, root: u32) -> bool
    requires seat { IsSeatOf marks.now seat.old }
    requires place { root < place_count (graph_in marks.now) }
    requires root { In root (graph_in marks.now).roots }
    ensures { IsSameSeat seat.old seat.new }
{
    !marks.claim(seat, &Batch::of(root)).is_empty()
}

// The first seat claims place 0. Then the second seat looks at both places, and claims place 0.
fn look(marks: &Marks, first: &mut MarkSeat, second: &mut MarkSeat) -> [bool; 4]
    requires first { IsSeatOf marks.now first.old }
    requires second { IsSeatOf marks.now second.old }
    requires places { 1 < place_count (graph_in marks.now) }
    requires root { In 0 (graph_in marks.now).roots }
    ensures first { IsSameSeat first.old first.new }
    ensures second { IsSameSeat second.old second.new }
{
    let claimed = claims(marks, first, 0);
    let sees_first = marks.is_marked(second, 0);
    let sees_second = marks.is_marked(second, 1);
    let claimed_again = claims(marks, second, 0);
    [claimed, sees_first, sees_second, claimed_again]
}

// The first seat claims place 0. Then the second seat glances at both places: which are not marked?
fn glance(marks: &Marks, first: &mut MarkSeat, second: &mut MarkSeat) -> [bool; 2]
    requires first { IsSeatOf marks.now first.old }
    requires second { IsSeatOf marks.now second.old }
    requires places { 1 < place_count (graph_in marks.now) }
    requires root { In 0 (graph_in marks.now).roots }
    ensures first { IsSameSeat first.old first.new }
    ensures second { IsSameSeat second.old second.new }
{
    let _claimed = marks.claim(first, &Batch::of(0));
    let first_is_left = !marks.glance(second, &Batch::of(0)).is_empty();
    let second_is_left = !marks.glance(second, &Batch::of(1)).is_empty();
    [first_is_left, second_is_left]
}

// Whether exactly these places are flagged, in this order, and no sleeper is awake.
fn is_so(marked: &Marked, flags: &[bool], order: &[u32]) -> bool {
    let same = marked.flags.as_slice() == flags && marked.order.as_slice() == order;
    same && marked.awake.as_slice() == [false].as_slice()
}

// Ends the marking, and returns whether exactly these places are flagged, in this order.
fn ends_so(marks: Marks, seats: List<MarkSeat>, flags: &[bool], order: &[u32]) -> bool
    requires seats { Every (IsSeatOf marks) seats }
    requires all { part_count seats ≡ seat_count marks }
{
    let marked = marks.close(seats);
    is_so(&marked, flags, order)
}

#[test]
fn a_seat_sees_what_another_one_claimed(rt: HostRuntime) -> Result<(), Fail> {
    let alloc = rt.alloc();
    let (marks, mut first, mut second) = two_seats(alloc)?;
    let seen = look(&marks, &mut first, &mut second);
    let ended = ends_so(marks, both(alloc, first, second)?, &[true, false], &[0]);
    assert!(rt; ended && seen == [true, true, false, false]);
    Ok(())
}

#[test]
fn a_glance_sees_what_another_seat_claimed(rt: HostRuntime) -> Result<(), Fail> {
    let alloc = rt.alloc();
    let (marks, mut first, mut second) = two_seats(alloc)?;
    let left = glance(&marks, &mut first, &mut second);
    let ended = ends_so(marks, both(alloc, first, second)?, &[true, false], &[0]);
    assert!(rt; ended && left == [false, true]);
    Ok(())
}

fn only(alloc: Global, seat: MarkSeat) -> Result<List<MarkSeat>, Memory>
    ensures { IfOk result (λ seats. seats ≡ seat ∷ []) }
{
    let mut seats = List::new(alloc);
    seats.push(seat)?;
    Ok(seats)
}

#[test]
fn a_joined_seat_stands_for_both(rt: HostRuntime) -> Result<(), Fail> {
    let alloc = rt.alloc();
    let (marks, mut first, mut second) = two_seats(alloc)?;
    let claimed = claims(&marks, &mut second, 1);
    marks.join(&mut first, second);
    let known = marks.is_marked(&mut first, 1);
    let ended = ends_so(marks, only(alloc, first)?, &[false, true], &[1]);
    assert!(rt; ended && claimed && known);
    Ok(())
}

// Whether a batch gives the places 128, 130 and 191, which are added in another order, in rising order, and
// then none.
fn gives_in_order() -> bool {
    let mut batch = Batch::of(130);
    batch.insert(191);
    batch.insert(128);
    let first = batch.pop() == Some(128) && batch.pop() == Some(130);
    first && !batch.is_empty() && batch.pop() == Some(191) && batch.pop().is_none()
}

// Whether a batch knows the places of its word, and gives only what is added after it moved to another word.
fn moves_on() -> bool {
    let mut batch = Batch::of(63);
    let here = batch.is_beside(0) && !batch.is_beside(64);
    batch.renew(64);
    let empty = batch.is_empty();
    batch.insert(127);
    here && empty && batch.pop() == Some(127) && batch.is_empty()
}

#[test]
fn a_batch_gives_its_places_in_rising_order(rt: HostRuntime) -> Result<(), Fail> {
    assert!(rt; gives_in_order());
    Ok(())
}

#[test]
fn a_batch_that_moves_on_has_only_what_is_added_after(rt: HostRuntime) -> Result<(), Fail> {
    assert!(rt; moves_on());
    Ok(())
}
