//! The seats of a new table of mark words, one for each thread.
//!
//! Each seat has one part. The words can be closed when all parts are together again.

ghost use Rattle.std.specs.Prelude.{◌≡◌, ◌<◌, [], IfOk, length};
ghost use Rattle.golf_theory.specs.Membership.{Every};
ghost use Rattle.golf_marks.specs.Rule.{view_of};
ghost use Rattle.golf_marks.specs.Seats.{graph_in, IsNewSeatOf};

use crate::marks::{MarkSeat, Marks};
use crate::rule::{Deal, View};
use atomic_table::Seat;
use golf_base::{List, Memory};
use std::alloc::Global;

fn new_seat(seat: Seat<(), View>) -> MarkSeat
    requires { (0 < seat.me.0.parts) × (seat.me.1 ≡ []) }
    ensures { result.seat ≡ seat }
{
    MarkSeat { seat }
}

// Cuts the first seat, which has all parts, into `seats` seats of one part each.
pub(crate) fn deal(
    alloc: Global,
    marks: &Marks,
    mut first: Seat<(), View>,
    seats: u32,
) -> Result<List<MarkSeat>, Memory>
    requires count { 0 < seats }
    requires table { first.table_id ≡ marks.now.table.shared.table_id }
    requires view { first.me ≡ (view_of (graph_in marks.now) seats [] [], []) }
    requires words { 0 < marks.now.table.shared.table_id.words }
    ensures count { IfOk result (λ list. length list ≡ seats) }
    ensures seats { IfOk result (λ list. Every (IsNewSeatOf marks.now) list) }
{
    let mut list = List::new(alloc);
    for _ in 1..seats {
        let seat = marks.table.shared.split_seat::<Deal>(&mut first);
        list.push(new_seat(seat))?;
    }
    list.push(new_seat(first))?;
    Ok(list)
}
