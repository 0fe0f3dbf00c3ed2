//! Makes a pool and its hands.
//!
//! It takes all memory that the pool needs until its end.

ghost use Rattle.std.specs.Prelude.{◌≡◌, ◌<◌, length, IfOk};
ghost use Rattle.crossbeam_deque.specs.Handles.{worker_flavor, worker_view};

use crate::hand::GreyHand;
use crate::made::{make_owners, make_rows};
use crate::pool::GreyPool;
use crate::rule::{GreyView, Owner};
use crossbeam_deque::Pass;
use golf_base::{List, Memory, Room};
use std::alloc::Global;

impl GreyPool {
    ghost use Rattle.golf_grey.specs.Hands.{AreAllHands, AreNewHands, FallTo0, capacity_of, hand_count, places_of};

    /// Returns a pool, and its hands by falling number. Each hand may push `capacity` times, and only
    /// places below `places`. The only error is `Memory`.
    pub fn new(
        alloc: Global,
        hands: u32,
        capacity: u32,
        places: u32,
    ) -> Result<(GreyPool, List<GreyHand>), Memory>
        requires { 0 < hands }
        ensures count { IfOk result (λ r. length r.1 ≡ hands) }
        ensures hand_count { IfOk result (λ r. hand_count r.0 ≡ hands) }
        ensures capacity { IfOk result (λ r. capacity_of r.0 ≡ capacity) }
        ensures places { IfOk result (λ r. places_of r.0 ≡ places) }
        ensures all { IfOk result (λ r. AreAllHands r.0 r.1) }
        ensures falling { IfOk result (λ r. FallTo0 (hand_count r.0) r.1) }
        ensures new { IfOk result (λ r. AreNewHands r.1) }
    {
        let (mut owners, thieves) = make_owners(alloc, hands, capacity, places)?;
        let mut rows = make_rows(alloc, &thieves, &mut owners, capacity, places, hands)?;
        let mut list = Vec::with_capacity(alloc, hands as usize)?;
        while let Some(own) = owners.pop() {
            let Some(passes) = rows.pop() else {
                unreachable!()
            };
            let number = owners.len();
            let spare_owners = Vec::with_capacity(alloc, hands as usize)?;
            let spare_rows = Vec::with_capacity(alloc, hands as usize)?;
            list.push(make_hand(own, passes, number, spare_owners, spare_rows))?;
        }
        let left_room = (hands as usize)
            .checked_mul(capacity as usize)
            .ok_or(Memory)?;
        let mut left = Room::new(alloc);
        left.reserve(left_room)?;
        let pool = GreyPool {
            thieves,
            capacity,
            places,
            left,
        };
        Ok((pool, List::from_vec(list)))
    }
}

fn make_hand(
    own: Owner,
    passes: Vec<Pass<u32, GreyView>>,
    number: usize,
    owners: Vec<Owner>,
    rows: Vec<Vec<Pass<u32, GreyView>>>,
) -> GreyHand
    requires { (worker_flavor own ≡ 0) × (0 < (worker_view own).parts) }
    ensures { (result.own ≡ own) × (result.passes ≡ passes) × (result.number ≡ number) × (result.owners ≡ owners) × (result.rows ≡ rows) }
{
    GreyHand {
        own,
        passes,
        number,
        owners,
        rows,
    }
}
