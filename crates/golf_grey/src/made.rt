//! Makes the deques with their passes.
//!
//! Each hand gets its own deque, and a row with one pass for each deque.
ghost use Rattle.std.specs.Prelude.{◌≡◌, ◌+◌, ◌-◌, ◌<◌, ◌≤◌, ℕ, length, IfOk, OnOk, vec_len};
ghost use Rattle.golf_grey.specs.Rule.{all_parts};
ghost use Rattle.golf_grey.specs.Hands.{IsStage, AllFresh, RowFits, IsRow, row_weight, AreNewRows, RowIsNew};

use crate::named::make_owner;
use crate::rule::{Deal, GreyView, Owner, Thief};
use crossbeam_deque::Pass;
use golf_base::Memory;
use std::alloc::Global;

// A deque for each hand.
pub(crate) fn make_owners(
    alloc: Global,
    hands: u32,
    capacity: u32,
    places: u32,
) -> Result<(Vec<Owner>, Vec<Thief>), Memory>
    ensures count { IfOk result (λ r. (vec_len r.0 ≡ hands) × (vec_len r.1 ≡ hands)) }
    ensures stage { IfOk result (λ r. IsStage r.1.items all_parts hands r.0.items) }
    ensures fresh { IfOk result (λ r. AllFresh capacity places r.0.items) }
{
    let mut owners = Vec::with_capacity(alloc, hands as usize)?;
    let mut thieves = Vec::with_capacity(alloc, hands as usize)?;
    for _i in 0..hands {
        let owner = make_owner(alloc, capacity, places)?;
        thieves.push(owner.stealer()?)?;
        owners.push(owner)?;
    }
    Ok((owners, thieves))
}

// Cuts a pass of one deque off its owner, which then has one part less.
fn make_pass(
    thieves: &Vec<Thief>,
    owners: &mut Vec<Owner>,
    row: &mut Vec<Pass<u32, GreyView>>,
    capacity: u32,
    places: u32,
    made: u32,
    j: usize,
) -> Result<(), Memory>
    requires low { j < length owners.old.items }
    requires made { made + 2 ≤ all_parts }
    requires stage { IsStage thieves.now.items (all_parts - 1 - made) j owners.old.items }
    requires fresh { AllFresh capacity places owners.old.items }
    requires row { RowFits thieves.now.items row.old.items × (length row.old.items ≡ j) × ((g : ℕ → ℕ → ℕ) → row_weight g row.old.items ≡ 0) }
    requires row_new { RowIsNew capacity places row.old.items }
    ensures stage { OnOk result (IsStage thieves.now.items (all_parts - 1 - made) (j + 1) owners.new.items) }
    ensures fresh { OnOk result (AllFresh capacity places owners.new.items) }
    ensures row { OnOk result (RowFits thieves.now.items row.new.items × (length row.new.items ≡ j + 1) × ((g : ℕ → ℕ → ℕ) → row_weight g row.new.items ≡ 0)) }
    ensures row_new { OnOk result (RowIsNew capacity places row.new.items) }
    ensures len { length owners.new.items ≡ length owners.old.items }
{
    let owner = &mut owners[j];
    let pass = owner.another::<Deal>();
    row.push(pass)?;
    Ok(())
}

// Makes a row: a pass of each deque.
fn make_row(
    alloc: Global,
    thieves: &Vec<Thief>,
    owners: &mut Vec<Owner>,
    capacity: u32,
    places: u32,
    made: u32,
) -> Result<Vec<Pass<u32, GreyView>>, Memory>
    requires made { made + 2 ≤ all_parts }
    requires stage { IsStage thieves.now.items (all_parts - 1 - made) 0 owners.old.items }
    requires fresh { AllFresh capacity places owners.old.items }
    ensures stage { OnOk result (IsStage thieves.now.items (all_parts - 1 - made) (length owners.new.items) owners.new.items) }
    ensures fresh { OnOk result (AllFresh capacity places owners.new.items) }
    ensures row { IfOk result (λ r. IsRow thieves.now.items r.items × ((g : ℕ → ℕ → ℕ) → row_weight g r.items ≡ 0)) }
    ensures row_new { IfOk result (λ r. RowIsNew capacity places r.items) }
    ensures len { length owners.new.items ≡ length owners.old.items }
{
    let count = owners.len();
    let mut row = Vec::with_capacity(alloc, count)?;
    for j in 0..count {
        make_pass(thieves, owners, &mut row, capacity, places, made, j)?;
    }
    Ok(row)
}

// Makes a row for each hand.
pub(crate) fn make_rows(
    alloc: Global,
    thieves: &Vec<Thief>,
    owners: &mut Vec<Owner>,
    capacity: u32,
    places: u32,
    hands: u32,
) -> Result<Vec<Vec<Pass<u32, GreyView>>>, Memory>
    requires count { vec_len owners.old ≡ hands }
    requires stage { IsStage thieves.now.items all_parts hands owners.old.items }
    requires fresh { AllFresh capacity places owners.old.items }
    ensures stage { OnOk result (IsStage thieves.now.items (all_parts - hands) hands owners.new.items) }
    ensures fresh { OnOk result (AllFresh capacity places owners.new.items) }
    ensures rows { IfOk result (λ r. (vec_len r ≡ hands) × AreNewRows thieves.now.items capacity places r.items) }
    ensures len { vec_len owners.new ≡ vec_len owners.old }
{
    let mut rows = Vec::with_capacity(alloc, hands as usize)?;
    for made in 0..hands {
        rows.push(make_row(alloc, thieves, owners, capacity, places, made)?)?;
    }
    Ok(rows)
}
