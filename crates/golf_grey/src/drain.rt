//! The end of a pool: each deque gets back its passes, and is emptied.
//!
//! An owner that has all parts back is alone with its deque. So it can take out all that is left.

ghost use Rattle.std.specs.Prelude.{◌≡◌, ◌+◌, ◌-◌, ◌<◌, ◌≤◌, ℕ, sum_by, length, remove, List as SpecList, [], ◌∷◌};
ghost use Rattle.std.specs.Prelude.{◌++◌};
ghost use mathlib.Core.Option.{some};
ghost use lib.ListN.{get_elem?};
ghost use Rattle.crossbeam_deque.specs.Handles.{view, IsPassOf, stealer_deque, worker_flavor, worker_view};
ghost use Rattle.golf_grey.specs.Rule.{all_parts};
ghost use Rattle.golf_grey.specs.declared.hand.GreyHand.{GreyHand as SpecHand};
ghost use Rattle.golf_grey.specs.Hands.{AllHandsIn, IsStage, IsRow, AllRows, left_in, row_weight, rows_weight};
ghost use Rattle.golf_grey.specs.Hands.{pushed_to, taken_from, pushed_in, taken_in, Thief as SpecThief};
ghost use Rattle.golf_grey.specs.Hands.{Owner as SpecOwner};

use crate::hand::GreyHand;
use crate::rule::{Deal, GreyView, Owner, Take, Thief};
use crossbeam_deque::Pass;
use golf_base::{List, Room};

// Removes the hand of this number from a list.
fn take_hand(rest: &mut List<GreyHand>, number: usize) -> GreyHand
    requires { (k : ℕ) × (h : SpecHand) × (get_elem? rest.old k ≡ some h) × (h.number ≡ number) }
    ensures from { (k : ℕ) × (get_elem? rest.old k ≡ some result) × (rest.new ≡ remove rest.old k) }
    ensures number { result.number ≡ number }
{
    for at in 0..rest.len() {
        if rest.as_slice()[at].number == number {
            return rest.remove(at);
        }
    }
    unreachable!()
}

// The owners in rising order of number, and all rows of passes.
pub(crate) fn take_apart(
    thieves: &Vec<Thief>,
    capacity: u32,
    places: u32,
    hands: List<GreyHand>,
) -> (Vec<Owner>, Vec<Vec<Pass<u32, GreyView>>>)
    requires hands { AllHandsIn thieves.now.items capacity places hands }
    requires some { 0 < length thieves.now.items }
    ensures stage { IsStage thieves.now.items (all_parts - length thieves.now.items) (length thieves.now.items) result.0.items }
    ensures rows { AllRows thieves.now.items result.1.items × (length result.1.items ≡ length thieves.now.items) }
    ensures pushed { (g : ℕ → ℕ → ℕ) → pushed_in g result.0.items ≡ pushed_to g hands }
    ensures taken { (g : ℕ → ℕ → ℕ) → taken_in g result.0.items + rows_weight g result.1.items ≡ taken_from g hands }
{
    let mut rest = hands;
    let first = take_hand(&mut rest, 0);
    let GreyHand {
        own,
        passes,
        number: _,
        mut owners,
        mut rows,
    } = first;
    owners.push_reserved(own);
    rows.push_reserved(passes);
    for number in 1..thieves.len() {
        let hand = take_hand(&mut rest, number);
        let GreyHand {
            own,
            passes,
            number: _,
            owners: _,
            rows: _,
        } = hand;
        owners.push_reserved(own);
        rows.push_reserved(passes);
    }
    (owners, rows)
}

// Merges a pass into its owner.
fn absorb_one(
    thieves: &Vec<Thief>,
    owners: &mut Vec<Owner>,
    j: usize,
    pass: Pass<u32, GreyView>,
    more: usize,
)
    requires low { j < length owners.old.items }
    requires more { more + 1 < all_parts }
    requires stage { IsStage thieves.now.items (all_parts - 1 - more) (j + 1) owners.old.items }
    requires pass { (t : SpecThief) → get_elem? thieves.now.items j ≡ some t → IsPassOf (stealer_deque t) pass }
    requires one { ((view pass).parts ≡ 1) × ((view pass).pushed ≡ []) }
    ensures stage { IsStage thieves.now.items (all_parts - 1 - more) j owners.new.items }
    ensures pushed { (g : ℕ → ℕ → ℕ) → pushed_in g owners.new.items ≡ pushed_in g owners.old.items }
    ensures taken { (g : ℕ → ℕ → ℕ) → taken_in g owners.new.items ≡ taken_in g owners.old.items + sum_by (g j) (view pass).taken }
{
    let owner = &mut owners[j];
    owner.absorb::<Deal>(pass);
}

// Merges a row of passes into the owners.
pub(crate) fn absorb_row(
    thieves: &Vec<Thief>,
    owners: &mut Vec<Owner>,
    row: Vec<Pass<u32, GreyView>>,
    more: usize,
)
    requires more { more + 1 < all_parts }
    requires stage { IsStage thieves.now.items (all_parts - 1 - more) (length thieves.now.items) owners.old.items }
    requires row { IsRow thieves.now.items row.items }
    ensures stage { IsStage thieves.now.items (all_parts - more) (length thieves.now.items) owners.new.items }
    ensures pushed { (g : ℕ → ℕ → ℕ) → pushed_in g owners.new.items ≡ pushed_in g owners.old.items }
    ensures taken { (g : ℕ → ℕ → ℕ) → taken_in g owners.new.items ≡ taken_in g owners.old.items + row_weight g row.items }
{
    let mut rest = row;
    while let Some(pass) = rest.pop() {
        let j = rest.len();
        absorb_one(thieves, owners, j, pass, more);
    }
}

// Moves all places that are left in a deque to the end of `left`.
fn drain(owner: Owner, left: &mut Room<u32>)
    requires flavor { worker_flavor owner ≡ 0 }
    requires all { (worker_view owner).parts ≡ all_parts }
    requires room { length (worker_view owner).pushed ≤ left.old.spare }
    ensures left { (more : SpecList ℕ) × (left.new.items ≡ left.old.items ++ more) × ((f : ℕ → ℕ) → sum_by f more + sum_by f (worker_view owner).taken ≡ sum_by f (worker_view owner).pushed) }
    ensures room { left.old.spare ≤ left.new.spare + length (worker_view owner).pushed }
{
    let mut owner = owner;
    while let Some(place) = owner.pop_as::<Take>() {
        left.push_ready(place);
    }
}

// All places that are left in the deques.
pub(crate) fn drain_all(owners: Vec<Owner>, left: Room<u32>) -> List<u32>
    requires owners { (j : ℕ) (w : SpecOwner) → get_elem? owners.items j ≡ some w → (worker_flavor w ≡ 0) × ((worker_view w).parts ≡ all_parts) }
    requires empty { left.items ≡ [] }
    requires room { pushed_in (λ _ _. 1) owners.items ≤ left.spare }
    ensures { (sources : SpecList ℕ) × (length sources ≡ length result) × ((g : ℕ → ℕ → ℕ) → left_in g sources result + taken_in g owners.items ≡ pushed_in g owners.items) }
{
    let mut left = left;
    let mut rest = owners;
    while let Some(owner) = rest.pop() {
        drain(owner, &mut left);
    }
    left.into_list()
}
