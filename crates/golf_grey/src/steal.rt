//! Steals from the deques of other hands.
//!
//! A steal is one try. It can fail although the deque is not empty, if another hand takes a place at the
//! same time.

ghost use Rattle.std.specs.Prelude.{◌≡◌, ◌≢◌, ◌+◌, ℕ, ◌<◌, ◌≤◌, length, sum_by, IfSome, IfNone};
ghost use mathlib.Core.Option.{some};
ghost use lib.ListN.{get_elem?};
ghost use Rattle.crossbeam_deque.specs.Handles.{view, IsPassOf, stealer_deque, stealer_flavor};
ghost use Rattle.golf_grey.specs.Hands.{FoundNone, FoundNoneBut, GreyPass, IsRow, RowKnows, option_weight, row_weight};

use crate::rule::{GreyView, Take, Thief};
use crossbeam_deque::{Pass, Steal};

// Tries one steal.
fn steal_one(thief: &Thief, pass: &mut Pass<u32, GreyView>) -> Option<u32>
    requires table { IsPassOf (stealer_deque thief.now) pass.old }
    requires live { (view pass.old).parts ≡ 1 }
    requires fifo { stealer_flavor thief.now ≡ 0 }
    ensures table { IsPassOf (stealer_deque thief.now) pass.new }
    ensures live { (view pass.new).parts ≡ (view pass.old).parts }
    ensures pushed { (view pass.new).pushed ≡ (view pass.old).pushed }
    ensures took { (f : ℕ → ℕ) → sum_by f (view pass.new).taken ≡ sum_by f (view pass.old).taken + option_weight f result }
    ensures knows { ((view pass.new).places ≡ (view pass.old).places) × ((view pass.new).capacity ≡ (view pass.old).capacity) }
    ensures few { length (view pass.old).taken ≤ (view pass.old).capacity → length (view pass.new).taken ≤ (view pass.old).capacity }
    ensures place { IfSome result (λ place. place < (view pass.old).places) }
    ensures none { IfNone result (FoundNone pass.old pass.new) }
{
    thief.steal_as::<Take>(pass).success()
}

// Tries one steal from one deque.
fn steal_at(thieves: &Vec<Thief>, passes: &mut Vec<Pass<u32, GreyView>>, j: usize) -> Option<u32>
    requires low { j < length thieves.now.items }
    requires row { IsRow thieves.now.items passes.old.items }
    ensures row { IsRow thieves.now.items passes.new.items }
    ensures took { (g : ℕ → ℕ → ℕ) → row_weight g passes.new.items ≡ row_weight g passes.old.items + option_weight (g j) result }
    ensures knows { (capacity places : ℕ) → RowKnows capacity places passes.old.items → RowKnows capacity places passes.new.items }
    ensures others { (k : ℕ) → k ≢ j → get_elem? passes.new.items k ≡ get_elem? passes.old.items k }
    ensures place { (capacity places : ℕ) → RowKnows capacity places passes.old.items → IfSome result (λ place. place < places) }
    ensures none { IfNone result ((p q : GreyPass) → get_elem? passes.old.items j ≡ some p → get_elem? passes.new.items j ≡ some q → FoundNone p q) }
{
    steal_one(&thieves[j], &mut passes[j])
}

// Tries one steal from each deque except for one, until it gets a place.
pub(crate) fn steal_all(
    thieves: &Vec<Thief>,
    passes: &mut Vec<Pass<u32, GreyView>>,
    number: usize,
) -> Option<u32>
    requires { IsRow thieves.now.items passes.old.items }
    ensures row { IsRow thieves.now.items passes.new.items }
    ensures took { (from : ℕ) × IfSome result (λ _. from < length thieves.now.items) × ((g : ℕ → ℕ → ℕ) → row_weight g passes.new.items ≡ row_weight g passes.old.items + option_weight (g from) result) }
    ensures knows { (capacity places : ℕ) → RowKnows capacity places passes.old.items → RowKnows capacity places passes.new.items }
    ensures unused { get_elem? passes.new.items number ≡ get_elem? passes.old.items number }
    ensures place { (capacity places : ℕ) → RowKnows capacity places passes.old.items → IfSome result (λ place. place < places) }
    ensures none { IfNone result (FoundNoneBut number passes.old.items passes.new.items) }
{
    for j in 0..thieves.len() {
        if j != number {
            if let Some(place) = steal_at(thieves, passes, j) {
                return Some(place);
            }
        }
    }
    None
}
