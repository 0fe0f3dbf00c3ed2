//! Slots that are cleared, and words that know which slots hold 0.
//!
//! A turn clears the slots that no instruction can read any more, so that they do not keep their
//! objects. Bit i of a word is 1 only if slot i holds 0 or does not exist. So a turn visits only the slots
//! that died in it.

ghost use Rattle.std.specs.Prelude.{◌≡◌, ◌<◌, ◌≤◌, ℕ, true, false, pos, length, slice_set};
ghost use Rattle.golf_data.specs.declared.value.Value.{Value};
ghost use Rattle.golf_data.specs.Masks.{has_bit};
ghost use Rattle.golf_data.specs.Slots.{cleared_slots};
ghost use Rattle.golf_data.specs.Zeros.{stays_but, stays_until};

use crate::value::Value;

/// Returns the word whose bits from n on are set.
#[tactic(auto, using(crate::proofs::Masks::from_place, crate::proofs::Masks::at_place))]
pub fn ones_from(n: usize) -> u64
    ensures only { (i : ℕ) → i < 64 → has_bit result i ≡ true → n ≤ i }
    ensures all { (i : ℕ) → i < 64 → n ≤ i → has_bit result i ≡ true }
{
    if n < 64 { u64::MAX << n } else { 0 }
}

/// Returns the word with this bit cleared.
#[tactic(auto, using(crate::proofs::Masks::without_others, crate::proofs::Masks::without_own))]
pub fn without(word: u64, at: usize) -> u64
    requires { at < 64 }
    ensures others { (i : ℕ) → i < 64 → (i ≡ at → ⊥) → has_bit result i ≡ has_bit word i }
    ensures own { has_bit result at ≡ false }
    ensures at_most { result ≤ word }
{
    word & !(1 << at)
}

// Stores 0 in the slot of this place, if it exists.
fn clear_one(slots: &mut [Value], at: usize)
    ensures { slots.new ≡ slice_set slots.old at (Value.Int (pos 0)) }
{
    if at < slots.len() {
        slots[at] = Value::Int(0);
    }
}

/// Stores 0 in the slots whose bits are set, from the lowest bit to the highest.
#[tactic(auto, using(crate::proofs::Clears::by_bits))]
pub fn clear_bits(slots: &mut [Value], dead: u64)
    ensures { slots.new ≡ cleared_slots (stays_but dead) slots.old }
{
    let mut left = dead;
    while left != 0 {
        let at = left.trailing_zeros() as usize;
        clear_one(slots, at);
        left = without(left, at);
    }
}

/// Stores 0 in the first `count` slots.
#[tactic(auto, using(crate::proofs::Clears::by_places))]
pub fn clear_first(slots: &mut [Value], count: usize)
    requires { count ≤ length slots.old }
    ensures { slots.new ≡ cleared_slots (stays_until count (λ i. false)) slots.old }
{
    for at in 0..count {
        slots[at] = Value::Int(0);
    }
}
