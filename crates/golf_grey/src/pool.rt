//! The pool: the deques of all hands, as thieves see them.
//!
//! Threads share it through a `&`, each with its own hand.

ghost use Rattle.std.specs.Prelude.{◌≡◌, ◌+◌, ◌*◌, ℕ, ◌<◌, ◌≤◌, ◌∷◌, [], ◌++◌, length, sum_by, IfSome, IfNone};
ghost use Rattle.std.specs.Prelude.{List as SpecList};

use crate::drain::{absorb_row, drain_all, take_apart};
use crate::hand::GreyHand;
use crate::rule::{Count, Push, Take, Thief};
use crate::steal::steal_all;
use golf_base::{List, Room};

/// The deques of all hands, shared by threads through a `&`.
#[derive(Drop)]
pub struct GreyPool {
    pub(crate) thieves: Vec<Thief>,
    pub(crate) capacity: u32,
    pub(crate) places: u32,
    pub(crate) left: Room<u32>,
    ghost some_hand: { 0 < length thieves.items },
    ghost none_left: { left.items ≡ [] },
    ghost left_room: { length thieves.items * capacity ≤ left.spare },
}

/// The places that were left in the deques of a pool.
#[derive(Debug, Drop)]
pub struct Left {
    pub places: List<u32>,
}

impl GreyPool {
    ghost use Rattle.golf_grey.specs.Hands.{AreAllHands, FindsNone, IsHandOf, IsSplit, capacity_of, hand_count, option_weight, places_of, pushed, taken_list, took, took_weight, pushed_by, taken_by};

    /// Adds a place to the hand's own deque. The hand has pushed less often than the pool's capacity, so
    /// the push cannot fail.
    pub fn push(&self, hand: &mut GreyHand, place: u32)
        requires hand { IsHandOf self.now hand.old }
        requires room { length (pushed hand.old) < capacity_of self.now }
        requires place { place < places_of self.now }
        ensures hand { IsHandOf self.now hand.new }
        ensures pushed { pushed hand.new ≡ pushed hand.old ++ place ∷ [] }
        ensures took { (g : ℕ → ℕ → ℕ) → took_weight g hand.new ≡ took_weight g hand.old }
        ensures number { hand.new.number ≡ hand.old.number }
    {
        match hand.own.push_as::<Push>(place) {
            Ok(()) => {}
            Err(_) => unreachable!(),
        }
    }

    /// Takes the first place of the hand's own deque, or else steals one. It tries each other deque once. A
    /// hand takes no more places than all hands together may push.
    ///
    /// It returns `None` only under two conditions:
    ///
    /// - The hand's own deque was empty at a step of this call.
    /// - Each other deque was empty at a step of this call, or another hand took a place between the steps
    ///   of the steal.
    pub fn take(&self, hand: &mut GreyHand) -> Option<u32>
        requires { IsHandOf self.now hand.old }
        ensures hand { IsHandOf self.now hand.new }
        ensures pushed { pushed hand.new ≡ pushed hand.old }
        ensures took { (f : ℕ → ℕ) → took f hand.new ≡ took f hand.old + option_weight f result }
        ensures from { (from : ℕ) × IfSome result (λ _. from < hand_count self.now) × ((g : ℕ → ℕ → ℕ) → took_weight g hand.new ≡ took_weight g hand.old + option_weight (g from) result) }
        ensures number { hand.new.number ≡ hand.old.number }
        ensures place { IfSome result (λ place. place < places_of self.now) }
        ensures list { (f : ℕ → ℕ) → sum_by f (taken_list hand.new) ≡ sum_by f (taken_list hand.old) + option_weight f result }
        ensures few { length (taken_list hand.new) ≤ hand_count self.now * capacity_of self.now }
        ensures none { IfNone result (FindsNone hand.old hand.new) }
    {
        if let Some(place) = hand.own.pop_as::<Take>() {
            return Some(place);
        }
        steal_all(&self.thieves, &mut hand.passes, hand.number)
    }

    /// Returns how many places were in the hand's own deque at one moment of the call. Other hands may have
    /// stolen some since. So no clause says anything about the number.
    pub fn len(&self, hand: &mut GreyHand) -> usize
        requires { IsHandOf self.now hand.old }
        ensures hand { IsHandOf self.now hand.new }
        ensures pushed { pushed hand.new ≡ pushed hand.old }
        ensures took { (g : ℕ → ℕ → ℕ) → took_weight g hand.new ≡ took_weight g hand.old }
        ensures number { hand.new.number ≡ hand.old.number }
    {
        hand.own.len_as::<Count>()
    }

    /// Ends the pool, and returns the places that are left in the deques, in any order. The places that
    /// hands pushed are those that hands took and those that are left, each as often. The same holds for
    /// each deque. It takes no memory.
    pub fn close(self, hands: List<GreyHand>) -> Left
        requires { AreAllHands self hands }
        ensures all { (f : ℕ → ℕ) → pushed_by f hands ≡ taken_by f hands + sum_by f result.places }
        ensures each { (sources : SpecList ℕ) × IsSplit hands result.places sources }
    {
        let GreyPool {
            thieves,
            capacity,
            places,
            left,
        } = self;
        let (mut owners, mut rows) = take_apart(&thieves, capacity, places, hands);
        while let Some(row) = rows.pop() {
            let more = rows.len();
            absorb_row(&thieves, &mut owners, row, more);
        }
        let places = drain_all(owners, left);
        Left { places }
    }
}
