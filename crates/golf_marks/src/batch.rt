//! Some places of one mark word, which one step claims or looks at.

ghost use Rattle.std.specs.Prelude.{◌^◌, ◌/◌, ◌≡◌, ◌<◌, ◌∷◌, ◌⊎◌, ◌↔◌, ℕ, [], IsTrue, MatchOption};

use crate::bits::mask;

/// Some places of one mark word. There may be none.
#[derive(Drop)]
pub struct Batch {
    pub(crate) word: u32,
    pub(crate) bits: u64,
    ghost low: { word < 2 ^ 26 },
}

impl Batch {
    ghost use Rattle.golf_theory.specs.Membership.{In};
    ghost use Rattle.golf_marks.specs.Batches.{batched};
    ghost use Rattle.golf_marks.specs.Bits.{marked_in, unset_in};

    /// Returns the batch of this one place.
    #[inline(always)]
    pub fn of(place: u32) -> Batch
        ensures word { result.word ≡ place / 64 }
        ensures place { batched result ≡ place ∷ [] }
    {
        Batch {
            word: place / 64,
            bits: mask(place as usize),
        }
    }

    /// Returns whether there is no place.
    #[inline(always)]
    pub fn is_empty(&self) -> bool
        ensures { IsTrue result ↔ (batched self.now ≡ []) }
    {
        self.bits == 0
    }

    /// Returns whether a place is in the word of the batch.
    #[inline(always)]
    pub fn is_beside(&self, place: u32) -> bool
        ensures { IsTrue result ↔ (place / 64 ≡ self.now.word) }
    {
        place / 64 == self.word
    }

    /// Takes out all places, and moves the batch to the word of this place.
    #[inline(always)]
    pub fn renew(&mut self, place: u32)
        ensures word { self.new.word ≡ place / 64 }
        ensures none { batched self.new ≡ [] }
    {
        self.word = place / 64;
        self.bits = 0;
    }

    /// Adds a place, which is in the word of the batch.
    #[inline(always)]
    pub fn insert(&mut self, place: u32)
        requires { place / 64 ≡ self.old.word }
        ensures word { self.new.word ≡ self.old.word }
        ensures added { (p : ℕ) → In p (batched self.new) ↔ (In p (batched self.old) ⊎ (p ≡ place)) }
    {
        self.bits |= mask(place as usize);
    }

    /// Takes the lowest place, or returns `None`.
    #[inline(always)]
    pub fn pop(&mut self) -> Option<u32>
        ensures word { self.new.word ≡ self.old.word }
        ensures place { MatchOption result ((batched self.old ≡ []) × (self.new ≡ self.old)) (λ place. batched self.old ≡ place ∷ batched self.new) }
    {
        if self.bits == 0 {
            return None;
        }
        let lowest = self.bits.trailing_zeros();
        self.bits = self.bits & (self.bits - 1);
        Some(64 * self.word + lowest)
    }
    // The places whose bits are not set in this word.
    #[inline(always)]
    pub(crate) fn without(&self, word: u64) -> Batch
        ensures word { result.word ≡ self.now.word }
        ensures places { batched result ≡ marked_in self.now.word (unset_in self.now.bits word) }
    {
        Batch {
            word: self.word,
            bits: self.bits & !word,
        }
    }
}
