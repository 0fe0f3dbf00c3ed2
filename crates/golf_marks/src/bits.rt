//! Places as bits of words.
//!
//! A word has 64 places. The place p is bit p % 64 of word p / 64.

ghost use Rattle.std.specs.Prelude.{◌≡◌};
ghost use Rattle.golf_marks.specs.Bits.{bit_in, mask_of};

// The bit of a place in its word: 0 or 1.
#[tactic(auto, unfolding(crate::specs::Bits::bit_in))]
pub(crate) fn bit(word: u64, place: usize) -> u64
    ensures { result ≡ bit_in place word }
{
    (word >> (place % 64)) & 1
}

// The word in which only the bit of the place is set.
pub(crate) fn mask(place: usize) -> u64
    ensures { result ≡ mask_of place }
{
    1 << (place % 64)
}
