//! Where the entries stand: the index of a block, and an index there.
//!
//! Nothing is assumed of a spot. It is checked where it is used, and else the key is searched for.

ghost use Rattle.std.specs.Prelude.{◌≡◌, true, slice_get, is_some, IfSome};
ghost use Rattle.golf_theory.specs.Maps.{find};
ghost use Rattle.golf_blocks.specs.Blocks.{AreBlocks, entries_in};
ghost use Rattle.golf_blocks.specs.Spots.{has_key, entry_in};

use crate::blocks::{Block, block_of};
use crate::entries::rank_of;

/// Where an entry may be: the index of its block, and its index in that block.
#[derive(Clone, Copy, Debug)]
pub struct Spot {
    pub block: usize,
    pub index: usize,
}

/// Returns the spot of the key if all keys from 0 on are there.
#[inline(always)]
pub fn guess(key: u32) -> Spot {
    Spot {
        block: (key / 512) as usize,
        index: (key % 512) as usize,
    }
}

// Whether the key is at this spot.
#[inline(always)]
fn is_at<V: Drop>(blocks: &[Block<V>], spot: Spot, key: u32) -> bool
    ensures { result ≡ has_key key (entry_in spot.index (slice_get blocks.now spot.block)) }
{
    let block = match blocks.get(spot.block) {
        Some(block) => block,
        None => return false,
    };
    match block.entries.as_slice().get(spot.index) {
        Some(entry) => key == entry.0,
        None => false,
    }
}

// Returns the spot of the key, found by two binary searches, or `None`.
fn searched<V: Drop>(blocks: &[Block<V>], key: u32) -> Option<Spot>
    requires { AreBlocks 0 blocks.now }
    ensures spot { IfSome result (λ s. has_key key (entry_in s.index (slice_get blocks.now s.block)) ≡ true) }
    ensures there { is_some result ≡ is_some (find key (entries_in blocks.now)) }
{
    let block = block_of(blocks, key);
    if block >= blocks.len() {
        return None;
    }
    let index = rank_of(blocks[block].entries.as_slice(), key);
    let spot = Spot { block, index };
    if is_at(blocks, spot, key) {
        Some(spot)
    } else {
        None
    }
}

/// Returns the spot of the key, or `None`. It looks first at the spot that the key has if all keys from 0
/// on are there, and then at the one that is given.
#[inline(always)]
pub fn spot_of<V: Drop>(blocks: &[Block<V>], near: Spot, key: u32) -> Option<Spot>
    requires { AreBlocks 0 blocks.now }
    ensures spot { IfSome result (λ s. has_key key (entry_in s.index (slice_get blocks.now s.block)) ≡ true) }
    ensures there { is_some result ≡ is_some (find key (entries_in blocks.now)) }
{
    let spot = guess(key);
    if is_at(blocks, spot, key) {
        return Some(spot);
    }
    if is_at(blocks, near, key) {
        return Some(near);
    }
    searched(blocks, key)
}
