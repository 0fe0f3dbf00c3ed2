//! Full blocks, which are split in halves of 256.
//!
//! On an `Err` the entries are unchanged.

ghost use Rattle.std.specs.Prelude.{◌≡◌, ◌<◌, ◌+◌, ◌^◌, true, false, if◌then◌else◌, nat_lt, length, slice_get, IfOk};
ghost use Rattle.golf_theory.specs.Maps.{rank};
ghost use Rattle.golf_blocks.specs.Blocks.{AreBlocks, AreFilled, has_room, keyed_blocks, entries_in};

use crate::blocks::{Block, cut};
use golf_base::Memory;

// Returns the place of the half that the key belongs to. The first half is the block at `at`.
fn half_of<V: Drop>(block: &Block<V>, at: usize, key: u32) -> usize
    requires { at + 1 < 2 ^ 64 }
    ensures { result ≡ (if nat_lt block.now.top key then at + 1 else at) }
{
    if block.top < key { at + 1 } else { at }
}

// Splits the full block that the key belongs to. Returns the place of the half that it belongs to now.
fn split<V: Drop>(blocks: &mut Vec<Block<V>>, at: usize, key: u32) -> Result<usize, Memory>
    requires blocks { AreBlocks 0 blocks.old.items }
    requires filled { AreFilled blocks.old.items }
    requires within { at < length blocks.old.items }
    requires place { at ≡ rank key (keyed_blocks blocks.old.items) }
    requires full { has_room (slice_get blocks.old.items at) ≡ false }
    ensures blocks { AreBlocks 0 blocks.new.items }
    ensures filled { AreFilled blocks.new.items }
    ensures entries { entries_in blocks.new.items ≡ entries_in blocks.old.items }
    ensures place { IfOk result (λ i. i ≡ rank key (keyed_blocks blocks.new.items)) }
    ensures within { IfOk result (λ i. i < length blocks.new.items) }
    ensures room { IfOk result (λ i. has_room (slice_get blocks.new.items i) ≡ true) }
{
    blocks.reserve(1)?;
    let others = cut(&mut blocks[at], 256)?;
    let place = half_of(&blocks[at], at, key);
    let _ = blocks.insert(at + 1, others);
    Ok(place)
}

/// Makes room for one more entry in the block that the key belongs to, and returns the place of that
/// block.
pub fn make_room<V: Drop>(blocks: &mut Vec<Block<V>>, at: usize, key: u32) -> Result<usize, Memory>
    requires blocks { AreBlocks 0 blocks.old.items }
    requires filled { AreFilled blocks.old.items }
    requires within { at < length blocks.old.items }
    requires place { at ≡ rank key (keyed_blocks blocks.old.items) }
    ensures blocks { AreBlocks 0 blocks.new.items }
    ensures filled { AreFilled blocks.new.items }
    ensures entries { entries_in blocks.new.items ≡ entries_in blocks.old.items }
    ensures place { IfOk result (λ i. i ≡ rank key (keyed_blocks blocks.new.items)) }
    ensures within { IfOk result (λ i. i < length blocks.new.items) }
    ensures room { IfOk result (λ i. has_room (slice_get blocks.new.items i) ≡ true) }
{
    if blocks[at].entries.len() < 512 {
        return Ok(at);
    }
    let place = split(blocks, at, key)?;
    Ok(place)
}
