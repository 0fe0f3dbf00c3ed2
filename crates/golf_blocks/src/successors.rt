//! The least key from a given one on.
//!
//! It is in the block that the given key belongs to, or it is the first of the block after that.

ghost use Rattle.std.specs.Prelude.{◌≡◌, drop, option_map, slice_get};
ghost use Rattle.golf_theory.specs.Maps.{rank};
ghost use Rattle.golf_blocks.specs.Blocks.{AreBlocks, AreFilled, entries_in};

use crate::blocks::{Block, block_of};
use crate::entries::rank_of;

// Returns the first key of the block at this place, or `None`.
fn first_from<V: Drop>(blocks: &[Block<V>], at: usize) -> Option<u32>
    requires { AreFilled blocks.now }
    ensures { result ≡ option_map (λ e. e.0) (slice_get (entries_in (drop at blocks.now)) 0) }
{
    let block = blocks.get(at)?;
    let entry = block.entries.as_slice().get(0)?;
    Some(entry.0)
}

/// Returns the least key from this one on, or `None`.
pub fn next_in<V: Drop>(blocks: &[Block<V>], key: u32) -> Option<u32>
    requires blocks { AreBlocks 0 blocks.now }
    requires filled { AreFilled blocks.now }
    ensures { result ≡ option_map (λ e. e.0) (slice_get (entries_in blocks.now) (rank key (entries_in blocks.now))) }
{
    let at = block_of(blocks, key);
    if at >= blocks.len() {
        return None;
    }
    let entries = blocks[at].entries.as_slice();
    let index = rank_of(entries, key);
    if index < entries.len() {
        return Some(entries[index].0);
    }
    first_from(blocks, at + 1)
}
