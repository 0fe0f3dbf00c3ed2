//! Blocks of running goroutines are added, and removed if they are not needed.
//!
//! A block is needed if a goroutine of its numbers runs, or is there: then it can start to run.

ghost use Rattle.std.specs.Prelude.{◌≡◌, ◌≤◌, ◌<◌, ◌+◌, ◌*◌, ◌^◌, ◌&&◌, ℕ, false, true, nat_lt, length, slice_get, OnOk};
ghost use Rattle.golf_theory.specs.Maps.{rank};
ghost use Rattle.golf_theory.specs.Membership.{In};
ghost use Rattle.golf_state_goroutines.specs.RunBlocks.{AreRunBlocks, block_keys, keyed_blocks, running_in};
ghost use Rattle.golf_state_goroutines.specs.RunLists.{has_place, is_needed, is_open};
ghost use Rattle.golf_state_goroutines.specs.Sums.{HasSums};

use crate::run_blocks::RunBlock;
use crate::sums::recount;
use golf_base::Memory;
use golf_blocks::BlockMap;

/// Returns whether the block at this place is there, and has the key.
#[inline(always)]
pub fn is_open(blocks: &[RunBlock], at: usize, key: u32) -> bool
    ensures { result ≡ is_open key (slice_get blocks.now at) }
{
    match blocks.get(at) {
        Some(block) => block.key == key,
        None => false,
    }
}

// Makes room in the sums for one more block.
fn make_sum(blocks: &[RunBlock], sums: &mut Vec<usize>) -> Result<(), Memory>
    requires { HasSums blocks.now sums.old.items }
    ensures sums { HasSums blocks.now sums.new.items }
    ensures more { OnOk result (length blocks.now + 1 ≤ 64 * length sums.new.items) }
{
    if blocks.len() / 64 >= sums.len() {
        sums.push(0)?;
    }
    Ok(())
}

/// Adds a block in which no goroutine runs at this place, which is that of its key.
pub fn add_block(
    blocks: &mut Vec<RunBlock>,
    sums: &mut Vec<usize>,
    at: usize,
    key: u32,
) -> Result<(), Memory>
    requires blocks { AreRunBlocks 0 blocks.old.items }
    requires place { at ≡ rank key (keyed_blocks blocks.old.items) }
    requires other { is_open key (slice_get blocks.old.items at) ≡ false }
    requires limit { key < 2 ^ 24 }
    requires sums { HasSums blocks.old.items sums.old.items }
    ensures blocks { AreRunBlocks 0 blocks.new.items }
    ensures running { running_in blocks.new.items ≡ running_in blocks.old.items }
    ensures opened { OnOk result (In key (block_keys blocks.new.items)) }
    ensures keys { (k : ℕ) → In k (block_keys blocks.old.items) → In k (block_keys blocks.new.items) }
    ensures sums { HasSums blocks.new.items sums.new.items }
{
    let running = Vec::with_capacity(*blocks.allocator(), 256)?;
    make_sum(blocks.as_slice(), sums)?;
    blocks.insert(at, RunBlock { key, running })?;
    recount(blocks.as_slice(), sums);
    Ok(())
}

// Whether there is an entry for one of the 256 numbers of the block of this key.
fn has_place<V: Drop>(places: &BlockMap<V>, key: u32) -> bool
    ensures { result ≡ (nat_lt key (2 ^ 24) && has_place key places.now) }
{
    match key.checked_mul(256) {
        Some(low) => {
            match places.next(low) {
                Some(number) => number / 256 == key,
                None => false,
            }
        }
        None => false,
    }
}

// Whether a goroutine of the block runs, or is there.
fn is_needed<V: Drop>(places: &BlockMap<V>, block: &RunBlock) -> bool
    ensures { result ≡ is_needed places.now block.now }
{
    !block.running.is_empty() || has_place(places, block.key)
}

/// Removes the blocks that are not needed, and makes the sums anew. It takes no memory.
pub fn close_blocks<V: Drop>(
    blocks: &mut Vec<RunBlock>,
    sums: &mut Vec<usize>,
    places: &BlockMap<V>,
)
    requires blocks { AreRunBlocks 0 blocks.old.items }
    requires enough { length blocks.old.items ≤ 64 * length sums.old.items }
    ensures blocks { AreRunBlocks 0 blocks.new.items }
    ensures running { running_in blocks.new.items ≡ running_in blocks.old.items }
    ensures keys { (k : ℕ) → In k (block_keys blocks.old.items) → has_place k places.now ≡ true → In k (block_keys blocks.new.items) }
    ensures sums { HasSums blocks.new.items sums.new.items }
{
    blocks.retain(|block| is_needed(places, block));
    recount(blocks.as_slice(), sums);
}
