//! Removes entries.
//!
//! A block without an entry is removed at once. Nothing here takes memory.

ghost use Rattle.std.specs.Prelude.{◌≡◌, ◌<◌, ◌+◌, ◌==◌, not, length, take, drop};
ghost use Rattle.golf_theory.specs.Maps.{only};
ghost use Rattle.golf_theory.specs.Flags.{kept};
ghost use Rattle.golf_blocks.specs.Blocks.{AreBlocks, AreFilled, is_filled, entries_in};

use crate::blocks::{Block, block_of, part, retain_in};

// Removes the block at this place, if it has no entry.
fn close_at<V: Drop>(blocks: &mut Vec<Block<V>>, at: usize)
    requires blocks { AreBlocks 0 blocks.old.items }
    requires within { at < length blocks.old.items }
    requires before { AreFilled (take at blocks.old.items) }
    requires after { AreFilled (drop (at + 1) blocks.old.items) }
    ensures blocks { AreBlocks 0 blocks.new.items }
    ensures filled { AreFilled blocks.new.items }
    ensures entries { entries_in blocks.new.items ≡ entries_in blocks.old.items }
{
    if blocks[at].entries.is_empty() {
        blocks.remove(at);
    }
}

/// Removes the entry of the key, if it is there, and returns how many it removed. It takes no memory.
pub fn take_from<V: Drop>(blocks: &mut Vec<Block<V>>, key: u32) -> usize
    requires blocks { AreBlocks 0 blocks.old.items }
    requires filled { AreFilled blocks.old.items }
    ensures blocks { AreBlocks 0 blocks.new.items }
    ensures filled { AreFilled blocks.new.items }
    ensures entries { entries_in blocks.new.items ≡ only (λ p. not (p == key)) (entries_in blocks.old.items) }
    ensures count { length (entries_in blocks.new.items) + result ≡ length (entries_in blocks.old.items) }
{
    let at = block_of(blocks.as_slice(), key);
    if at >= blocks.len() {
        return 0;
    }
    let gone = part(&mut blocks[at], key);
    close_at(blocks, at);
    gone
}

// Whether the block has an entry.
fn is_filled<V: Drop>(block: &Block<V>) -> bool
    ensures { result ≡ is_filled block.now }
{
    !block.entries.is_empty()
}

// Removes the blocks without an entry. It takes no memory.
fn close_blocks<V: Drop>(blocks: &mut Vec<Block<V>>)
    requires { AreBlocks 0 blocks.old.items }
    ensures blocks { AreBlocks 0 blocks.new.items }
    ensures filled { AreFilled blocks.new.items }
    ensures entries { entries_in blocks.new.items ≡ entries_in blocks.old.items }
{
    blocks.retain(|block| is_filled(block));
}

// Keeps the entries whose flag is true, block by block. It takes no memory.
fn retain_entries<V: Drop>(blocks: &mut Vec<Block<V>>, stays: &[bool])
    requires blocks { AreBlocks 0 blocks.old.items }
    requires flags { length stays.now ≡ length (entries_in blocks.old.items) }
    ensures blocks { AreBlocks 0 blocks.new.items }
    ensures entries { entries_in blocks.new.items ≡ kept stays.now (entries_in blocks.old.items) }
{
    let mut rest = stays;
    for at in 0..blocks.len() {
        let (these, others) = rest.split_at(blocks[at].entries.len());
        retain_in(&mut blocks[at], these);
        rest = others;
    }
}

/// Keeps the entries whose flag is true. The flags are in rising order of the keys. It takes no memory.
pub fn retain_from<V: Drop>(blocks: &mut Vec<Block<V>>, stays: &[bool])
    requires blocks { AreBlocks 0 blocks.old.items }
    requires flags { length stays.now ≡ length (entries_in blocks.old.items) }
    ensures blocks { AreBlocks 0 blocks.new.items }
    ensures filled { AreFilled blocks.new.items }
    ensures entries { entries_in blocks.new.items ≡ kept stays.now (entries_in blocks.old.items) }
{
    retain_entries(blocks, stays);
    close_blocks(blocks);
}
