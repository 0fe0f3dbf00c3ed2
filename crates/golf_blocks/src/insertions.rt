//! Adds entries.
//!
//! A key above all tops comes last: it begins a new block only if the last block is full. So blocks stay
//! full while keys rise. Any other key belongs to a block, which is split if it is full.

ghost use Rattle.std.specs.Prelude.{◌≡◌, ◌-◌, ◌∷◌, ◌++◌, [], None, length, slice_get, OnOk, OnErr};
ghost use Rattle.golf_theory.specs.Maps.{find, insert, AllBelow};
ghost use Rattle.golf_blocks.specs.Blocks.{AreBlocks, AreFilled, has_room, keyed_blocks, entries_in};

use crate::blocks::{Block, append, block_of, join};
use crate::full_blocks::make_room;
use golf_base::Memory;

// Whether there is a last block, and it has room for one more.
fn has_room_at_end<V: Drop>(blocks: &[Block<V>]) -> bool
    ensures { result ≡ has_room (slice_get blocks.now (length blocks.now - 1)) }
{
    match blocks.last() {
        Some(block) => block.entries.len() < 512,
        None => false,
    }
}

// Adds a block after the others, with this entry alone.
fn add_block<V: Drop>(blocks: &mut Vec<Block<V>>, key: u32, value: V) -> Result<(), Memory>
    requires blocks { AreBlocks 0 blocks.old.items }
    requires filled { AreFilled blocks.old.items }
    requires below { AllBelow key (keyed_blocks blocks.old.items) }
    ensures blocks { AreBlocks 0 blocks.new.items }
    ensures filled { AreFilled blocks.new.items }
    ensures ok { OnOk result (entries_in blocks.new.items ≡ entries_in blocks.old.items ++ (key, value) ∷ []) }
    ensures err { OnErr result (entries_in blocks.new.items ≡ entries_in blocks.old.items) }
{
    let mut entries = Vec::new(*blocks.allocator());
    entries.push((key, value))?;
    blocks.push(Block { top: key, entries })?;
    Ok(())
}

// Adds an entry after all others. It begins a new block only if the last one is full.
fn add_last<V: Drop>(blocks: &mut Vec<Block<V>>, key: u32, value: V) -> Result<(), Memory>
    requires blocks { AreBlocks 0 blocks.old.items }
    requires filled { AreFilled blocks.old.items }
    requires below { AllBelow key (keyed_blocks blocks.old.items) }
    ensures blocks { AreBlocks 0 blocks.new.items }
    ensures filled { AreFilled blocks.new.items }
    ensures ok { OnOk result (entries_in blocks.new.items ≡ entries_in blocks.old.items ++ (key, value) ∷ []) }
    ensures err { OnErr result (entries_in blocks.new.items ≡ entries_in blocks.old.items) }
{
    if has_room_at_end(blocks.as_slice()) {
        let last = blocks.len() - 1;
        append(&mut blocks[last], key, value)?;
        return Ok(());
    }
    add_block(blocks, key, value)?;
    Ok(())
}

/// Sets the value of a key that has none.
pub fn put_in<V: Drop>(blocks: &mut Vec<Block<V>>, key: u32, value: V) -> Result<(), Memory>
    requires blocks { AreBlocks 0 blocks.old.items }
    requires filled { AreFilled blocks.old.items }
    requires absent { find key (entries_in blocks.old.items) ≡ None }
    ensures blocks { AreBlocks 0 blocks.new.items }
    ensures filled { AreFilled blocks.new.items }
    ensures ok { OnOk result (entries_in blocks.new.items ≡ insert key value (entries_in blocks.old.items)) }
    ensures err { OnErr result (entries_in blocks.new.items ≡ entries_in blocks.old.items) }
{
    let at = block_of(blocks.as_slice(), key);
    if at >= blocks.len() {
        add_last(blocks, key, value)?;
        return Ok(());
    }
    let place = make_room(blocks, at, key)?;
    join(&mut blocks[place], key, value)?;
    Ok(())
}
