//! Blocks of entries.
//!
//! Each block has a top: no key in it is greater, and each key of a later block is greater. The top stays
//! when entries are taken.

ghost use Rattle.std.specs.Prelude.{◌≡◌, ◌<◌, ◌+◌, ◌-◌, ◌∷◌, ◌++◌, [], ◌==◌, None, Some, not, length, take, drop};
ghost use Rattle.std.specs.Prelude.{slice_get, option_map, IfOk, OnOk, OnErr};
ghost use Rattle.golf_theory.specs.Maps.{find, insert, only, Rises, rank};
ghost use Rattle.golf_theory.specs.Flags.{kept};
ghost use Rattle.golf_blocks.specs.Blocks.{AreBlocks, keyed_blocks};

use crate::entries::{put_entry, take_entry};
use crate::flagged_items::close_up;
use golf_base::Memory;

/// At most 512 entries in rising order of their keys, which are up to the top. All keys are greater than
/// the top of the block before.
#[derive(Debug, Drop)]
pub struct Block<V> {
    pub top: u32,
    pub entries: Vec<(u32, V)>,
}

/// Returns how many blocks have a top smaller than the key. The key belongs to the block at this place, if
/// there is one.
pub fn block_of<V: Drop>(blocks: &[Block<V>], key: u32) -> usize
    requires { AreBlocks 0 blocks.now }
    ensures { result ≡ rank key (keyed_blocks blocks.now) }
{
    blocks.partition_point(|block| block.top < key)
}

/// Puts the value of a key that has none into the block.
pub fn join<V: Drop>(block: &mut Block<V>, key: u32, value: V) -> Result<(), Memory>
    requires rises { Rises 0 block.old.entries.items }
    requires absent { find key block.old.entries.items ≡ None }
    ensures top { block.new.top ≡ block.old.top }
    ensures ok { OnOk result (block.new.entries.items ≡ insert key value block.old.entries.items) }
    ensures err { OnErr result (block.new.entries.items ≡ block.old.entries.items) }
{
    put_entry(&mut block.entries, key, value)?;
    Ok(())
}

/// Adds an entry after the others of the block, whose top becomes the key.
pub fn append<V: Drop>(block: &mut Block<V>, key: u32, value: V) -> Result<(), Memory>
    ensures ok_top { OnOk result (block.new.top ≡ key) }
    ensures ok { OnOk result (block.new.entries.items ≡ block.old.entries.items ++ (key, value) ∷ []) }
    ensures err_top { OnErr result (block.new.top ≡ block.old.top) }
    ensures err { OnErr result (block.new.entries.items ≡ block.old.entries.items) }
{
    block.entries.push((key, value))?;
    block.top = key;
    Ok(())
}

/// Keeps the first `size` entries of the block, and returns the others as a block.
pub fn cut<V: Drop>(block: &mut Block<V>, size: usize) -> Result<Block<V>, Memory>
    requires some { 0 < size }
    requires within { size < length block.old.entries.items }
    ensures front { OnOk result (block.new.entries.items ≡ take size block.old.entries.items) }
    ensures front_top { OnOk result (option_map (λ p. p.0) (slice_get block.old.entries.items (size - 1)) ≡ Some block.new.top) }
    ensures back { IfOk result (λ others. others.entries.items ≡ drop size block.old.entries.items) }
    ensures back_top { IfOk result (λ others. others.top ≡ block.old.top) }
    ensures err_top { OnErr result (block.new.top ≡ block.old.top) }
    ensures err { OnErr result (block.new.entries.items ≡ block.old.entries.items) }
{
    let last = block.entries[size - 1].0;
    let entries = block.entries.split_off(size)?;
    let top = block.top;
    block.top = last;
    Ok(Block { top, entries })
}

/// Removes the entry of the key from the block, if it is there, and returns how many it removed.
pub fn part<V: Drop>(block: &mut Block<V>, key: u32) -> usize
    requires { Rises 0 block.old.entries.items }
    ensures top { block.new.top ≡ block.old.top }
    ensures entries { block.new.entries.items ≡ only (λ p. not (p == key)) block.old.entries.items }
    ensures count { length block.new.entries.items + result ≡ length block.old.entries.items }
{
    let before = block.entries.len();
    take_entry(&mut block.entries, key);
    before - block.entries.len()
}

/// Keeps the entries of the block whose flag is true. It takes no memory.
pub fn retain_in<V: Drop>(block: &mut Block<V>, stays: &[bool])
    requires { length stays.now ≡ length block.old.entries.items }
    ensures top { block.new.top ≡ block.old.top }
    ensures entries { block.new.entries.items ≡ kept stays.now block.old.entries.items }
{
    close_up(&mut block.entries, stays);
}
