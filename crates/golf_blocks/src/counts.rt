//! A count of all entries, block by block.

ghost use Rattle.std.specs.Prelude.{◌≡◌, length};
ghost use Rattle.golf_blocks.specs.Blocks.{AreBlocks, entries_in};

use crate::blocks::Block;

/// Returns how many entries there are.
pub fn count_entries<V: Drop>(blocks: &[Block<V>]) -> usize
    requires { AreBlocks 0 blocks.now }
    ensures { result ≡ length (entries_in blocks.now) }
{
    let mut count = 0;
    for at in 0..blocks.len() {
        count += blocks[at].entries.len();
    }
    count
}
