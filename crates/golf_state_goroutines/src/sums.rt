//! How many goroutines run in each 64 blocks.
//!
//! A search for the k-th running goroutine skips 64 blocks with one look at a sum.

ghost use Rattle.std.specs.Prelude.{◌≡◌, ◌≤◌, ◌*◌, ℕ, length, get_or};
ghost use Rattle.golf_state_goroutines.specs.RunBlocks.{AreRunBlocks};
ghost use Rattle.golf_state_goroutines.specs.Sums.{HasSums};

use crate::run_blocks::RunBlock;

// Sets all sums to 0.
fn clear(sums: &mut Vec<usize>)
    ensures zero { (k : ℕ) → get_or sums.new.items k 0 ≡ 0 }
    ensures len { length sums.new.items ≡ length sums.old.items }
{
    for at in 0..sums.len() {
        sums[at] = 0;
    }
}

/// Counts anew how many goroutines run in each 64 blocks. It takes no memory.
pub fn recount(blocks: &[RunBlock], sums: &mut Vec<usize>)
    requires blocks { AreRunBlocks 0 blocks.now }
    requires enough { length blocks.now ≤ 64 * length sums.old.items }
    ensures { HasSums blocks.now sums.new.items }
{
    clear(sums);
    for at in 0..blocks.len() {
        sums[at / 64] += blocks[at].running.len();
    }
}
