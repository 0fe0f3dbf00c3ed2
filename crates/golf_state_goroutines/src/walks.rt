//! Walks over the blocks of running goroutines: to the k-th that runs, and to all of them.
//!
//! The sums of 64 blocks each make the way to the k-th goroutine short.

ghost use Rattle.std.specs.Prelude.{◌≡◌, ◌+◌, [], option_map, slice_get, length};
ghost use Rattle.golf_state_goroutines.specs.RunBlocks.{AreRunBlocks, block_keys, running_in, runs_before};
ghost use Rattle.golf_state_goroutines.specs.Sums.{HasSums};

use crate::run_blocks::RunBlock;
use golf_base::GoroutineId;

// The goroutine at this place among those that run, counted from the block at `start`.
fn running_from(blocks: &[RunBlock], start: usize, k: usize) -> Option<GoroutineId>
    ensures { option_map (λ g. g.0) result ≡ slice_get (running_in blocks.now) (runs_before blocks.now start + k) }
{
    let mut rest = k;
    for at in start..blocks.len() {
        let running = blocks[at].running.as_slice();
        if rest < running.len() {
            return Some(running[rest]);
        }
        rest -= running.len();
    }
    None
}

/// Returns the goroutine at this place among those that run, or `None`. It looks at one sum for each 64
/// blocks, and then at no more than 64 blocks.
pub fn running_at(blocks: &[RunBlock], sums: &[usize], k: usize) -> Option<GoroutineId>
    requires { HasSums blocks.now sums.now }
    ensures { option_map (λ g. g.0) result ≡ slice_get (running_in blocks.now) k }
{
    let mut rest = k;
    for at in 0..sums.len() {
        if rest < sums[at] {
            return running_from(blocks, at * 64, rest);
        }
        rest -= sums[at];
    }
    None
}

/// Empties the list of each block. It takes no memory.
pub fn empty_all(blocks: &mut Vec<RunBlock>)
    requires { AreRunBlocks 0 blocks.old.items }
    ensures blocks { AreRunBlocks 0 blocks.new.items }
    ensures none { running_in blocks.new.items ≡ [] }
    ensures keys { block_keys blocks.new.items ≡ block_keys blocks.old.items }
    ensures len { length blocks.new.items ≡ length blocks.old.items }
{
    for at in 0..blocks.len() {
        blocks[at].running.clear();
    }
}
