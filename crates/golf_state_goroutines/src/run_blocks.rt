//! Blocks of running goroutines.
//!
//! A block is for 256 successive numbers. Its list has room for all of them, so a goroutine starts to run
//! without memory.

ghost use Rattle.std.specs.Prelude.{◌≡◌, ◌+◌, ◌/◌, length, IfSome};
ghost use Rattle.golf_theory.specs.Stored.{placed, without};
ghost use Rattle.golf_theory.specs.Maps.{rank};
ghost use Rattle.golf_state_goroutines.specs.Goroutines.{IsNone};
ghost use Rattle.golf_state_goroutines.specs.RunBlocks.{numbers, IsRunBlock, AreRunBlocks, keyed_blocks};

use crate::rising_lists::{leave_out, put_in};
use golf_base::GoroutineId;

/// The running goroutines among the 256 numbers from 256 times the key on.
#[derive(Debug, Drop)]
pub struct RunBlock {
    pub key: u32,
    pub running: Vec<GoroutineId>,
}

// Returns the key as an index if the block of this key is at that index, or `None`. It is there if no
// block before it is gone.
#[inline(always)]
fn index_of(blocks: &[RunBlock], key: u32) -> Option<usize>
    requires { AreRunBlocks 0 blocks.now }
    ensures { IfSome result (λ at. at ≡ rank key (keyed_blocks blocks.now)) }
{
    let block = blocks.get(key as usize)?;
    if block.key == key {
        Some(key as usize)
    } else {
        None
    }
}

/// Returns how many blocks have a smaller key.
#[inline(always)]
pub fn block_of(blocks: &[RunBlock], key: u32) -> usize
    requires { AreRunBlocks 0 blocks.now }
    ensures { result ≡ rank key (keyed_blocks blocks.now) }
{
    match index_of(blocks, key) {
        Some(at) => at,
        None => blocks.partition_point(|block| block.key < key),
    }
}

/// Removes this number from the block, if it is there. Returns how many numbers it removed.
#[inline(always)]
pub fn stop(block: &mut RunBlock, number: u32) -> usize
    requires { IsRunBlock block.old }
    ensures block { IsRunBlock block.new }
    ensures key { block.new.key ≡ block.old.key }
    ensures running { numbers block.new.running.items ≡ without number (numbers block.old.running.items) }
    ensures count { length block.new.running.items + result ≡ length block.old.running.items }
{
    let before = block.running.len();
    leave_out(&mut block.running, GoroutineId(number));
    before - block.running.len()
}

/// Adds this number, which belongs to the block. It takes no memory.
#[inline(always)]
pub fn start(block: &mut RunBlock, number: u32)
    requires block { IsRunBlock block.old }
    requires key { number / 256 ≡ block.old.key }
    requires none { IsNone number (numbers block.old.running.items) }
    ensures block { IsRunBlock block.new }
    ensures key { block.new.key ≡ block.old.key }
    ensures running { numbers block.new.running.items ≡ placed number (numbers block.old.running.items) }
    ensures count { length block.new.running.items ≡ length block.old.running.items + 1 }
{
    put_in(&mut block.running, GoroutineId(number));
}
