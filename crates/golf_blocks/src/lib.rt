//! Entries in rising order of their keys, in blocks.
//!
//! - `BlockMap`: entries, each a key and a value, in blocks of at most 512. A call that sets or takes one
//!   moves at most the others of its block. If it makes or removes a block, it moves the later blocks too.
//! - `close_up`: keeps the items of a vector whose flag is true.
#![tactic(auto)]

mod blocks;
mod counts;
mod entries;
mod flagged_items;
mod full_blocks;
mod insertions;
mod map;
mod removals;
mod spots;
mod successors;

pub use blocks::Block;
pub use flagged_items::close_up;
pub use map::BlockMap;
