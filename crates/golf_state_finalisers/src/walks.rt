//! Walks over all finalisers, one block after another.
//!
//! They are in rising order of their objects' numbers.

ghost use Rattle.std.specs.Prelude.{◌≡◌, ◌++◌, length, IfOk, OnOk};
ghost use Rattle.golf_theory.specs.Maps.{IsRising};
ghost use Rattle.golf_theory.specs.Flags.{left_out};
ghost use Rattle.golf_model.specs.Collections.{queued};
ghost use Rattle.golf_blocks.specs.Blocks.{entries_in};

use golf_base::{List, Memory, ObjectId};
use golf_blocks::{Block, BlockMap};
use golf_data::Queued;
use std::alloc::Global;

/// Returns all finalisers in rising order of their objects' numbers.
pub fn list_pairs(alloc: Global, blocks: &[Block<u32>]) -> Result<List<(u32, u32)>, Memory>
    ensures { IfOk result (λ pairs. pairs ≡ entries_in blocks.now) }
{
    let mut list = List::new(alloc);
    for at in 0..blocks.len() {
        list.extend_from_slice(blocks[at].entries.as_slice())?;
    }
    Ok(list)
}

/// Adds these finalisers after the others, whose objects have smaller numbers.
pub fn put_all(to: &mut BlockMap<u32>, pairs: &[(u32, u32)]) -> Result<(), Memory>
    requires { IsRising (to.old ++ pairs.now) }
    ensures { OnOk result (to.new ≡ to.old ++ pairs.now) }
{
    for pair in pairs {
        to.put(pair.0, pair.1)?;
    }
    Ok(())
}

// Adds the entries of the queue for those finalisers whose flag is false.
fn add_unflagged(
    entries: &mut List<Queued>,
    pairs: &[(u32, u32)],
    stays: &[bool],
) -> Result<(), Memory>
    requires { length stays.now ≡ length pairs.now }
    ensures { IfOk result (λ u. entries.new ≡ entries.old ++ queued (left_out stays.now pairs.now)) }
{
    for at in 0..stays.len() {
        if !stays[at] {
            let (object, function) = pairs[at];
            entries.push(Queued {
                object: ObjectId(object),
                function,
            })?;
        }
    }
    Ok(())
}

/// Returns the entries of the queue for those finalisers whose flag is false.
pub fn unflagged_in(
    alloc: Global,
    blocks: &[Block<u32>],
    stays: &[bool],
) -> Result<List<Queued>, Memory>
    requires { length stays.now ≡ length (entries_in blocks.now) }
    ensures { IfOk result (λ entries. entries ≡ queued (left_out stays.now (entries_in blocks.now))) }
{
    let mut entries = List::new(alloc);
    let mut rest = stays;
    for at in 0..blocks.len() {
        let pairs = blocks[at].entries.as_slice();
        let (these, others) = rest.split_at(pairs.len());
        add_unflagged(&mut entries, pairs, these)?;
        rest = others;
    }
    Ok(entries)
}
