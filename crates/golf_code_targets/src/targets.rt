//! The first walk: the target of each block.
//!
//! A block whose target is its beginning has it at once. A block whose target is its end gets it
//! when it ends.

ghost use Rattle.std.specs.Prelude.{◌≡◌, ◌+◌, ◌∷◌, ◌++◌, [], Some, None, length, slice_set, OnOk, IfOk};
ghost use Rattle.golf_code_targets.specs.Walks.{rest, ended, target_step, no_targets as no_targets_of};
ghost use Rattle.golf_code_targets.specs.Walks.{targets_of as targets_of_of};

use crate::nesting::Nesting;
use golf_base::{List, Memory};
use golf_code_layout::Emitted;
use std::alloc::Global;

/// The state of the first walk: the targets of blocks so far.
#[derive(Drop)]
pub struct Targets {
    /// The place of the next instruction.
    pub at: u32,
    /// The blocks around. A block whose target is its end has the number of that target, which is
    /// not known yet.
    pub waiting: Nesting<Option<usize>>,
    /// The target of each block that has begun. It is 0 as long as it is not known.
    pub found: List<u32>,
}

fn no_targets(alloc: Global) -> Targets
    ensures { result ≡ no_targets_of }
{
    Targets {
        at: 0,
        waiting: Nesting::new(alloc),
        found: List::new(alloc),
    }
}

// Skips an instruction.
fn skip(targets: &mut Targets) -> Result<(), Memory>
    ensures { OnOk result (targets.new ≡ record targets.old { at = targets.old.at + 1 }) }
{
    targets.at = targets.at.checked_add(1).ok_or(Memory)?;
    Ok(())
}

// Begins a block whose target is its end.
fn begin_block(targets: &mut Targets) -> Result<(), Memory>
    ensures { OnOk result (targets.new ≡ record targets.old { waiting = Some (length targets.old.found) ∷ targets.old.waiting; found = targets.old.found ++ 0 ∷ [] }) }
{
    let place = targets.found.len();
    targets.waiting.push(Some(place))?;
    targets.found.push(0)?;
    Ok(())
}

// Begins a block whose target is its beginning.
fn begin_again(targets: &mut Targets) -> Result<(), Memory>
    ensures { OnOk result (targets.new ≡ record targets.old { waiting = None ∷ targets.old.waiting; found = targets.old.found ++ targets.old.at ∷ [] }) }
{
    targets.waiting.push(None)?;
    targets.found.push(targets.at)?;
    Ok(())
}

// Stores a target at its place, if there is such a place.
fn put(found: &mut List<u32>, place: usize, target: u32)
    ensures { found.new ≡ slice_set found.old place target }
{
    if place < found.len() {
        found.set(place, target);
    }
}

// Ends a block.
fn end(targets: &mut Targets)
    ensures { targets.new ≡ record targets.old { waiting = rest targets.old.waiting; found = ended targets.old.at targets.old.waiting targets.old.found } }
{
    match targets.waiting.pop() {
        None => {}
        Some(None) => {}
        Some(Some(place)) => put(&mut targets.found, place, targets.at),
    }
}

fn step(targets: &mut Targets, part: &Emitted) -> Result<(), Memory>
    ensures { OnOk result (targets.new ≡ target_step part.now targets.old) }
{
    match part {
        Emitted::Op(_, _) => skip(targets),
        Emitted::Exit(_, _) => skip(targets),
        Emitted::Unless(_, _) => skip(targets),
        Emitted::Choose(_, _, _) => skip(targets),
        Emitted::Block => begin_block(targets),
        Emitted::Again => begin_again(targets),
        Emitted::End => {
            end(targets);
            Ok(())
        }
    }
}

/// Returns the target of each block, in the order in which the blocks begin.
pub fn targets_of(alloc: Global, emitted: &[Emitted]) -> Result<List<u32>, Memory>
    ensures { IfOk result (λ found. found ≡ targets_of_of emitted.now) }
{
    let mut targets = no_targets(alloc);
    for part in emitted {
        step(&mut targets, part)?;
    }
    let Targets { found, .. } = targets;
    Ok(found)
}
