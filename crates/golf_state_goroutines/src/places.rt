//! Goroutines with their numbers, one after another.

ghost use Rattle.std.specs.Prelude.{◌≡◌, ◌++◌, map, IfOk};
ghost use Rattle.golf_theory.specs.Maps.{keys, IsRising};
ghost use Rattle.golf_data.specs.declared.goroutine.Mode.{Mode};
ghost use Rattle.golf_blocks.specs.Blocks.{entries_in};
ghost use Rattle.golf_model.specs.Views.{frame_views, goroutine_view};
ghost use Rattle.golf_model.specs.State.{is_running};
ghost use Rattle.golf_state_goroutines.specs.Places.{plain_entry, plain_entries, running_of};
ghost use Rattle.golf_state_goroutines.specs.RunLists.{CanStart, AreAbove};

use crate::run_list::RunList;
use golf_base::{Boxed, GoroutineId, List, Memory};
use golf_blocks::Block;
use golf_data::{Frame, Goroutine, Mode};
use std::alloc::Global;

/// Returns a running goroutine and its number, with these frames, started at this line. The only error is
/// `Memory`.
pub fn place_of(
    alloc: Global,
    number: u32,
    frames: List<Frame>,
    started: u32,
) -> Result<(u32, Boxed<Goroutine>), Memory>
    ensures { IfOk result (λ place. plain_entry place ≡ (number, record { frames = frame_views frames; mode = Mode.Running; started = started })) }
{
    let goroutine = Goroutine {
        frames,
        mode: Mode::Running,
        started,
    };
    Ok((number, Boxed::new(alloc, goroutine)?))
}

/// Returns whether a goroutine in this mode runs.
#[inline(always)]
pub fn is_running(mode: &Mode) -> bool
    ensures { result ≡ is_running mode.now }
{
    match mode {
        Mode::Running => true,
        Mode::Blocked { .. } => false,
    }
}

// Adds the numbers of those of these goroutines that run. All are above the numbers before.
fn start_these(runs: &mut RunList, places: &[(u32, Boxed<Goroutine>)])
    requires rises { IsRising places.now }
    requires room { CanStart runs.old.keys places.now }
    requires above { AreAbove runs.old.numbers places.now }
    ensures { runs.new ≡ record runs.old { numbers = runs.old.numbers ++ running_of (plain_entries places.now) } }
{
    for place in places {
        if is_running(&place.1.get().mode) {
            runs.start(place.0);
        }
    }
}

/// Adds the numbers of those of these goroutines that run. All are above the numbers before.
pub fn start_all(runs: &mut RunList, blocks: &[Block<Boxed<Goroutine>>])
    requires rises { IsRising (entries_in blocks.now) }
    requires room { CanStart runs.old.keys (entries_in blocks.now) }
    requires above { AreAbove runs.old.numbers (entries_in blocks.now) }
    ensures { runs.new ≡ record runs.old { numbers = runs.old.numbers ++ running_of (plain_entries (entries_in blocks.now)) } }
{
    for at in 0..blocks.len() {
        start_these(runs, blocks[at].entries.as_slice());
    }
}

// Adds the numbers of these goroutines at the end of the list.
fn add_numbers(
    list: &mut List<GoroutineId>,
    places: &[(u32, Boxed<Goroutine>)],
) -> Result<(), Memory>
    ensures { IfOk result (λ u. map (λ g. g.0) list.new ≡ map (λ g. g.0) list.old ++ keys (plain_entries places.now)) }
{
    for place in places {
        list.push(GoroutineId(place.0))?;
    }
    Ok(())
}

/// Returns the numbers of all these goroutines in rising order. The only error is `Memory`.
pub fn numbers(
    alloc: Global,
    blocks: &[Block<Boxed<Goroutine>>],
) -> Result<List<GoroutineId>, Memory>
    ensures { IfOk result (λ gs. map (λ g. g.0) gs ≡ keys (plain_entries (entries_in blocks.now))) }
{
    let mut list = List::new(alloc);
    for at in 0..blocks.len() {
        add_numbers(&mut list, blocks[at].entries.as_slice())?;
    }
    Ok(list)
}
